//! Whether a call has the shape of its command's row.
ghost use Rattle.std.specs.Prelude.{IsTrue, map, ◌↔◌};
ghost use Rattle.command_tables.specs.Table.{seen_param};
ghost use Rattle.model_driver.specs.Driver.{FitsAsked, FitsParam, FitsRow};

use command_tables::{Effect, HandleArgs, Param};

fn fits_param(param: &Param, handles: &[u64]) -> bool
    ensures { IsTrue result ↔ FitsParam (seen_param param.now) handles.now }
{
    handles.len() <= 1024 && (param.many || handles.len() == 1)
}

/// Whether each parameter has its list.
pub fn fits_row(params: &[Param], args: &HandleArgs<6>) -> bool
    ensures { IsTrue result ↔ FitsRow (map seen_param params.now) args.now.lists }
{
    if params.len() != args.len() {
        return false;
    }
    for (p, param) in params.iter().enumerate() {
        if !fits_param(param, args.param(p)) {
            return false;
        }
    }
    true
}

/// Whether a command with this effect may ask for so many handles.
pub fn fits_asked(effect: Effect, asked: u32) -> bool
    ensures { IsTrue result ↔ FitsAsked effect asked }
{
    match effect {
        Effect::Create { many: true, .. } | Effect::Retrieve { many: true, .. } => asked <= 1024,
        Effect::Create { many: false, .. } | Effect::Retrieve { many: false, .. } => asked == 1,
        Effect::None | Effect::Destroy(_) | Effect::Free(_) | Effect::Reset(_) => asked == 0,
    }
}
