//! What is written of a call's device and of the owner of its results.
ghost use Rattle.std.specs.Prelude.{◌≡◌, map};
ghost use Rattle.command_tables.specs.Table.{row_of, seen_param};
ghost use Rattle.trace_format.specs.Accepting.{same_name};
ghost use Rattle.trace_format.specs.Content.{arg_content};
ghost use Rattle.stream_model.specs.Devices.{makes_devices, name_at, owner_among, owner_written};
ghost use Rattle.stream_model.specs.Order.{is_on_no_device};

use command_tables::{CommandId, Effect, ObjectType, OwnerOf, Param, row};
use trace_format::{Name, TraceArg};

/// Whether two names are one.
pub fn is_same(one: Name, other: Name) -> bool
    ensures { result ≡ same_name one other }
{
    one.thread == other.thread && one.number == other.number
}

/// The name in the first place of the argument of a parameter.
pub fn name_at(args: &[TraceArg], parameter: u8) -> Option<Name>
    ensures { result ≡ name_at (map arg_content args.now) parameter }
{
    let arg = args.get(usize::from(parameter))?;
    let first = arg.names.first()?;
    *first
}

// The argument that is the owner.
fn owner_among(args: &[TraceArg], owner: OwnerOf) -> Option<Name>
    ensures { result ≡ owner_among (map arg_content args.now) owner }
{
    match owner {
        OwnerOf::Param(parameter) => name_at(args, parameter),
        OwnerOf::Nobody | OwnerOf::OwnerOfParam(_) => None,
    }
}

/// The argument that an effect names as the owner of what it makes or gives.
pub fn owner_written(args: &[TraceArg], effect: Effect) -> Option<Name>
    ensures { result ≡ owner_written (map arg_content args.now) effect }
{
    match effect {
        Effect::Create { owner, .. } | Effect::Retrieve { owner, .. } => owner_among(args, owner),
        Effect::None | Effect::Destroy(_) | Effect::Free(_) | Effect::Reset(_) => None,
    }
}

/// Whether a command makes devices.
#[tactic(auto, unfolding(command_tables::specs::Tests::same_type))]
pub fn makes_devices(cmd: CommandId) -> bool
    ensures { result ≡ makes_devices cmd }
{
    match row(cmd).effect.type_made() {
        None => false,
        Some(ty) => ty == ObjectType::Device,
    }
}

/// Whether a command with these parameters is on no device.
#[tactic(auto, unfolding(command_tables::specs::Tests::same_type))]
pub fn is_on_no_device(params: &[Param]) -> bool
    ensures { result ≡ is_on_no_device (map seen_param params.now) }
{
    match params {
        [] => true,
        [param, ..] => {
            param.ty == ObjectType::Instance || param.ty == ObjectType::PhysicalDevice
        }
    }
}
