// What the arguments of an open call stand for.
ghost use Rattle.std.specs.Prelude.{◌≡◌, ◌≤◌, length, map, take, OnOk};
ghost use Rattle.trace_format.specs.Content.{arg_content};
ghost use Rattle.replay_model.specs.Past.{arguments_in};
ghost use Rattle.session_tables.specs.Shown.{args_shown};

use crate::room::Spares;
use object_model::Argument;
use session_parts::put_places;
use session_tables::NamedTable;
use std::alloc::AllocError;
use trace_format::TraceArg;

// Leaves so many parameters at most, and keeps the room of the others.
fn leave_at_most(count: usize, room: &mut Spares<Argument>, all: &mut Vec<Vec<Argument>>)
    ensures { length all.new.items ≤ count }
{
    while count < all.len() {
        if let Some(places) = all.pop() {
            room.keep(places);
        }
    }
}

// Adds parameters up to so many.
fn add_up_to(
    count: usize,
    room: &mut Spares<Argument>,
    all: &mut Vec<Vec<Argument>>,
) -> Result<(), AllocError>
    requires { length all.old.items ≤ count }
    ensures { OnOk result (length all.new.items ≡ count) }
{
    while all.len() < count {
        all.push(room.take())?;
    }
    Ok(())
}

/// Puts what the arguments of a call stand for in place of what stood there.
pub fn put_arguments(
    room: &mut Spares<Argument>,
    names: &NamedTable,
    args: &[TraceArg],
    all: &mut Vec<Vec<Argument>>,
) -> Result<(), AllocError>
    ensures { OnOk result (args_shown all.new.items ≡ arguments_in names.now.names (map arg_content args.now)) }
{
    leave_at_most(args.len(), room, all);
    add_up_to(args.len(), room, all)?;
    for (k, arg) in args.iter().enumerate() {
        put_places(names, &arg.names, &mut all[k])?;
    }
    Ok(())
}
