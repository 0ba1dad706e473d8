// What the arguments of a call stand for.
ghost use Rattle.std.specs.Prelude.{◌≡◌, ◌≤◌, length, map, take, vec_capacity, IsOk, OnOk};
ghost use Rattle.trace_format.specs.Content.{arg_content};
ghost use Rattle.replay_model.specs.Past.{argument_in, arguments_in};
ghost use Rattle.session_tables.specs.Shown.{args_shown};
ghost use Rattle.session_parts.specs.Scratch.{FitLists, KeepLists};

use crate::scratch::add_lists;
use object_model::Argument;
use session_tables::NamedTable;
use std::alloc::AllocError;
use trace_format::{Name, TraceArg};

fn argument(names: &NamedTable, name: Option<Name>) -> Argument
    ensures { result ≡ argument_in names.now.names name }
{
    match name {
        None => Argument::Null,
        Some(name) => match names.object_named(name) {
            None => Argument::Unborn,
            Some(object) => Argument::The(object),
        },
    }
}

/// Puts what the names in the places of a parameter stand for in place of what stood there.
pub fn put_places(
    names: &NamedTable,
    at: &[Option<Name>],
    places: &mut Vec<Argument>,
) -> Result<(), AllocError>
    ensures places { OnOk result (places.new.items ≡ map (argument_in names.now.names) at.now) }
    ensures room { vec_capacity places.old ≤ vec_capacity places.new }
    ensures succeeds { length at.now ≤ vec_capacity places.old → IsOk result }
{
    places.clear();
    for name in at {
        places.push(argument(names, *name))?;
    }
    Ok(())
}

/// Puts what the arguments of a call stand for in the first lists, in place of what stood there. Where there are lists enough, and each has
/// room, this takes no memory.
pub(crate) fn put_first(
    names: &NamedTable,
    args: &[TraceArg],
    all: &mut Vec<Vec<Argument>>,
) -> Result<(), AllocError>
    ensures count { OnOk result (length args.now ≤ length all.new.items) }
    ensures args { OnOk result (args_shown (take (length args.now) all.new.items) ≡ arguments_in names.now.names (map arg_content args.now)) }
    ensures room { KeepLists (map (λ v. vec_capacity v) all.old.items) (map (λ v. vec_capacity v) all.new.items) }
    ensures succeeds { FitLists (map (λ v. vec_capacity v) all.old.items) (map (λ a. a.names) (map arg_content args.now)) → IsOk result }
{
    add_lists(args.len(), all)?;
    for (k, arg) in args.iter().enumerate() {
        put_places(names, &arg.names, &mut all[k])?;
    }
    Ok(())
}
