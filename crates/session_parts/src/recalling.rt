// What the arguments of a call stand for that had entered, again.
ghost use Rattle.std.specs.Prelude.{◌≡◌, ◌≤◌, false, length, map, slice_index_or, take, vec_capacity, IsOk, OnOk};
ghost use Rattle.command_tables.specs.Handles.{list_at};
ghost use Rattle.replay_model.specs.Past.{arguments_in};
ghost use Rattle.session_tables.specs.Shown.{args_shown};
ghost use Rattle.session_parts.specs.Leaving.{recalled, recalled_places};
ghost use Rattle.session_parts.specs.Scratch.{FitLists, KeepLists};
ghost use Rattle.trace_format.specs.Content.{arg_content};

use crate::names::put_first;
use command_tables::{HandleArgs, LayerCall};
use object_model::Argument;
use session_tables::NamedTable;
use std::alloc::AllocError;
use trace_format::TraceArg;

// Whether a place is marked. One that isn't there isn't.
#[tactic(auto, using(crate::proofs::Recalled::beyond_param, crate::proofs::Recalled::beyond_place))]
fn is_marked(all: &HandleArgs<6>, p: usize, k: usize) -> bool
    ensures { result ≡ slice_index_or (list_at all.now.marks p) k false }
{
    if p >= all.len() {
        return false;
    }
    if k >= all.param(p).len() {
        return false;
    }
    all.unborn(p, k)
}

// Of the arguments of a parameter those that are marked weren't born when the call began.
fn recall_places(marks: &HandleArgs<6>, p: usize, at: &mut Vec<Argument>)
    ensures places { at.new.items ≡ recalled_places (list_at marks.now.marks p) at.old.items }
    ensures room { vec_capacity at.new ≡ vec_capacity at.old }
{
    for k in 0..at.len() {
        if is_marked(marks, p, k) {
            at[k] = Argument::Unborn;
        }
    }
}

// So it is at each of so many parameters.
fn recall(marks: &HandleArgs<6>, count: usize, args: &mut Vec<Vec<Argument>>)
    requires { count ≤ length args.old.items }
    ensures args { args_shown (take count args.new.items) ≡ recalled marks.now.marks (args_shown (take count args.old.items)) }
    ensures count { length args.new.items ≡ length args.old.items }
    ensures room { map (λ v. vec_capacity v) args.new.items ≡ map (λ v. vec_capacity v) args.old.items }
{
    for p in 0..count {
        recall_places(marks, p, &mut args[p]);
    }
}

/// Puts what the arguments of a begin that had entered stand for in the first lists: by the names now, but for those that weren't born when it
/// began, as its form below the last part marks them. Where there are lists enough, and each has room, this takes no memory.
pub(crate) fn put_again(
    names: &NamedTable,
    args: &[TraceArg],
    form: &LayerCall,
    all: &mut Vec<Vec<Argument>>,
) -> Result<(), AllocError>
    ensures count { OnOk result (length args.now ≤ length all.new.items) }
    ensures args { OnOk result (args_shown (take (length args.now) all.new.items) ≡ recalled form.now.args.marks (arguments_in names.now.names (map arg_content args.now))) }
    ensures room { KeepLists (map (λ v. vec_capacity v) all.old.items) (map (λ v. vec_capacity v) all.new.items) }
    ensures succeeds { FitLists (map (λ v. vec_capacity v) all.old.items) (map (λ a. a.names) (map arg_content args.now)) → IsOk result }
{
    put_first(names, args, all)?;
    recall(&form.args, args.len(), all);
    Ok(())
}
