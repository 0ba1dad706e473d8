// A call in the handles above the first part of a chain.
ghost use Rattle.std.specs.Prelude.{◌≡◌, ◌≤◌, ◌<◌, ◌+◌, ◌++◌, ◌∷◌, [], length, map, replicate, slice_set, sum_by, false, vec_capacity, IsOk, OnOk};
ghost use Rattle.command_tables.specs.Calls.{HasRoomFor, call_content};
ghost use Rattle.command_tables.specs.Handles.{HasRoom, count_in, list_at};
ghost use Rattle.session_tables.specs.Shown.{args_shown};
ghost use Rattle.chain_model.specs.Chained.{form_by, handle_by, is_unborn};
ghost use Rattle.chain_model.specs.Handed.{handle_in};
ghost use Rattle.dispatch_chain.specs.Forms.{KeepsForm, form_room};
ghost use Rattle.session_parts.specs.Passed.{base_passed};
ghost use Rattle.session_parts.specs.Scratch.{AreWithin};

use crate::handed::HandedTable;
use command_tables::{Code, CommandId, HandleArgs, LayerCall, NoMemory};
use object_model::Argument;
use std::alloc::AllocError;

/// What a call passes on beside its arguments.
#[derive(Clone, Copy)]
pub struct Passed<'a> {
    pub cmd: CommandId,
    pub asked: u32,
    pub code: Option<Code>,
    pub payload: &'a [u8],
}

fn handle_of(handed: &HandedTable, argument: Argument) -> u64
    ensures { result ≡ handle_by (handle_in handed.now.handed) argument }
{
    match argument {
        Argument::Null | Argument::Unborn => 0,
        Argument::The(object) => handed.handle(object),
    }
}

fn put_handles(
    handed: &HandedTable,
    at: &[Argument],
    handles: &mut Vec<u64>,
) -> Result<(), AllocError>
    ensures handles { OnOk result (handles.new.items ≡ map (handle_by (handle_in handed.now.handed)) at.now) }
    ensures room { vec_capacity handles.old ≤ vec_capacity handles.new }
    ensures succeeds { length at.now ≤ vec_capacity handles.old → IsOk result }
{
    handles.clear();
    for argument in at {
        handles.push(handle_of(handed, *argument))?;
    }
    Ok(())
}

// Whether a place is marked: it holds a name that isn't born yet.
fn has_mark(argument: Argument) -> bool
    ensures { result ≡ is_unborn argument }
{
    match argument {
        Argument::Unborn => true,
        Argument::Null | Argument::The(_) => false,
    }
}

// Marks the places of a parameter that hold a name that isn't born yet.
fn mark_places(all: &mut HandleArgs<6>, p: usize, at: &[Argument])
    requires param { p < length all.old.lists }
    requires places { length (list_at all.old.lists p) ≡ length at.now }
    requires marks { p < length all.old.marks }
    requires none { list_at all.old.marks p ≡ replicate (length at.now) false }
    ensures lists { all.new.lists ≡ all.old.lists }
    ensures marks { all.new.marks ≡ slice_set all.old.marks p (map is_unborn at.now) }
    ensures room { HasRoom all.new all.old.slots all.old.room }
{
    for (k, argument) in at.iter().enumerate() {
        if has_mark(*argument) {
            all.mark_unborn(p, k);
        }
    }
}

// Adds a parameter with the handles and the marks of these arguments behind the others.
fn push_arguments(
    handed: &HandedTable,
    at: &[Argument],
    room: &mut Vec<u64>,
    all: &mut HandleArgs<6>,
) -> Result<(), NoMemory>
    requires { length all.old.lists < 6 }
    ensures lists { OnOk result (all.new.lists ≡ all.old.lists ++ map (handle_by (handle_in handed.now.handed)) at.now ∷ []) }
    ensures marks { OnOk result (all.new.marks ≡ all.old.marks ++ map is_unborn at.now ∷ []) }
    ensures handles_room { vec_capacity room.old ≤ vec_capacity room.new }
    ensures args_room { HasRoom all.new all.old.slots all.old.room }
    ensures succeeds { length at.now ≤ vec_capacity room.old → HasRoom all.old (length all.old.lists + 1) (count_in all.old.lists + length at.now) → IsOk result }
{
    put_handles(handed, at, room)?;
    let p = all.len();
    all.push_param(room)?;
    mark_places(all, p, at);
    Ok(())
}

/// Puts the arguments of a call, in handles, in place of what stood there. `room` is any memory for the handles of one parameter.
pub fn put_form(
    handed: &HandedTable,
    args: &[Vec<Argument>],
    room: &mut Vec<u64>,
    form: &mut LayerCall,
) -> Result<(), NoMemory>
    requires { length args.now ≤ 6 }
    ensures lists { OnOk result (form.new.args.lists ≡ map (map (handle_by (handle_in handed.now.handed))) (args_shown args.now)) }
    ensures marks { OnOk result (form.new.args.marks ≡ map (map is_unborn) (args_shown args.now)) }
    ensures cmd { form.new.cmd ≡ form.old.cmd }
    ensures asked { form.new.asked ≡ form.old.asked }
    ensures code { form.new.code ≡ form.old.code }
    ensures payload { form.new.payload ≡ form.old.payload }
    ensures handles_room { vec_capacity room.old ≤ vec_capacity room.new }
    ensures args_room { HasRoom form.new.args form.old.args.slots form.old.args.room }
    ensures succeeds { AreWithin (vec_capacity room.old) (args_shown args.now) → HasRoom form.old.args (length args.now) (sum_by (λ at. length at) (args_shown args.now)) → IsOk result }
{
    form.args.clear();
    for arg in args {
        push_arguments(handed, arg, room, &mut form.args)?;
    }
    Ok(())
}

/// Puts a call, in handles, in place of the one that stood there.
pub fn put_call(
    handed: &HandedTable,
    passed: Passed,
    args: &[Vec<Argument>],
    room: &mut Vec<u64>,
    form: &mut LayerCall,
) -> Result<(), NoMemory>
    requires { length args.now ≤ 6 }
    ensures call { OnOk result (call_content form.new ≡ form_by (handle_in handed.now.handed) (base_passed passed.entry) (args_shown args.now)) }
    ensures handles_room { vec_capacity room.old ≤ vec_capacity room.new }
    ensures form_room { KeepsForm (form_room form.old) (form_room form.new) }
    ensures succeeds { AreWithin (vec_capacity room.old) (args_shown args.now) → HasRoomFor form.old (form_by (handle_in handed.now.handed) (base_passed passed.entry) (args_shown args.now)) → IsOk result }
{
    put_form(handed, args, room, form)?;
    form.payload.clear();
    form.payload.reserve(passed.payload.len())?;
    form.payload.extend_from_slice(passed.payload).unwrap();
    form.cmd = passed.cmd;
    form.asked = passed.asked;
    form.code = passed.code;
    Ok(())
}
