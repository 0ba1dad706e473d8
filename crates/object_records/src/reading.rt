//! What stands in the places of a call, read by type, handle and mark.
ghost use Rattle.std.specs.Prelude.{◌≡◌, ◌<◌, length, map};
ghost use Rattle.command_tables.specs.Handles.{HasPlace, list_at};
ghost use Rattle.command_tables.specs.Table.{row_of, seen_param};
ghost use Rattle.object_model.specs.Objects.{first_in, object_of};
ghost use Rattle.layer_model.specs.Reading.{read_handle, read_params};
ghost use Rattle.object_records.specs.Shape.{HasParams, argument_in, arguments_of};

use command_tables::{HandleArgs, LayerCall, ObjectType, Param, row};
use object_model::{Argument, Object};

// What stands in a place.
fn read(ty: ObjectType, handle: u64, unborn: bool) -> Argument
    ensures { result ≡ read_handle ty handle unborn }
{
    if unborn {
        Argument::Unborn
    } else if handle == 0 {
        Argument::Null
    } else {
        Argument::The(Object { ty, number: handle })
    }
}

/// The object that an argument stands for: null and a name that isn't born yet stand for none.
pub fn object_of(argument: Argument) -> Option<Object>
    ensures { result ≡ object_of argument }
{
    match argument {
        Argument::Null | Argument::Unborn => None,
        Argument::The(object) => Some(object),
    }
}

// What stands in a place of these parameters.
#[tactic(auto, using(crate::proofs::Places::argument_read, crate::proofs::Places::marks_same))]
fn read_place(params: &[Param], args: &HandleArgs<6>, p: usize, k: usize) -> Argument
    requires shape { length args.now.lists ≡ length params.now }
    requires place { HasPlace args.now.lists p k }
    ensures { result ≡ argument_in (read_params (map seen_param params.now) args.now.lists args.now.marks) p k }
{
    let _count = args.len();
    read(params[p].ty, args.param(p)[k], args.unborn(p, k))
}

/// How many parameters a call has: as many as its row.
#[tactic(auto, using(crate::proofs::Places::length_params))]
pub fn count_parameters(call: &LayerCall) -> usize
    requires { HasParams call.now }
    ensures read { result ≡ length (arguments_of call.now) }
    ensures row { result ≡ length (row_of call.now.cmd).params }
{
    call.args.len()
}

/// How many places a parameter has, both counted from 0; none where there is no such parameter.
#[tactic(auto, using(crate::proofs::Places::length_places, crate::proofs::Places::no_places))]
pub fn count_places(call: &LayerCall, p: usize) -> usize
    requires { HasParams call.now }
    ensures { result ≡ length (list_at (arguments_of call.now) p) }
{
    if p < call.args.len() {
        call.args.param(p).len()
    } else {
        0
    }
}

/// What stands in a place of a parameter, both counted from 0.
pub fn argument_at(call: &LayerCall, p: usize, k: usize) -> Argument
    requires shape { HasParams call.now }
    requires place { k < length (list_at (arguments_of call.now) p) }
    ensures { result ≡ argument_in (arguments_of call.now) p k }
{
    let _count = call.args.len();
    read_place(row(call.cmd).params, &call.args, p, k)
}

/// The object for which the first argument of a parameter stands, if there is one.
#[tactic(auto, using(crate::proofs::Places::none_first, crate::proofs::Places::some_first))]
pub fn first_argument(call: &LayerCall, p: usize) -> Option<Object>
    requires { HasParams call.now }
    ensures { result ≡ first_in (arguments_of call.now) p }
{
    if count_places(call, p) == 0 {
        None
    } else {
        object_of(argument_at(call, p, 0))
    }
}
