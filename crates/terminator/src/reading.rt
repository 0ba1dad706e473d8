//! What a call says of its objects, read from it as it stood above the terminator.
ghost use Rattle.std.specs.Prelude.{◌≡◌, ◌<◌, map, length, option_and_then, slice_get};
ghost use Rattle.command_tables.specs.Calls.{call_content};
ghost use Rattle.command_tables.specs.Handles.{list_at};
ghost use Rattle.command_tables.specs.Table.{row_of, seen_param};
ghost use Rattle.object_model.specs.Keys.{key_payload};
ghost use Rattle.object_model.specs.Objects.{first_in, object_of};
ghost use Rattle.layer_model.specs.Parts.{key_read, owner_read};
ghost use Rattle.layer_model.specs.Reading.{read_call, read_handle, read_handles, read_params};
ghost use Rattle.terminator.specs.Shown.{key_asked, key_named};

use crate::key::RetrievedKey;
use command_tables::{CommandId, Effect, HandleArgs, LayerCall, ObjectType, OwnerOf, Param, row};
use object_model::{Argument, Object};

// What stands in a place.
fn read(ty: ObjectType, handle: u64, unborn: bool) -> Argument
    ensures { result ≡ read_handle ty handle unborn }
{
    if unborn {
        Argument::Unborn
    } else if handle == 0 {
        Argument::Null
    } else {
        Argument::The(Object { ty, number: handle })
    }
}

// The pair of type and handle that an argument stands for.
fn pair_of(argument: Argument) -> Option<Object>
    ensures { result ≡ object_of argument }
{
    match argument {
        Argument::Null | Argument::Unborn => None,
        Argument::The(object) => Some(object),
    }
}

// The pair for which the first argument of a parameter stands.
#[tactic(auto, using(crate::proofs::FirstRead::none_read, crate::proofs::FirstRead::first_read))]
fn pair_at(args: &HandleArgs<6>, ty: ObjectType, p: usize) -> Option<Object>
    requires { p < length args.now.lists }
    ensures { result ≡ option_and_then object_of (slice_get (read_handles ty (list_at args.now.lists p) (list_at args.now.marks p)) 0) }
{
    let _count = args.len();
    let handles = args.param(p);
    if handles.is_empty() {
        return None;
    }
    pair_of(read(ty, handles[0], args.unborn(p, 0)))
}

// The pair that is the first of a parameter.
fn first_of(params: &[Param], args: &HandleArgs<6>, p: usize) -> Option<Object>
    ensures { result ≡ first_in (read_params (map seen_param params.now) args.now.lists args.now.marks) p }
{
    let count = args.len();
    if params.len() <= p {
        return None;
    }
    if count <= p {
        return None;
    }
    pair_at(args, params[p].ty, p)
}

/// The object that is the first argument of a call, if there is one.
#[tactic(auto, using(crate::proofs::Keys::first_is))]
pub fn first_object(call: &LayerCall) -> Option<Object>
    ensures { result ≡ first_in (read_call (call_content call.now)) 0 }
{
    first_of(row(call.cmd).params, &call.args, 0)
}

// The owner that an effect names.
fn named_owner(params: &[Param], args: &HandleArgs<6>, owner: OwnerOf) -> Option<Object>
    ensures { result ≡ owner_read (read_params (map seen_param params.now) args.now.lists args.now.marks) owner }
{
    match owner {
        OwnerOf::Param(p) => first_of(params, args, p as usize),
        _ => None,
    }
}

// The payload as far as it is part of a key.
#[tactic(auto, unfolding(command_tables::specs::Tests::same_command))]
fn key_payload(cmd: CommandId, payload: &[u8]) -> &[u8]
    ensures { result.now ≡ key_payload cmd payload.now }
{
    if cmd == CommandId::GetDeviceQueue {
        payload
    } else {
        &[]
    }
}

// By what an effect retrieves, but for the place in the answer; none where it retrieves nothing.
fn named_key<'a>(
    params: &[Param],
    args: &HandleArgs<6>,
    effect: Effect,
    payload: &'a [u8],
) -> Option<RetrievedKey<'a>>
    ensures { key_asked result ≡ key_named payload.now (read_params (map seen_param params.now) args.now.lists args.now.marks) effect }
{
    match effect {
        Effect::Retrieve { ty, owner, .. } => Some(RetrievedKey {
            owner: named_owner(params, args, owner),
            ty,
            place: 0,
            payload,
        }),
        _ => None,
    }
}

/// By what a call retrieves, but for the place in the answer; none where it retrieves nothing.
#[tactic(auto, using(crate::proofs::Keys::key_is))]
pub fn key_of(call: &LayerCall) -> Option<RetrievedKey<'_>>
    ensures { key_asked result ≡ key_read call.now.cmd call.now.payload.items (read_call (call_content call.now)) (row_of call.now.cmd).effect }
{
    let row = row(call.cmd);
    let payload = key_payload(call.cmd, &call.payload);
    named_key(row.params, &call.args, row.effect, payload)
}
