// For which objects the results of a call stand.
ghost use Rattle.std.specs.Prelude.{◌≡◌, ◌≤◌, Some, [], length, map, vec_capacity, IsOk, OnOk, ℕ};
ghost use Rattle.std.specs.List.{enumerate_from};
ghost use Rattle.object_model.specs.Keys.{key_payload};
ghost use Rattle.object_model.specs.History.{born_in};
ghost use Rattle.replay_model.specs.Births.{bearable, born_with, made_by, own_object, retrieved_object};
ghost use Rattle.session_parts.specs.Opened.{returning_shown};

use crate::bearing::{bearable_results, effect_of, is_bearing};
use crate::returning_call::ReturningCall;
use command_tables::{CommandId, Effect, ObjectType};
use object_model::Object;
use replay_model::Born;
use session_tables::{BirthTable, ObjectTable, RetrievedKey, RetrievedTable, own_object, owner};
use std::alloc::AllocError;
use trace_format::Name;

/// The payload as far as it is part of a retrieved object's key.
#[tactic(auto, unfolding(command_tables::specs::Tests::same_command))]
pub(crate) fn key_of(call: ReturningCall<'_>) -> &[u8]
    ensures { result.now ≡ key_payload call.entry.cmd call.entry.payload.now }
{
    if call.cmd == CommandId::GetDeviceQueue {
        call.payload
    } else {
        &[]
    }
}

// The object that a call retrieved before, where it has an owner.
fn retrieved_of(
    table: &RetrievedTable,
    call: ReturningCall<'_>,
    owner: Object,
    ty: ObjectType,
    place: usize,
    name: Name,
) -> Object
    ensures { result ≡ retrieved_object table.now.kept (returning_shown call.entry) (Some owner) ty place name }
{
    let key = RetrievedKey {
        ty,
        owner,
        place,
        payload: key_of(call),
    };
    table.object_with(key).unwrap_or(own_object(ty, name))
}

fn retrieved(
    table: &RetrievedTable,
    call: ReturningCall<'_>,
    owner: Option<Object>,
    ty: ObjectType,
    place: usize,
    name: Name,
) -> Object
    ensures { result ≡ retrieved_object table.now.kept (returning_shown call.entry) owner ty place name }
{
    match owner {
        None => own_object(ty, name),
        Some(owner) => retrieved_of(table, call, owner, ty, place, name),
    }
}

fn put_created(ty: ObjectType, names: &[Name], all: &mut Vec<Born>) -> Result<(), AllocError>
    requires { all.old.items ≡ [] }
    ensures made { OnOk result (all.new.items ≡ map (λ (x : ℕ × Name). record { place = x.0; name = x.1; object = own_object ty x.1 }) (enumerate_from 0 names.now)) }
    ensures room { vec_capacity all.old ≤ vec_capacity all.new }
    ensures succeeds { length names.now ≤ vec_capacity all.old → IsOk result }
{
    for (k, name) in names.iter().enumerate() {
        all.push(Born {
            place: k,
            name: *name,
            object: own_object(ty, *name),
        })?;
    }
    Ok(())
}

fn put_retrieved(
    table: &RetrievedTable,
    call: ReturningCall<'_>,
    owner: Option<Object>,
    ty: ObjectType,
    names: &[Name],
    all: &mut Vec<Born>,
) -> Result<(), AllocError>
    requires { all.old.items ≡ [] }
    ensures made { OnOk result (all.new.items ≡ map (λ (x : ℕ × Name). record { place = x.0; name = x.1; object = retrieved_object table.now.kept (returning_shown call.entry) owner ty x.0 x.1 }) (enumerate_from 0 names.now)) }
    ensures room { vec_capacity all.old ≤ vec_capacity all.new }
    ensures succeeds { length names.now ≤ vec_capacity all.old → IsOk result }
{
    for (k, name) in names.iter().enumerate() {
        all.push(Born {
            place: k,
            name: *name,
            object: retrieved(table, call, owner, ty, k, *name),
        })?;
    }
    Ok(())
}

// What a call that bears its results makes.
fn put_results(
    births: &BirthTable,
    table: &RetrievedTable,
    drivers: u32,
    call: ReturningCall<'_>,
    all: &mut Vec<Born>,
) -> Result<(), AllocError>
    requires { all.old.items ≡ [] }
    ensures made { OnOk result (all.new.items ≡ born_with births.now.births table.now.kept (returning_shown call.entry) (bearable drivers (returning_shown call.entry))) }
    ensures room { vec_capacity all.old ≤ vec_capacity all.new }
    ensures succeeds { length call.entry.results.now ≤ vec_capacity all.old → IsOk result }
{
    let names = bearable_results(drivers, call);
    let effect = effect_of(call.cmd);
    match effect {
        Effect::Create { ty, .. } => put_created(ty, names, all),
        Effect::Retrieve { ty, .. } => {
            let owner = owner(births, call.args, effect);
            put_retrieved(table, call, owner, ty, names, all)
        }
        Effect::None | Effect::Destroy(_) | Effect::Free(_) | Effect::Reset(_) => Ok(()),
    }
}

/// Puts the results of a call that are born at its return in place of what stood there. Takes no memory where there is room for all results.
pub fn put_made(
    objects: &ObjectTable,
    table: &RetrievedTable,
    drivers: u32,
    call: ReturningCall<'_>,
    all: &mut Vec<Born>,
) -> Result<(), AllocError>
    ensures made { OnOk result (all.new.items ≡ made_by drivers objects.now.births (born_in objects.now.births) table.now.kept (returning_shown call.entry)) }
    ensures room { vec_capacity all.old ≤ vec_capacity all.new }
    ensures succeeds { length call.entry.results.now ≤ vec_capacity all.old → IsOk result }
{
    all.clear();
    if is_bearing(objects, call) {
        put_results(objects.births(), table, drivers, call, all)
    } else {
        Ok(())
    }
}
