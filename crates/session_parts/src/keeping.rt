// What a session keeps of the results that are born.
ghost use Rattle.std.specs.Prelude.{◌≡◌, ◌≤◌, ◌+◌, ◌*◌, ◌++◌, ◌∷◌, [], length, map, filter, IsOk, OnOk};
ghost use Rattle.trace_format.specs.declared.event.Name.{Name};
ghost use Rattle.object_model.specs.Keys.{key_payload};
ghost use Rattle.command_tables.specs.Table.{row_of};
ghost use Rattle.object_model.specs.History.{births_given};
ghost use Rattle.replay_model.specs.Past.{is_new, named_of, object_in, objects_of, retrieval, retrieved_by};
ghost use Rattle.session_tables.specs.Lined.{AreAdded, owners_made};
ghost use Rattle.session_tables.specs.Shown.{args_shown};
ghost use Rattle.session_parts.specs.Opened.{returning_shown};

use crate::bearing::effect_of;
use crate::results::key_of;
use crate::returning_call::ReturningCall;
use command_tables::Effect;
use object_model::Object;
use replay_model::{Born, Named};
use session_tables::{BirthTable, NamedTable, ObjectTable, RetrievedTable, owner};
use std::alloc::{AllocError, Global};

// Keeps the names that stand for objects.
fn keep_names(names: &mut NamedTable, made: &[Born]) -> Result<(), AllocError>
    ensures names { OnOk result ((q : Name) → object_in names.new.names q ≡ object_in (names.old.names ++ map named_of made.now) q) }
    ensures count { OnOk result (names.new.count ≡ names.old.count + length made.now) }
    ensures succeeds { length made.now ≤ names.old.spare → IsOk result }
    ensures spare { names.old.spare ≤ names.new.spare + length made.now }
{
    for b in made {
        names.push(Named {
            name: b.name,
            object: b.object,
        })?;
    }
    Ok(())
}

// Keeps the object of a result, if it is born by it.
fn keep_new(
    table: &mut RetrievedTable,
    births: &BirthTable,
    call: ReturningCall<'_>,
    owner: Option<Object>,
    born: Born,
) -> Result<(), AllocError>
    ensures kept { OnOk result (table.new.kept ≡ table.old.kept ++ map (retrieval (returning_shown call.entry) owner) (filter (is_new births.now.births) (born ∷ []))) }
    ensures succeeds { 1 ≤ table.old.spare → length (key_payload call.entry.cmd call.entry.payload.now) ≤ table.old.bytes → IsOk result }
    ensures spare { table.old.spare ≤ table.new.spare + 1 }
    ensures bytes { table.old.bytes ≤ table.new.bytes + length (key_payload call.entry.cmd call.entry.payload.now) }
{
    if births.is_born(born.object) {
        return Ok(());
    }
    table.push(owner, born.place, key_of(call), born.object)?;
    Ok(())
}

// Keeps those that are born by these results.
fn keep(
    table: &mut RetrievedTable,
    births: &BirthTable,
    call: ReturningCall<'_>,
    owner: Option<Object>,
    made: &[Born],
) -> Result<(), AllocError>
    ensures kept { OnOk result (table.new.kept ≡ table.old.kept ++ map (retrieval (returning_shown call.entry) owner) (filter (is_new births.now.births) made.now)) }
    ensures succeeds { length made.now ≤ table.old.spare → length made.now * length (key_payload call.entry.cmd call.entry.payload.now) ≤ table.old.bytes → IsOk result }
    ensures spare { table.old.spare ≤ table.new.spare + length made.now }
    ensures bytes { table.old.bytes ≤ table.new.bytes + length made.now * length (key_payload call.entry.cmd call.entry.payload.now) }
{
    for b in made {
        keep_new(table, births, call, owner, *b)?;
    }
    Ok(())
}

// Keeps the objects that a call retrieves first.
fn keep_retrieved(
    table: &mut RetrievedTable,
    births: &BirthTable,
    call: ReturningCall<'_>,
    made: &[Born],
) -> Result<(), AllocError>
    ensures kept { OnOk result (table.new.kept ≡ table.old.kept ++ retrieved_by births.now.births (returning_shown call.entry) made.now) }
    ensures succeeds { length made.now ≤ table.old.spare → length made.now * length (key_payload call.entry.cmd call.entry.payload.now) ≤ table.old.bytes → IsOk result }
    ensures spare { table.old.spare ≤ table.new.spare + length made.now }
    ensures bytes { table.old.bytes ≤ table.new.bytes + length made.now * length (key_payload call.entry.cmd call.entry.payload.now) }
{
    let effect = effect_of(call.cmd);
    match effect {
        Effect::Retrieve { .. } => {
            let owner = owner(births, call.args, effect);
            keep(table, births, call, owner, made)
        }
        _ => Ok(()),
    }
}

/// What a return adds to names, objects and retrieved objects.
pub(crate) fn settle(
    alloc: Global,
    call: ReturningCall<'_>,
    born: &[Born],
    names: &mut NamedTable,
    objects: &mut ObjectTable,
    retrieved: &mut RetrievedTable,
) -> Result<(), AllocError>
    ensures names { OnOk result ((q : Name) → object_in names.new.names q ≡ object_in (names.old.names ++ map named_of born.now) q) }
    ensures count { OnOk result (names.new.count ≡ names.old.count + length born.now) }
    ensures births { OnOk result (AreAdded objects.old.births (births_given objects.old.births (args_shown call.entry.args.now) (row_of call.entry.cmd).effect (objects_of born.now)) objects.new.births) }
    ensures retrieved { OnOk result (retrieved.new.kept ≡ retrieved.old.kept ++ retrieved_by objects.old.births (returning_shown call.entry) born.now) }
    ensures succeeds { length (owners_made objects.old.births (args_shown call.entry.args.now) (row_of call.entry.cmd).effect) ≤ 3 → 3 ≤ objects.old.owners → length born.now ≤ names.old.spare → length born.now ≤ objects.old.spare → 3 * length born.now ≤ objects.old.links →
        length born.now ≤ retrieved.old.spare → length born.now * length (key_payload call.entry.cmd call.entry.payload.now) ≤ retrieved.old.bytes → IsOk result }
    ensures names_room { names.old.spare ≤ names.new.spare + length born.now }
    ensures births_room { objects.old.spare ≤ objects.new.spare + length born.now }
    ensures links { length (owners_made objects.old.births (args_shown call.entry.args.now) (row_of call.entry.cmd).effect) ≤ 3 → objects.old.links ≤ objects.new.links + 3 * length born.now }
    ensures owners { objects.old.owners ≤ objects.new.owners }
    ensures retrieved_room { retrieved.old.spare ≤ retrieved.new.spare + length born.now }
    ensures bytes { retrieved.old.bytes ≤ retrieved.new.bytes + length born.now * length (key_payload call.entry.cmd call.entry.payload.now) }
{
    keep_names(names, born)?;
    keep_retrieved(retrieved, objects.births(), call, born)?;
    objects.bear(alloc, call.args, effect_of(call.cmd), born)?;
    Ok(())
}
