// What an object owns, dead or not. Its queues are found without what else it owns.
ghost use Rattle.std.specs.Prelude.{◌≡◌, ◌≤◌, ◌<◌, ◌+◌, ◌++◌, length, reverse, vec_capacity, IsOk, OnOk};
ghost use Rattle.command_tables.specs.declared.types.ObjectType.TheVariants as ty;
ghost use Rattle.object_model.specs.Uses.{owned_in};
ghost use Rattle.object_records.specs.Links.{owned_of_type};
ghost use Rattle.object_records.specs.Records.{births_kept};

use crate::look_ups::{list_among_all, list_linked, reverse_from};
use crate::record_table::RecordTable;
use command_tables::{NoMemory, ObjectType};
use object_model::Object;

// The queues whose owner stands at a place are added, the latest first. Nothing else that it owns is looked at.
fn add_queues(table: &RecordTable, place: usize, out: &mut Vec<Object>) -> Result<(), NoMemory>
    requires { place < length table.now.records }
    ensures added { OnOk result (out.new.items ≡ out.old.items ++ reverse (owned_of_type table.now.records ty.Queue place)) }
    ensures succeeds { length out.old.items + length (owned_of_type table.now.records ty.Queue place) ≤ vec_capacity out.old → IsOk result }
    ensures room { vec_capacity out.old ≤ vec_capacity out.new }
{
    let mut link = table.last_queue(place);
    while link > 0 {
        let at = link - 1;
        out.push(table.record(at).object)?;
        link = table.previous_queue(at);
    }
    Ok(())
}

// The queues whose owner stands at a place are added, in order of birth.
fn list_queues(table: &RecordTable, place: usize, out: &mut Vec<Object>) -> Result<(), NoMemory>
    requires { place < length table.now.records }
    ensures added { OnOk result (out.new.items ≡ out.old.items ++ owned_of_type table.now.records ty.Queue place) }
    ensures succeeds { length out.old.items + length (owned_of_type table.now.records ty.Queue place) ≤ vec_capacity out.old → IsOk result }
    ensures room { vec_capacity out.old ≤ vec_capacity out.new }
{
    let start = out.len();
    add_queues(table, place, out)?;
    reverse_from(out.as_mut_slice(), start);
    Ok(())
}

// The objects of a type whose owner stands at a place are added, in order of birth. Queues have links of their own.
fn list_there(
    table: &RecordTable,
    ty: ObjectType,
    place: usize,
    out: &mut Vec<Object>,
) -> Result<(), NoMemory>
    requires { place < length table.now.records }
    ensures added { OnOk result (out.new.items ≡ out.old.items ++ owned_of_type table.now.records ty place) }
    ensures succeeds { length out.old.items + length (owned_of_type table.now.records ty place) ≤ vec_capacity out.old → IsOk result }
    ensures room { vec_capacity out.old ≤ vec_capacity out.new }
{
    match ty {
        ObjectType::Queue => list_queues(table, place, out),
        _ => list_linked(table, ty, place, out),
    }
}

// The objects of a type whose owner is this object are added, in order of birth. Only owners that weren't born have no links.
#[tactic(auto, using(crate::proofs::Walked::owned_linked, crate::proofs::Kept::place_within))]
pub(crate) fn list_owned(
    table: &RecordTable,
    ty: ObjectType,
    owner: Object,
    out: &mut Vec<Object>,
) -> Result<(), NoMemory>
    ensures added { OnOk result (out.new.items ≡ out.old.items ++ owned_in (births_kept table.now.records) ty owner) }
    ensures succeeds { length out.old.items + length (owned_in (births_kept table.now.records) ty owner) ≤ vec_capacity out.old → IsOk result }
    ensures room { vec_capacity out.old ≤ vec_capacity out.new }
{
    if table.has_strays() {
        return list_among_all(table, ty, owner, out);
    }
    match table.place_of(owner) {
        None => Ok(()),
        Some(place) => list_there(table, ty, place, out),
    }
}
