// What an object owns that lives.
ghost use Rattle.std.specs.Prelude.{◌≡◌, ◌≤◌, ◌<◌, ◌+◌, ◌++◌, [], filter, if◌then◌else◌, length, reverse, vec_capacity, IsOk, OnOk};
ghost use Rattle.object_model.specs.Objects.{is_in};
ghost use Rattle.object_model.specs.Uses.{owned_in};
ghost use Rattle.object_records.specs.Links.{alone_if, owned_of_type};
ghost use Rattle.object_records.specs.Records.{births_kept, living_kept, owned_at};

use crate::look_ups::{note_of_type, note_owned, reverse_from};
use crate::record::ObjectRecord;
use crate::record_table::RecordTable;
use command_tables::{NoMemory, ObjectType};
use object_model::Object;

// The object of the record at a place is noted where it lives and has this type and owner.
fn note_living_owned(
    table: &RecordTable,
    place: usize,
    ty: ObjectType,
    owner: Object,
    out: &mut Vec<Object>,
) -> Result<(), NoMemory>
    requires { place < length table.now.records }
    ensures added { OnOk result (out.new.items ≡ out.old.items ++ filter (λ o. is_in (living_kept table.now.records) o) (owned_at (births_kept table.now.records) ty owner place)) }
    ensures succeeds { length out.old.items + length (filter (λ o. is_in (living_kept table.now.records) o) (owned_at (births_kept table.now.records) ty owner place)) ≤ vec_capacity out.old → IsOk result }
    ensures room { vec_capacity out.old ≤ vec_capacity out.new }
{
    let kept = table.record(place);
    if !kept.lives {
        return Ok(());
    }
    note_owned(table, place, ty, owner, out)?;
    Ok(())
}

// The living objects of a type whose owner is this object are added, looked for from record to record.
#[tactic(auto, using(crate::proofs::Listing::living_more))]
fn list_among_all(
    table: &RecordTable,
    ty: ObjectType,
    owner: Object,
    out: &mut Vec<Object>,
) -> Result<(), NoMemory>
    ensures added { OnOk result (out.new.items ≡ out.old.items ++ filter (λ o. is_in (living_kept table.now.records) o) (owned_in (births_kept table.now.records) ty owner)) }
    ensures succeeds { length out.old.items + length (filter (λ o. is_in (living_kept table.now.records) o) (owned_in (births_kept table.now.records) ty owner)) ≤ vec_capacity out.old → IsOk result }
    ensures room { vec_capacity out.old ≤ vec_capacity out.new }
{
    for i in 0..table.len() {
        note_living_owned(table, i, ty, owner, out)?;
    }
    Ok(())
}

// The object of a record is noted where it lives and has this type.
fn note_living(kept: ObjectRecord, ty: ObjectType, out: &mut Vec<Object>) -> Result<(), NoMemory>
    ensures added { OnOk result (out.new.items ≡ out.old.items ++ (if kept.lives then alone_if ty kept.object else [])) }
    ensures succeeds { length out.old.items + length (if kept.lives then alone_if ty kept.object else []) ≤ vec_capacity out.old → IsOk result }
    ensures room { vec_capacity out.old ≤ vec_capacity out.new }
{
    if kept.lives {
        note_of_type(kept.object, ty, out)?;
    }
    Ok(())
}

// The living objects of a type whose owner stands at a place are added, the latest first. What earlier ends pass over is dead.
fn add_linked(
    table: &RecordTable,
    ty: ObjectType,
    place: usize,
    out: &mut Vec<Object>,
) -> Result<(), NoMemory>
    requires { place < length table.now.records }
    ensures added { OnOk result (out.new.items ≡ out.old.items ++ reverse (filter (λ o. is_in (living_kept table.now.records) o) (owned_of_type table.now.records ty place))) }
    ensures succeeds { length out.old.items + length (filter (λ o. is_in (living_kept table.now.records) o) (owned_of_type table.now.records ty place)) ≤ vec_capacity out.old → IsOk result }
    ensures room { vec_capacity out.old ≤ vec_capacity out.new }
{
    let passed = table.passed(place);
    let mut link = table.last_owned(place);
    while link > passed {
        let at = link - 1;
        note_living(table.record(at), ty, out)?;
        link = table.previous(at);
    }
    Ok(())
}

// The living objects of a type whose owner stands at a place are added, in order of birth.
fn list_linked(
    table: &RecordTable,
    ty: ObjectType,
    place: usize,
    out: &mut Vec<Object>,
) -> Result<(), NoMemory>
    requires { place < length table.now.records }
    ensures added { OnOk result (out.new.items ≡ out.old.items ++ filter (λ o. is_in (living_kept table.now.records) o) (owned_of_type table.now.records ty place)) }
    ensures succeeds { length out.old.items + length (filter (λ o. is_in (living_kept table.now.records) o) (owned_of_type table.now.records ty place)) ≤ vec_capacity out.old → IsOk result }
    ensures room { vec_capacity out.old ≤ vec_capacity out.new }
{
    let start = out.len();
    add_linked(table, ty, place, out)?;
    reverse_from(out.as_mut_slice(), start);
    Ok(())
}

// The living objects of a type whose owner is this object are added, in order of birth. Only owners that weren't born have no links.
#[tactic(auto, using(crate::proofs::Walked::owned_linked, crate::proofs::Kept::place_within))]
pub(crate) fn list_living(
    table: &RecordTable,
    ty: ObjectType,
    owner: Object,
    out: &mut Vec<Object>,
) -> Result<(), NoMemory>
    ensures added { OnOk result (out.new.items ≡ out.old.items ++ filter (λ o. is_in (living_kept table.now.records) o) (owned_in (births_kept table.now.records) ty owner)) }
    ensures succeeds { length out.old.items + length (filter (λ o. is_in (living_kept table.now.records) o) (owned_in (births_kept table.now.records) ty owner)) ≤ vec_capacity out.old → IsOk result }
    ensures room { vec_capacity out.old ≤ vec_capacity out.new }
{
    if table.has_strays() {
        return list_among_all(table, ty, owner, out);
    }
    match table.place_of(owner) {
        None => Ok(()),
        Some(place) => list_linked(table, ty, place, out),
    }
}
