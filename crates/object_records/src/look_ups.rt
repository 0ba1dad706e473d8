// Looking into the records of what was born.
ghost use Rattle.std.specs.Prelude.{◌≡◌, ◌≤◌, ◌<◌, ◌+◌, ◌++◌, Some, false, drop, find, length, map, reverse, slice_get, take, vec_capacity, IsOk, OnOk};
ghost use Rattle.std.specs.Option.{option_map_or};
ghost use Rattle.object_model.specs.Objects.{are_same, is_in, same};
ghost use Rattle.object_model.specs.History.{born_in, children_in, created_in, device_in, owner_in, owners_in};
ghost use Rattle.object_model.specs.Uses.{owned_in};
ghost use Rattle.command_tables.specs.Tests.{same_type};
ghost use Rattle.object_records.specs.Links.{alone_if, owned_of_type};
ghost use Rattle.object_records.specs.Records.{births_kept, is_child, is_device, line_kept, living_kept, owned_at};
ghost use Rattle.object_records.specs.Table.{AreOnce, AreOwnersBefore, before_owned, objects_kept, record_in};

use crate::kept_owner::KeptOwner;
use crate::record::ObjectRecord;
use crate::record_table::RecordTable;
use command_tables::{NoMemory, ObjectType};
use object_model::Object;

#[tactic(auto, unfolding(command_tables::specs::Tests::same_type))]
pub(crate) fn is_same(a: Object, b: Object) -> bool
    ensures { result ≡ same a b }
{
    a == b
}

#[tactic(auto, unfolding(command_tables::specs::Tests::same_type))]
fn is_type(a: ObjectType, b: ObjectType) -> bool
    ensures { result ≡ same_type a b }
{
    a == b
}

fn is_device(object: Object) -> bool
    ensures { result ≡ is_device object }
{
    is_type(object.ty, ObjectType::Device)
}

// The record of an object.
#[tactic(auto, using(crate::proofs::Kept::place_within, crate::proofs::Kept::record_found, crate::proofs::Kept::no_record))]
pub(crate) fn record_of(table: &RecordTable, object: Object) -> Option<ObjectRecord>
    ensures found { result ≡ record_in table.now.records object }
    ensures owners { AreOwnersBefore 0 table.now.records }
    ensures once { AreOnce (objects_kept table.now.records) }
{
    match table.place_of(object) {
        None => None,
        Some(place) => Some(table.record(place)),
    }
}

#[tactic(auto, using(crate::proofs::Kept::born_found))]
pub(crate) fn is_born(table: &RecordTable, object: Object) -> bool
    ensures { result ≡ born_in (births_kept table.now.records) object }
{
    record_of(table, object).is_some()
}

#[tactic(auto, using(crate::proofs::Kept::lives_found))]
pub(crate) fn is_alive(table: &RecordTable, object: Object) -> bool
    ensures { result ≡ is_in (living_kept table.now.records) object }
{
    match record_of(table, object) {
        None => false,
        Some(record) => record.lives,
    }
}

#[tactic(auto, using(crate::proofs::Kept::created_found))]
pub(crate) fn is_created(table: &RecordTable, object: Object) -> bool
    ensures { result ≡ created_in (births_kept table.now.records) object }
{
    match record_of(table, object) {
        None => false,
        Some(record) => record.is_created,
    }
}

// Where the owner of an object stands.
#[tactic(auto, using(crate::proofs::Kept::owners_found, crate::proofs::Kept::owner_within))]
pub(crate) fn kept_owner_of(table: &RecordTable, object: Object) -> KeptOwner
    ensures line { line_kept (births_kept table.now.records) result ≡ owners_in (births_kept table.now.records) object }
    ensures within { before_owned result ≤ length table.now.records }
{
    match record_of(table, object) {
        None => KeptOwner::Nobody,
        Some(record) => record.owner,
    }
}

// The object of an owner.
#[tactic(auto, using(crate::proofs::Kept::first_here))]
fn owner_object(table: &RecordTable, owner: KeptOwner) -> Option<Object>
    requires { before_owned owner ≤ length table.now.records }
    ensures { result ≡ slice_get (line_kept (births_kept table.now.records) owner) 0 }
{
    match owner {
        KeptOwner::Nobody => None,
        KeptOwner::At(place) => Some(table.record(place).object),
        KeptOwner::Unborn(object) => Some(object),
    }
}

pub(crate) fn owner_of(table: &RecordTable, object: Object) -> Option<Object>
    ensures { result ≡ owner_in (births_kept table.now.records) object }
{
    owner_object(table, kept_owner_of(table, object))
}

// Whether an object is this owner, its owner, and so on.
#[tactic(auto, using(crate::proofs::Kept::owner_below))]
fn has_owner(table: &RecordTable, owner: KeptOwner, object: Object) -> bool
    requires { before_owned owner ≤ length table.now.records }
    ensures { result ≡ is_in (line_kept (births_kept table.now.records) owner) object }
{
    match owner {
        KeptOwner::Nobody => false,
        KeptOwner::Unborn(other) => is_same(other, object),
        KeptOwner::At(place) => {
            let kept = table.record(place);
            is_same(kept.object, object) || has_owner(table, kept.owner, object)
        }
    }
}

// Whether an object is owned by another at any depth.
pub(crate) fn is_owned(table: &RecordTable, object: Object, owner: Object) -> bool
    ensures { result ≡ is_in (owners_in (births_kept table.now.records) object) owner }
{
    has_owner(table, kept_owner_of(table, object), owner)
}

// The device among this owner, its owner, and so on.
#[tactic(auto, using(crate::proofs::Kept::owner_below))]
fn device_above(table: &RecordTable, owner: KeptOwner) -> Option<Object>
    requires { before_owned owner ≤ length table.now.records }
    ensures { result ≡ find is_device (line_kept (births_kept table.now.records) owner) }
{
    match owner {
        KeptOwner::Nobody => None,
        KeptOwner::Unborn(object) => {
            if is_device(object) {
                return Some(object);
            }
            None
        }
        KeptOwner::At(place) => {
            let kept = table.record(place);
            if is_device(kept.object) {
                return Some(kept.object);
            }
            device_above(table, kept.owner)
        }
    }
}

// The device: the object itself, or the one among its owners.
pub(crate) fn device_of(table: &RecordTable, object: Object) -> Option<Object>
    ensures { result ≡ device_in (births_kept table.now.records) object }
{
    if is_device(object) {
        return Some(object);
    }
    device_above(table, kept_owner_of(table, object))
}

// Whether this owner is an object.
fn is_owner(table: &RecordTable, owner: KeptOwner, object: Object) -> bool
    requires { before_owned owner ≤ length table.now.records }
    ensures { result ≡ are_same (slice_get (line_kept (births_kept table.now.records) owner) 0) (Some object) }
{
    match owner_object(table, owner) {
        None => false,
        Some(owner) => is_same(owner, object),
    }
}

// Whether the record at a place counts as a child of an object.
#[tactic(auto, using(crate::proofs::Kept::owner_low))]
fn is_child_at(table: &RecordTable, place: usize, object: Object) -> bool
    requires { place < length table.now.records }
    ensures { result ≡ option_map_or (is_child (is_in (living_kept table.now.records)) object) (slice_get (births_kept table.now.records) place) false }
{
    let kept = table.record(place);
    if !kept.is_created {
        return false;
    }
    if !kept.lives {
        return false;
    }
    is_owner(table, kept.owner, object)
}

// How many created objects live and are owned by this one, counted from record to record.
#[tactic(auto, using(crate::proofs::Born::children_more, crate::proofs::Kept::births_all))]
fn count_all_children(table: &RecordTable, object: Object) -> usize
    ensures { result ≡ length (children_in (births_kept table.now.records) (is_in (living_kept table.now.records)) object) }
{
    let mut count: usize = 0;
    for i in 0..table.len() {
        if is_child_at(table, i, object) {
            count += 1;
        }
    }
    count
}

// How many created objects live and are owned by this one. Its record counts them; only owners that weren't born count at no record.
#[tactic(auto, using(crate::proofs::Owned::children_counted, crate::proofs::Owned::no_children, crate::proofs::Kept::place_within))]
pub(crate) fn count_children(table: &RecordTable, object: Object) -> usize
    ensures { result ≡ length (children_in (births_kept table.now.records) (is_in (living_kept table.now.records)) object) }
{
    if table.has_strays() {
        return count_all_children(table, object);
    }
    match table.place_of(object) {
        None => 0,
        Some(place) => table.count_children(place),
    }
}

// The object of the record at a place is noted where it has this type and owner.
#[tactic(auto, using(crate::proofs::Kept::owner_low))]
pub(crate) fn note_owned(
    table: &RecordTable,
    place: usize,
    ty: ObjectType,
    owner: Object,
    out: &mut Vec<Object>,
) -> Result<(), NoMemory>
    requires { place < length table.now.records }
    ensures added { OnOk result (out.new.items ≡ out.old.items ++ owned_at (births_kept table.now.records) ty owner place) }
    ensures succeeds { length out.old.items + length (owned_at (births_kept table.now.records) ty owner place) ≤ vec_capacity out.old → IsOk result }
    ensures room { vec_capacity out.old ≤ vec_capacity out.new }
{
    let kept = table.record(place);
    if !is_type(kept.object.ty, ty) {
        return Ok(());
    }
    if !is_owner(table, kept.owner, owner) {
        return Ok(());
    }
    Ok(out.push(kept.object)?)
}

// The objects of a type whose owner is this object are added, looked for from record to record.
#[tactic(auto, using(crate::proofs::Born::owned_more, crate::proofs::Kept::births_all))]
pub(crate) fn list_among_all(
    table: &RecordTable,
    ty: ObjectType,
    owner: Object,
    out: &mut Vec<Object>,
) -> Result<(), NoMemory>
    ensures added { OnOk result (out.new.items ≡ out.old.items ++ owned_in (births_kept table.now.records) ty owner) }
    ensures succeeds { length out.old.items + length (owned_in (births_kept table.now.records) ty owner) ≤ vec_capacity out.old → IsOk result }
    ensures room { vec_capacity out.old ≤ vec_capacity out.new }
{
    for i in 0..table.len() {
        note_owned(table, i, ty, owner, out)?;
    }
    Ok(())
}

// An object is noted where it has this type.
pub(crate) fn note_of_type(
    object: Object,
    ty: ObjectType,
    out: &mut Vec<Object>,
) -> Result<(), NoMemory>
    ensures added { OnOk result (out.new.items ≡ out.old.items ++ alone_if ty object) }
    ensures succeeds { length out.old.items + length (alone_if ty object) ≤ vec_capacity out.old → IsOk result }
    ensures room { vec_capacity out.old ≤ vec_capacity out.new }
{
    if is_type(object.ty, ty) {
        out.push(object)?;
    }
    Ok(())
}

// The objects of a type whose owner stands at a place are added, the latest first.
fn add_linked(
    table: &RecordTable,
    ty: ObjectType,
    place: usize,
    out: &mut Vec<Object>,
) -> Result<(), NoMemory>
    requires { place < length table.now.records }
    ensures added { OnOk result (out.new.items ≡ out.old.items ++ reverse (owned_of_type table.now.records ty place)) }
    ensures succeeds { length out.old.items + length (owned_of_type table.now.records ty place) ≤ vec_capacity out.old → IsOk result }
    ensures room { vec_capacity out.old ≤ vec_capacity out.new }
{
    let mut link = table.last_owned(place);
    while link > 0 {
        let at = link - 1;
        note_of_type(table.record(at).object, ty, out)?;
        link = table.previous(at);
    }
    Ok(())
}

// What stands from here on is turned round.
pub(crate) fn reverse_from(objects: &mut [Object], start: usize)
    requires { start ≤ length objects.old }
    ensures before { take start objects.new ≡ take start objects.old }
    ensures reversed { drop start objects.new ≡ reverse (drop start objects.old) }
{
    let end = objects.len();
    objects[start..end].reverse();
}

// The objects of a type whose owner stands at a place are added, in order of birth.
pub(crate) fn list_linked(
    table: &RecordTable,
    ty: ObjectType,
    place: usize,
    out: &mut Vec<Object>,
) -> Result<(), NoMemory>
    requires { place < length table.now.records }
    ensures added { OnOk result (out.new.items ≡ out.old.items ++ owned_of_type table.now.records ty place) }
    ensures succeeds { length out.old.items + length (owned_of_type table.now.records ty place) ≤ vec_capacity out.old → IsOk result }
    ensures room { vec_capacity out.old ≤ vec_capacity out.new }
{
    let start = out.len();
    add_linked(table, ty, place, out)?;
    reverse_from(out.as_mut_slice(), start);
    Ok(())
}
