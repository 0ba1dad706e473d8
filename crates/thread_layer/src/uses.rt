// What an argument uses.
ghost use Rattle.std.specs.Prelude.{◌≡◌, ◌≤◌, ◌<◌, ◌+◌, ◌++◌, ◌∷◌, [], length, map, true, vec_capacity, IsOk, OnOk, Some};
ghost use Rattle.command_tables.specs.declared.types.Implied.TheVariants as imp;
ghost use Rattle.command_tables.specs.Table.{ParamSpec, seen_param};
ghost use Rattle.object_model.specs.Objects.{is_in, object_of};
ghost use Rattle.object_model.specs.Uses.{implied_objects, use_of, uses_at};
ghost use Rattle.thread_layer.specs.Kept.{use_seen};

use crate::object_use::ObjectUse;
use command_tables::{Implied, NoMemory, ObjectType, Param};
use object_model::{Argument, Object};
use object_records::{ObjectRecords, object_of};

// Which argument it is: its parameter and its place in it, from 0.
#[derive(Clone, Copy)]
pub(crate) struct ArgumentPlace {
    pub param: u8,
    pub index: u32,
}

fn list_owner(
    records: &ObjectRecords,
    object: Object,
    objects: &mut Vec<Object>,
) -> Result<(), NoMemory>
    ensures added { OnOk result (objects.new.items ≡ objects.old.items ++ implied_objects records.now.kept.births (is_in records.now.kept.living) imp.PoolOf object) }
    ensures succeeds { length objects.old.items + length (implied_objects records.now.kept.births (is_in records.now.kept.living) imp.PoolOf object) ≤ vec_capacity objects.old → IsOk result }
    ensures room { vec_capacity objects.old ≤ vec_capacity objects.new }
{
    if let Some(owner) = records.owner(object) {
        objects.push(owner)?;
    }
    Ok(())
}

// Lists what is written besides an object by this mark, in place of what was listed.
fn list_implied(
    records: &ObjectRecords,
    implied: Implied,
    object: Object,
    objects: &mut Vec<Object>,
) -> Result<(), NoMemory>
    ensures listed { OnOk result (objects.new.items ≡ implied_objects records.now.kept.births (is_in records.now.kept.living) implied object) }
    ensures succeeds { length (implied_objects records.now.kept.births (is_in records.now.kept.living) implied object) ≤ vec_capacity objects.old → IsOk result }
    ensures room { vec_capacity objects.old ≤ vec_capacity objects.new }
{
    objects.clear();
    match implied {
        Implied::None => Ok(()),
        Implied::PoolOf => list_owner(records, object, objects),
        Implied::QueuesOf => records.list_owned(ObjectType::Queue, object, objects),
        Implied::SetsOf => records.list_living(ObjectType::DescriptorSet, object, objects),
    }
}

fn add_use(
    at: ArgumentPlace,
    object: Object,
    write: bool,
    uses: &mut Vec<ObjectUse>,
) -> Result<(), NoMemory>
    ensures added { OnOk result (map use_seen uses.new.items ≡ map use_seen uses.old.items ++ use_of at.param at.index write object ∷ []) }
    ensures count { OnOk result (length uses.new.items ≡ length uses.old.items + 1) }
    ensures succeeds { length uses.old.items < vec_capacity uses.old → IsOk result }
    ensures room { vec_capacity uses.old ≤ vec_capacity uses.new }
{
    uses.push(ObjectUse {
        param: at.param,
        index: at.index,
        object,
        write,
    })?;
    Ok(())
}

// Each of these objects is written.
#[tactic(auto, using(crate::proofs::Gathered::written_more))]
fn add_writes(
    at: ArgumentPlace,
    objects: &[Object],
    uses: &mut Vec<ObjectUse>,
) -> Result<(), NoMemory>
    ensures added { OnOk result (map use_seen uses.new.items ≡ map use_seen uses.old.items ++ map (use_of at.param at.index true) objects.now) }
    ensures succeeds { length uses.old.items + length objects.now ≤ vec_capacity uses.old → IsOk result }
    ensures room { vec_capacity uses.old ≤ vec_capacity uses.new }
{
    for i in 0..objects.len() {
        add_use(at, objects[i], true, uses)?;
    }
    Ok(())
}

// Adds the uses of an argument that stands for this object.
fn add_object_uses(
    records: &ObjectRecords,
    at: ArgumentPlace,
    param: &Param,
    object: Object,
    implied: &mut Vec<Object>,
    uses: &mut Vec<ObjectUse>,
) -> Result<(), NoMemory>
    ensures added { OnOk result (map use_seen uses.new.items ≡ map use_seen uses.old.items ++ uses_at records.now.kept.births (is_in records.now.kept.living) at.param (seen_param param.now) at.index (Some object)) }
    ensures succeeds { length uses.old.items + length (uses_at records.now.kept.births (is_in records.now.kept.living) at.param (seen_param param.now) at.index (Some object)) ≤ vec_capacity uses.old → length (uses_at records.now.kept.births (is_in records.now.kept.living) at.param (seen_param param.now) at.index (Some object)) ≤ vec_capacity implied.old → IsOk result }
    ensures room { vec_capacity uses.old ≤ vec_capacity uses.new }
    ensures implied_room { vec_capacity implied.old ≤ vec_capacity implied.new }
{
    if !records.is_born(object) {
        return Ok(());
    }
    list_implied(records, param.implied, object, implied)?;
    add_use(at, object, param.sync, uses)?;
    add_writes(at, implied, uses)
}

/// Adds the uses of an argument. The list of implied objects is only room to work in.
pub(crate) fn add_uses(
    records: &ObjectRecords,
    at: ArgumentPlace,
    param: &Param,
    argument: Argument,
    implied: &mut Vec<Object>,
    uses: &mut Vec<ObjectUse>,
) -> Result<(), NoMemory>
    ensures added { OnOk result (map use_seen uses.new.items ≡ map use_seen uses.old.items ++ uses_at records.now.kept.births (is_in records.now.kept.living) at.param (seen_param param.now) at.index (object_of argument)) }
    ensures succeeds { length uses.old.items + length (uses_at records.now.kept.births (is_in records.now.kept.living) at.param (seen_param param.now) at.index (object_of argument)) ≤ vec_capacity uses.old → length (uses_at records.now.kept.births (is_in records.now.kept.living) at.param (seen_param param.now) at.index (object_of argument)) ≤ vec_capacity implied.old → IsOk result }
    ensures room { vec_capacity uses.old ≤ vec_capacity uses.new }
    ensures implied_room { vec_capacity implied.old ≤ vec_capacity implied.new }
{
    match object_of(argument) {
        None => Ok(()),
        Some(object) => add_object_uses(records, at, param, object, implied, uses),
    }
}
