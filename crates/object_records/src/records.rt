//! What a checking part keeps of the objects that it was told of.
ghost use Rattle.std.specs.Prelude.{◌≡◌, ◌≤◌, ◌+◌, ◌++◌, [], filter, length, map, vec_capacity, IfOk, IsOk, OnErr, OnOk};
ghost use Rattle.command_tables.specs.Table.{row_of};
ghost use Rattle.command_tables.specs.Tests.{same_type};
ghost use Rattle.object_model.specs.Objects.{is_in};
ghost use Rattle.object_model.specs.History.{born_in, births_of, children_in, created_in, device_in, owner_in, owners_given};
ghost use Rattle.object_model.specs.Uses.{owned_in};
ghost use Rattle.layer_model.specs.Parts.{life_leave, life_passed};
ghost use Rattle.layer_model.specs.Reading.{read_results};
ghost use Rattle.object_records.specs.Shape.{AreNewOnce, HasParams, arguments_of, made_of};

use crate::births::{add_births, owner_for};
use crate::ends::{end_objects, may_end};
use crate::record_table::RecordTable;
use crate::{living, look_ups, queues};
use command_tables::{Effect, LayerCall, NoMemory, ObjectType, OwnerOf, row};
use object_model::Object;
use std::alloc::Global;
use std::marker::Model;

/// The objects that were born, each known by its type and its handle, with their owners, and which of them live; the oldest first.
/// Contracts see besides how many further ones can be born with no further memory.
pub struct ObjectRecords {
    table: RecordTable,
    live_count: usize,
}

impl Drop for ObjectRecords {
    fn drop(self) {
        let ObjectRecords {
            table: _table,
            live_count: _live_count,
        } = self;
    }
}

impl Model for ObjectRecords {
    ghost use Rattle.std.specs.Prelude.{◌≡◌, length};
    ghost use Rattle.object_records.specs.Records.{KeptObjects, births_kept, living_kept};

    ghost Value = { KeptObjects };

    ghost view = { λ s. record { kept = record { births = births_kept s.table.records; living = living_kept s.table.records }; spare = s.table.spare } };

    ghost invariant = { λ s. s.live_count ≡ length (living_kept s.table.records) };
}

impl ObjectRecords {
    /// No object was born yet.
    pub fn new(alloc: Global) -> ObjectRecords
        ensures births { result.kept.births ≡ [] }
        ensures living { result.kept.living ≡ [] }
    {
        ObjectRecords {
            table: RecordTable::new(alloc),
            live_count: 0,
        }
    }

    /// Records of their own, the same. Of room nothing is said.
    pub fn copy(&self) -> Result<ObjectRecords, NoMemory>
        ensures { IfOk result (λ records. records.kept ≡ self.now.kept) }
    {
        Ok(ObjectRecords {
            table: self.table.copy()?,
            live_count: self.live_count,
        })
    }

    /// Makes room for the births of so many further objects. After `NoMemory` what is kept is as before, and no room is lost.
    pub fn reserve(&mut self, births: usize) -> Result<(), NoMemory>
        ensures kept { self.new.kept ≡ self.old.kept }
        ensures ok { OnOk result (births ≤ self.new.spare) }
        ensures spare { self.old.spare ≤ self.new.spare }
        ensures succeeds { births ≤ self.old.spare → IsOk result }
    {
        self.table.reserve(births)?;
        self.table.reserve_notes(births);
        Ok(())
    }

    /// Whether an object was born, by a creation or a retrieval.
    pub fn is_born(&self, object: Object) -> bool
        ensures { result ≡ born_in self.now.kept.births object }
    {
        look_ups::is_born(&self.table, object)
    }

    /// Whether an object was born and no call has ended it.
    pub fn is_alive(&self, object: Object) -> bool
        ensures { result ≡ is_in self.now.kept.living object }
    {
        look_ups::is_alive(&self.table, object)
    }

    /// Whether a call created an object.
    pub fn is_created(&self, object: Object) -> bool
        ensures { result ≡ created_in self.now.kept.births object }
    {
        look_ups::is_created(&self.table, object)
    }

    /// The owner of an object, if it has one.
    pub fn owner(&self, object: Object) -> Option<Object>
        ensures { result ≡ owner_in self.now.kept.births object }
    {
        look_ups::owner_of(&self.table, object)
    }

    /// The device of an object: the object itself if it is a device, else the device among its owners.
    pub fn device(&self, object: Object) -> Option<Object>
        ensures { result ≡ device_in self.now.kept.births object }
    {
        look_ups::device_of(&self.table, object)
    }

    /// How many created objects live whose owner is this object; what these own isn't counted.
    pub fn count_children(&self, object: Object) -> usize
        ensures { result ≡ length (children_in self.now.kept.births (is_in self.now.kept.living) object) }
    {
        look_ups::count_children(&self.table, object)
    }

    /// Adds the objects of a type whose owner is this object, dead ones too, to a list. For queues nothing else that it owns is
    /// looked at. Takes no memory where the list has room.
    pub fn list_owned(
        &self,
        ty: ObjectType,
        owner: Object,
        out: &mut Vec<Object>,
    ) -> Result<(), NoMemory>
        ensures added { OnOk result (out.new.items ≡ out.old.items ++ owned_in self.now.kept.births ty owner) }
        ensures succeeds { length out.old.items + length (owned_in self.now.kept.births ty owner) ≤ vec_capacity out.old → IsOk result }
        ensures room { vec_capacity out.old ≤ vec_capacity out.new }
    {
        queues::list_owned(&self.table, ty, owner, out)
    }

    /// Adds the living objects of a type whose owner is this object to a list. Those that were dead when a call last ended what the
    /// owner owns aren't looked at, if what it owns owned nothing. Takes no memory where the list has room.
    pub fn list_living(
        &self,
        ty: ObjectType,
        owner: Object,
        out: &mut Vec<Object>,
    ) -> Result<(), NoMemory>
        ensures added { OnOk result (out.new.items ≡ out.old.items ++ filter (λ o. is_in self.now.kept.living o) (owned_in self.now.kept.births ty owner)) }
        ensures succeeds { length out.old.items + length (filter (λ o. is_in self.now.kept.living o) (owned_in self.now.kept.births ty owner)) ≤ vec_capacity out.old → IsOk result }
        ensures room { vec_capacity out.old ≤ vec_capacity out.new }
    {
        living::list_living(&self.table, ty, owner, out)
    }

    /// How many objects live.
    pub fn live_count(&self) -> usize
        ensures { result ≡ length self.now.kept.living }
    {
        self.live_count
    }

    /// Takes in a call that isn't skipped: what it ends lives no longer. Takes no memory.
    pub fn end(&mut self, call: &LayerCall)
        requires { HasParams call.now }
        ensures kept { self.new.kept ≡ life_passed self.old.kept call.now.cmd (arguments_of call.now) }
        ensures spare { self.new.spare ≡ self.old.spare }
    {
        let effect = row(call.cmd).effect;
        if !may_end(effect) {
            return;
        }
        self.live_count -= end_objects(&mut self.table, effect, call);
    }

    // Takes in the results of a call that makes or gives objects of a type.
    fn bear_results(
        &mut self,
        is_created: bool,
        owner: OwnerOf,
        ty: ObjectType,
        call: &LayerCall,
        results: &[u64],
    ) -> Result<(), NoMemory>
        requires shape { HasParams call.now }
        requires once { AreNewOnce self.old.kept.births (read_results ty results.now) }
        ensures births { OnOk result (self.new.kept.births ≡ self.old.kept.births ++ births_of self.old.kept.births is_created (owners_given self.old.kept.births (arguments_of call.now) owner) (read_results ty results.now)) }
        ensures living { OnOk result (self.new.kept.living ≡ self.old.kept.living ++ map (λ b. b.object) (births_of self.old.kept.births is_created (owners_given self.old.kept.births (arguments_of call.now) owner) (read_results ty results.now))) }
        ensures err { OnErr result (self.new.kept ≡ self.old.kept) }
        ensures succeeds { length results.now ≤ self.old.spare → IsOk result }
        ensures spare { self.old.spare ≤ self.new.spare + length results.now }
    {
        self.table.reserve(results.len())?;
        let owner = owner_for(&self.table, owner, call);
        let before = self.table.len();
        add_births(&mut self.table, is_created, owner, ty, results);
        self.live_count += self.table.len() - before;
        Ok(())
    }

    /// Takes in the results of a call: each that isn't 0 and wasn't born is born and lives. After `NoMemory`, which comes only where there
    /// was no room for so many births, all is as it was.
    pub fn bear(&mut self, call: &LayerCall, results: &[u64]) -> Result<(), NoMemory>
        requires shape { HasParams call.now }
        requires once { AreNewOnce self.old.kept.births (made_of call.now results.now) }
        ensures ok { OnOk result (self.new.kept ≡ life_leave self.old.kept call.now.cmd (arguments_of call.now) (made_of call.now results.now)) }
        ensures err { OnErr result (self.new.kept ≡ self.old.kept) }
        ensures succeeds { length results.now ≤ self.old.spare → IsOk result }
        ensures spare { self.old.spare ≤ self.new.spare + length results.now }
    {
        match row(call.cmd).effect {
            Effect::Create { ty, owner, .. } => self.bear_results(true, owner, ty, call, results),
            Effect::Retrieve { ty, owner, .. } => {
                self.bear_results(false, owner, ty, call, results)
            }
            Effect::None | Effect::Destroy(_) | Effect::Free(_) | Effect::Reset(_) => Ok(()),
        }
    }
}
