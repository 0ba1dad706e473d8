//! Records in order of birth, each found by its object's type and handle.
ghost use Rattle.std.specs.Prelude.{◌≡◌, ◌≤◌, ◌<◌, ◌+◌, ◌++◌, ◌∷◌, [], length, slice_get, IfOk, IsOk, OnOk, Some, None};
ghost use Rattle.object_records.specs.Links.{IsPrevious, child_count, has_strays_in, last_link};
ghost use Rattle.object_records.specs.Passed.{IsPassed};
ghost use Rattle.object_records.specs.Queues.{queues_seen};
ghost use Rattle.object_records.specs.Table.{LivesAt, AreOnce, AreOwnersBefore, before_owned, ended_at, objects_kept, place_in};

use crate::kept_owner::has_stray;
use crate::link_table::LinkTable;
use crate::links::{Links, may_be_child, queue_owner};
use crate::passed::{note, noted_at, reopen, reserve_notes, widen_for};
use crate::queue_links::{add_queue_links, queue_links, reserve_queues};
use crate::record::ObjectRecord;
use crate::record_list::RecordList;
use command_tables::NoMemory;
use object_model::Object;
use std::alloc::Global;
use std::marker::Model;

/// The records of all objects that were born, the oldest first.
pub struct RecordTable {
    records: RecordList,
    links: LinkTable,
    // The links between the queues of each owner alone, since a device may have owned much else. They count no children. Behind the latest
    // queue there are none.
    queues: Vec<Links>,
    // At each owner, before which place what it owns neither lives nor owns anything. Behind the latest owner there are no notes, and where
    // memory was wanting.
    passed: Vec<u32>,
    // Whether a record has an owner that wasn't born.
    has_strays: bool,
}

impl Drop for RecordTable {
    fn drop(self) {
        let RecordTable {
            records: _records,
            links: _links,
            queues: _queues,
            passed: _passed,
            has_strays: _has_strays,
        } = self;
    }
}

impl Model for RecordTable {
    ghost use Rattle.std.specs.Prelude.{◌≡◌, ◌-◌, length, min, vec_capacity};
    ghost use Rattle.object_records.specs.Table.{IsTable, TableState};

    ghost Value = { TableState };

    ghost view = { λ t. record { records = t.records.records; spare = min (min t.records.spare t.links.spare) (min (vec_capacity t.queues) 4294967295 - length t.records.records) } };

    ghost invariant = { λ t. IsTable t.records.records t.links.links t.queues.items t.passed.items t.has_strays };
}

impl RecordTable {
    pub fn new(alloc: Global) -> RecordTable
        ensures { result.records ≡ [] }
    {
        RecordTable {
            records: RecordList::new(alloc),
            links: LinkTable::new(alloc),
            queues: Vec::new(alloc),
            passed: Vec::new(alloc),
            has_strays: false,
        }
    }

    pub fn len(&self) -> usize
        ensures { result ≡ length self.now.records }
    {
        self.records.len()
    }

    /// The place of an object's record.
    pub fn place_of(&self, object: Object) -> Option<usize>
        ensures place { result ≡ place_in self.now.records object }
        ensures owners { AreOwnersBefore 0 self.now.records }
        ensures once { AreOnce (objects_kept self.now.records) }
    {
        self.records.place_of(object)
    }

    /// The record at a place.
    pub fn record(&self, place: usize) -> ObjectRecord
        requires { place < length self.now.records }
        ensures found { slice_get self.now.records place ≡ Some result }
        ensures owners { AreOwnersBefore 0 self.now.records }
        ensures once { AreOnce (objects_kept self.now.records) }
    {
        self.records.get(place)
    }

    /// Records of their own, the same.
    pub fn copy(&self) -> Result<RecordTable, NoMemory>
        ensures { IfOk result (λ table. table.records ≡ self.now.records) }
    {
        let alloc = *self.queues.allocator();
        Ok(RecordTable {
            records: self.records.copy()?,
            links: self.links.copy()?,
            queues: Vec::from_slice(alloc, &self.queues)?,
            passed: Vec::from_slice(alloc, &self.passed)?,
            has_strays: self.has_strays,
        })
    }

    /// Makes room for so many further records. Takes no memory where there is room.
    pub fn reserve(&mut self, n: usize) -> Result<(), NoMemory>
        ensures records { self.new.records ≡ self.old.records }
        ensures ok { OnOk result (n ≤ self.new.spare) }
        ensures spare { self.old.spare ≤ self.new.spare }
        ensures succeeds { n ≤ self.old.spare → IsOk result }
    {
        if n == 0 {
            return Ok(());
        }
        self.records.reserve(n)?;
        self.links.reserve(n)?;
        reserve_queues(&mut self.queues, self.records.len(), n)
    }

    /// Makes room for notes at so many further records, so that they take no memory.
    pub fn reserve_notes(&mut self, n: usize)
        ensures records { self.new.records ≡ self.old.records }
        ensures spare { self.new.spare ≡ self.old.spare }
    {
        reserve_notes(&mut self.passed, self.records.len(), n);
    }

    /// Adds the record of an object that has none.
    pub fn push(&mut self, added: ObjectRecord)
        requires new { place_in self.old.records added.object ≡ None }
        requires room { 1 ≤ self.old.spare }
        requires owner { before_owned added.owner ≤ length self.old.records }
        ensures records { self.new.records ≡ self.old.records ++ added ∷ [] }
        ensures spare { self.old.spare ≤ self.new.spare + 1 }
    {
        let count = self.records.len();
        let above = self.records.owner_above(added.owner);
        self.links.add(added.owner, may_be_child(added));
        add_queue_links(&mut self.queues, count, queue_owner(added));
        reopen(&mut self.passed, added.owner, above);
        widen_for(&mut self.passed, added.owner);
        self.has_strays = has_stray(self.has_strays, added.owner);
        self.records.push(added);
    }

    /// Whether a record has an owner that wasn't born.
    pub fn has_strays(&self) -> bool
        ensures { result ≡ has_strays_in self.now.records }
    {
        self.has_strays
    }

    /// How many created objects live whose owner stands at a place.
    #[tactic(auto, using(crate::proofs::Linking::children_read))]
    pub fn count_children(&self, place: usize) -> usize
        requires { place < length self.now.records }
        ensures { result ≡ child_count self.now.records place }
    {
        self.links.get(place).children as usize
    }

    /// One more than the place of the latest record whose owner stands at a place; 0 where there is none.
    #[tactic(auto, using(crate::proofs::Linking::last_read))]
    pub fn last_owned(&self, place: usize) -> usize
        requires { place < length self.now.records }
        ensures link { result ≡ last_link self.now.records place }
        ensures owners { AreOwnersBefore 0 self.now.records }
        ensures once { AreOnce (objects_kept self.now.records) }
    {
        let _count = self.records.len();
        self.links.get(place).last_owned as usize
    }

    /// One more than the place of the record before one at a place that has the same owner; 0 where there is none.
    #[tactic(auto, using(crate::proofs::Linking::previous_read))]
    pub fn previous(&self, place: usize) -> usize
        requires { place < length self.now.records }
        ensures { IsPrevious self.now.records place result }
    {
        self.links.get(place).previous as usize
    }

    /// One more than the place of the latest queue whose owner stands at a place; 0 where there is none.
    #[tactic(auto, using(crate::proofs::SeenQueues::last_queue_read))]
    pub fn last_queue(&self, place: usize) -> usize
        requires { place < length self.now.records }
        ensures { result ≡ last_link (queues_seen self.now.records) place }
    {
        queue_links(self.queues.as_slice(), place).last_owned as usize
    }

    /// One more than the place of the queue before one at a place that has the same owner; 0 where there is none.
    #[tactic(auto, using(crate::proofs::SeenQueues::previous_queue_read))]
    pub fn previous_queue(&self, place: usize) -> usize
        requires { place < length self.now.records }
        ensures { IsPrevious (queues_seen self.now.records) place result }
    {
        queue_links(self.queues.as_slice(), place).previous as usize
    }

    /// The object of the record at a place lives no longer.
    #[tactic(auto, using(crate::proofs::Linking::ended_length))]
    pub fn end_at(&mut self, place: usize)
        requires { LivesAt self.old.records place }
        ensures records { self.new.records ≡ ended_at self.old.records place }
        ensures spare { self.new.spare ≡ self.old.spare }
    {
        let kept = self.records.get(place);
        self.links.unlink(kept);
        self.records.end_at(place);
    }

    /// Before which place nothing that the object of the record at a place owns lives, or owns anything itself.
    #[tactic(auto, using(crate::proofs::Passing::passed_read))]
    pub fn passed(&self, place: usize) -> usize
        requires { place < length self.now.records }
        ensures { IsPassed self.now.records place result }
    {
        noted_at(self.passed.as_slice(), place)
    }

    /// Before a place nothing that the object of the record at another owns lives, or owns anything itself.
    #[tactic(auto, using(crate::proofs::Passing::noted_passed))]
    pub fn pass_over(&mut self, place: usize, before: usize)
        requires place { place < length self.old.records }
        requires passed { IsPassed self.old.records place before }
        ensures records { self.new.records ≡ self.old.records }
        ensures spare { self.new.spare ≡ self.old.spare }
    {
        note(&mut self.passed, place, before);
    }
}
