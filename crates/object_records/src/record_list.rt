//! Records in order of birth, as short as they can be kept.
ghost use Rattle.std.specs.Prelude.{◌≡◌, ◌≤◌, ◌<◌, ◌+◌, ◌-◌, ◌++◌, ◌∷◌, [], length, min, slice_get, vec_capacity, IfOk, IsOk, OnOk, Some, None};
ghost use Rattle.object_records.specs.Compact.{records_read};
ghost use Rattle.object_records.specs.Passed.{owner_above};
ghost use Rattle.object_records.specs.Table.{AreOnce, before_owned, ended_at, objects_kept, place_in};

use crate::kept_owner::KeptOwner;
use crate::kept_record::{KeptRecord, keep, read_owner};
use crate::record::ObjectRecord;
use command_tables::NoMemory;
use handle_map::PairIndex;
use object_model::Object;
use std::alloc::Global;
use std::marker::Model;

// A place has 32 bits.
const MOST: usize = 4294967295;

/// The records of all objects that were born, the oldest first.
pub struct RecordList {
    // The pairs of the objects. Handles of other origin come between dense ids, so that a record need not stand at the place of its id.
    index: PairIndex,
    kept: Vec<KeptRecord>,
    // The owners that weren't born, of which there are none in most traces.
    strays: Vec<Object>,
}

impl Drop for RecordList {
    fn drop(self) {
        let RecordList {
            index: _index,
            kept: _kept,
            strays: _strays,
        } = self;
    }
}

impl Model for RecordList {
    ghost use Rattle.std.specs.Prelude.{◌-◌, length, min, vec_capacity};
    ghost use Rattle.object_records.specs.Compact.{IsCompact, records_read};
    ghost use Rattle.object_records.specs.Table.{TableState};

    ghost Value = { TableState };

    ghost view = { λ t. record { records = records_read t.strays.items t.index.pairs t.kept.items; spare = min (min (min (vec_capacity t.kept) 4294967295 - length t.kept.items) (vec_capacity t.strays - length t.strays.items)) t.index.spare } };

    ghost invariant = { λ t. IsCompact t.strays.items t.index.pairs t.kept.items };
}

impl RecordList {
    pub fn new(alloc: Global) -> RecordList
        ensures { result.records ≡ [] }
    {
        RecordList {
            index: PairIndex::new(alloc),
            kept: Vec::new(alloc),
            strays: Vec::new(alloc),
        }
    }

    #[tactic(auto, using(crate::proofs::Compacted::read_length, crate::proofs::Compacted::once_read))]
    pub fn len(&self) -> usize
        ensures count { result ≡ length self.now.records }
        ensures once { AreOnce (objects_kept self.now.records) }
    {
        let _count = self.index.len();
        self.kept.len()
    }

    /// The place of an object's record.
    #[tactic(auto, using(crate::proofs::Compacted::place_read, crate::proofs::Compacted::once_read))]
    pub fn place_of(&self, object: Object) -> Option<usize>
        ensures place { result ≡ place_in self.now.records object }
        ensures once { AreOnce (objects_kept self.now.records) }
    {
        self.index.place(object.ty, object.number)
    }

    /// The record at a place.
    #[tactic(auto, using(crate::proofs::Compacted::record_there, crate::proofs::Compacted::read_length, crate::proofs::Compacted::once_read))]
    pub fn get(&self, place: usize) -> ObjectRecord
        requires { place < length self.now.records }
        ensures found { slice_get self.now.records place ≡ Some result }
        ensures once { AreOnce (objects_kept self.now.records) }
    {
        let (ty, number) = self.index.pair(place);
        let kept = self.kept[place];
        ObjectRecord {
            object: Object { ty, number },
            is_created: kept.is_created,
            lives: kept.lives,
            owner: read_owner(&self.strays, kept),
        }
    }

    /// The owner of an owner.
    #[tactic(auto, using(crate::proofs::Compacted::above_there))]
    pub fn owner_above(&self, owner: KeptOwner) -> KeptOwner
        requires { before_owned owner ≤ length self.now.records }
        ensures { result ≡ owner_above self.now.records owner }
    {
        match owner {
            KeptOwner::Nobody | KeptOwner::Unborn(_) => KeptOwner::Nobody,
            KeptOwner::At(place) => self.get(place).owner,
        }
    }

    /// Records of their own, the same.
    pub fn copy(&self) -> Result<RecordList, NoMemory>
        ensures { IfOk result (λ list. list.records ≡ self.now.records) }
    {
        let alloc = *self.kept.allocator();
        Ok(RecordList {
            index: self.index.copy()?,
            kept: Vec::from_slice(alloc, &self.kept)?,
            strays: Vec::from_slice(alloc, &self.strays)?,
        })
    }

    /// Makes room for so many further records, where their places have 32 bits. Takes no memory where there is room.
    pub fn reserve(&mut self, n: usize) -> Result<(), NoMemory>
        ensures records { self.new.records ≡ self.old.records }
        ensures ok { OnOk result (n ≤ self.new.spare) }
        ensures spare { self.old.spare ≤ self.new.spare }
        ensures succeeds { 1 ≤ n → n ≤ self.old.spare → IsOk result }
    {
        if n > MOST.saturating_sub(self.kept.len()) {
            return Err(NoMemory);
        }
        self.kept.reserve(n)?;
        self.strays.reserve(n)?;
        self.index.reserve(n)
    }

    /// Adds the record of an object that has none.
    #[tactic(auto, using(crate::proofs::Compacted::new_pair, crate::proofs::Compacted::read_length))]
    pub fn push(&mut self, added: ObjectRecord)
        requires new { place_in self.old.records added.object ≡ None }
        requires room { 1 ≤ self.old.spare }
        requires owner { before_owned added.owner ≤ length self.old.records }
        ensures records { self.new.records ≡ self.old.records ++ added ∷ [] }
        ensures spare { self.old.spare ≤ self.new.spare + 1 }
    {
        self.index
            .add(added.object.ty, added.object.number)
            .unwrap();
        let kept = keep(&mut self.strays, added);
        self.kept.push(kept).unwrap();
    }

    /// The object of the record at a place lives no longer.
    #[tactic(auto, using(crate::proofs::Compacted::read_length))]
    pub fn end_at(&mut self, place: usize)
        requires { place < length self.old.records }
        ensures records { self.new.records ≡ ended_at self.old.records place }
        ensures spare { self.new.spare ≡ self.old.spare }
    {
        self.kept[place].lives = false;
    }
}
