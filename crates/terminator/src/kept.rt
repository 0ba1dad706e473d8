//! The ids of retrieved objects by their keys.
ghost use Rattle.std.specs.Prelude.{◌≡◌, ◌≤◌, ◌+◌, ◌++◌, ◌∷◌, [], length, IfOk, IsOk, OnErr, OnOk};
ghost use Rattle.layer_model.specs.Ids.{kept_id};
ghost use Rattle.terminator.specs.Shown.{key_of};

use crate::chain::{id_of, put_link};
use crate::entry::KeptEntry;
use crate::key::RetrievedKey;
use command_tables::NoMemory;
use handle_map::HandleMap;
use std::alloc::Global;
use std::marker::Model;

/// The ids of retrieved objects, the oldest first, found through chains.
#[derive(Drop)]
pub struct KeptIds {
    entries: Vec<KeptEntry>,
    // The payloads of all keys.
    bytes: Vec<u8>,
    // For each owner one more than the place of its latest entry.
    latest: HandleMap<1024>,
}

impl Model for KeptIds {
    ghost use Rattle.std.specs.Prelude.{◌-◌, length, map, min, vec_capacity};
    ghost use Rattle.terminator.specs.Chains.{AreChained};
    ghost use Rattle.terminator.specs.Shown.{KeptState, kept_of};

    ghost Value = { KeptState };

    ghost view = { λ k. record { ids = map (kept_of k.bytes.items) k.entries.items; spare = min (vec_capacity k.entries - length k.entries.items) (min k.latest.spare k.latest.room); bytes = vec_capacity k.bytes - length k.bytes.items } };

    ghost invariant = { λ k. AreChained k.entries.items k.bytes.items k.latest.entries };
}

impl KeptIds {
    pub fn new(alloc: Global) -> KeptIds
        ensures { result.ids ≡ [] }
    {
        KeptIds {
            entries: Vec::new(alloc),
            bytes: Vec::new(alloc),
            latest: HandleMap::new(alloc),
        }
    }

    /// The id kept by a key.
    pub fn get(&self, key: RetrievedKey<'_>) -> Option<u64>
        ensures { result ≡ kept_id self.now.ids (key_of key.entry) }
    {
        id_of(&self.entries, &self.bytes, &self.latest, key)
    }

    /// Kept ids of their own, the same. Of room nothing is said.
    pub fn copy(&self) -> Result<KeptIds, NoMemory>
        ensures { IfOk result (λ kept. kept.ids ≡ self.now.ids) }
    {
        let alloc = *self.entries.allocator();
        Ok(KeptIds {
            entries: Vec::from_slice(alloc, &self.entries)?,
            bytes: Vec::from_slice(alloc, &self.bytes)?,
            latest: self.latest.copy()?,
        })
    }

    /// For how many further bytes of payloads there is room. Takes no memory.
    pub fn bytes_left(&self) -> usize
        ensures { result ≡ self.now.bytes }
    {
        self.bytes.capacity() - self.bytes.len()
    }

    /// Makes room for so many further ids of any owners with so many bytes of payloads: what finds one faster may still take memory. After
    /// `NoMemory` the ids are as before, and no room is lost.
    pub fn make_room(&mut self, n: usize, bytes: usize) -> Result<(), NoMemory>
        ensures ids { self.new.ids ≡ self.old.ids }
        ensures ok_spare { OnOk result (n ≤ self.new.spare) }
        ensures ok_bytes { OnOk result (bytes ≤ self.new.bytes) }
        ensures spare { self.old.spare ≤ self.new.spare }
        ensures bytes { self.old.bytes ≤ self.new.bytes }
        ensures succeeds { n ≤ self.old.spare → bytes ≤ self.old.bytes → IsOk result }
    {
        self.bytes.reserve(bytes)?;
        // The links take memory for none, too.
        if n == 0 {
            return Ok(());
        }
        self.entries.reserve(n)?;
        self.latest.make_room(n, 1)
    }

    /// The same for owners whose ids follow the greatest, after which so many take no memory at all.
    pub fn reserve(&mut self, n: usize, bytes: usize) -> Result<(), NoMemory>
        ensures ids { self.new.ids ≡ self.old.ids }
        ensures ok_spare { OnOk result (n ≤ self.new.spare) }
        ensures ok_bytes { OnOk result (bytes ≤ self.new.bytes) }
        ensures spare { self.old.spare ≤ self.new.spare }
        ensures bytes { self.old.bytes ≤ self.new.bytes }
        ensures succeeds { n ≤ self.old.spare → bytes ≤ self.old.bytes → IsOk result }
    {
        self.make_room(n, bytes)?;
        if n == 0 {
            return Ok(());
        }
        self.latest.reserve(n, 1)
    }

    /// Keeps an id by a key, behind the others. After `NoMemory`, which comes only where there was no room, what is kept is as before.
    pub fn add(&mut self, key: RetrievedKey<'_>, id: u64) -> Result<(), NoMemory>
        ensures ok { OnOk result (self.new.ids ≡ self.old.ids ++ record { key = key_of key.entry; id = id } ∷ []) }
        ensures err { OnErr result (self.new.ids ≡ self.old.ids) }
        ensures succeeds { 1 ≤ self.old.spare → length key.entry.payload.now ≤ self.old.bytes → IsOk result }
        ensures spare { self.old.spare ≤ self.new.spare + 1 }
        ensures bytes { self.old.bytes ≤ self.new.bytes + length key.entry.payload.now }
    {
        self.entries.reserve(1)?;
        self.bytes.reserve(key.payload.len())?;
        let next = put_link(&mut self.latest, key.owner, self.entries.len() + 1)?;
        let entry = KeptEntry {
            owner: key.owner,
            ty: key.ty,
            place: key.place,
            start: self.bytes.len(),
            len: key.payload.len(),
            id,
            next,
        };
        self.bytes.extend_from_slice(key.payload).unwrap();
        self.entries.push(entry).unwrap();
        Ok(())
    }
}
