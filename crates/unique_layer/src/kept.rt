//! The ids of retrieved objects by their keys.
ghost use Rattle.std.specs.Prelude.{◌≡◌, ◌≤◌, ◌+◌, ◌++◌, ◌∷◌, [], IfOk, IsOk, OnOk, OnErr};
ghost use Rattle.layer_model.specs.Ids.{kept_id};
ghost use Rattle.unique_layer.specs.Shown.{key_of};

use crate::chain::{id_of, put_link};
use crate::entry::KeptEntry;
use crate::key::RetrievedKey;
use command_tables::NoMemory;
use handle_map::HandleMap;
use std::alloc::Global;
use std::marker::Model;

/// The ids of retrieved objects, the oldest first, found through chains. Contracts see besides how many can be kept with no further
/// memory.
#[derive(Drop)]
pub struct KeptIds {
    entries: Vec<KeptEntry>,
    // For each chain one more than the place of its latest entry.
    latest: HandleMap<1024>,
}

impl Model for KeptIds {
    ghost use Rattle.std.specs.Prelude.{◌-◌, length, map, min, vec_capacity};
    ghost use Rattle.unique_layer.specs.Chains.{AreChained};
    ghost use Rattle.unique_layer.specs.Shown.{KeptState, kept_of};

    ghost Value = { KeptState };

    ghost view = { λ k. record { ids = map kept_of k.entries.items; spare = min (vec_capacity k.entries - length k.entries.items) (min k.latest.spare k.latest.room) } };

    ghost invariant = { λ k. AreChained k.entries.items k.latest.entries };
}

impl KeptIds {
    pub fn new(alloc: Global) -> KeptIds
        ensures { result.ids ≡ [] }
    {
        KeptIds {
            entries: Vec::new(alloc),
            latest: HandleMap::new(alloc),
        }
    }

    /// The id kept by a key.
    pub fn get(&self, key: RetrievedKey) -> Option<u64>
        ensures { result ≡ kept_id self.now.ids (key_of key) }
    {
        id_of(&self.entries, &self.latest, key)
    }

    /// Kept ids of their own, the same. Of room nothing is said.
    pub fn copy(&self) -> Result<KeptIds, NoMemory>
        ensures { IfOk result (λ kept. kept.ids ≡ self.now.ids) }
    {
        Ok(KeptIds {
            entries: Vec::from_slice(*self.entries.allocator(), &self.entries)?,
            latest: self.latest.copy()?,
        })
    }

    /// Makes room for so many further ids of any owners: what finds one faster may still take memory. After `NoMemory` the ids are as
    /// before, and no room is lost.
    pub fn make_room(&mut self, n: usize) -> Result<(), NoMemory>
        ensures ids { self.new.ids ≡ self.old.ids }
        ensures ok { OnOk result (n ≤ self.new.spare) }
        ensures spare { self.old.spare ≤ self.new.spare }
        ensures succeeds { 1 ≤ n → n ≤ self.old.spare → IsOk result }
    {
        self.entries.reserve(n)?;
        self.latest.make_room(n, 1)
    }

    /// The same for owners whose ids follow the greatest, after which so many take no memory at all.
    pub fn reserve(&mut self, n: usize) -> Result<(), NoMemory>
        ensures ids { self.new.ids ≡ self.old.ids }
        ensures ok { OnOk result (n ≤ self.new.spare) }
        ensures spare { self.old.spare ≤ self.new.spare }
        ensures succeeds { 1 ≤ n → n ≤ self.old.spare → IsOk result }
    {
        self.make_room(n)?;
        self.latest.reserve(n, 1)
    }

    /// Keeps an id by a key, behind the others. After `NoMemory` what is kept is as before; it comes only where there was no room.
    pub fn add(&mut self, key: RetrievedKey, id: u64) -> Result<(), NoMemory>
        ensures ok { OnOk result (self.new.ids ≡ self.old.ids ++ record { key = key_of key; id = id } ∷ []) }
        ensures err { OnErr result (self.new.ids ≡ self.old.ids) }
        ensures succeeds { 1 ≤ self.old.spare → IsOk result }
        ensures spare { self.old.spare ≤ self.new.spare + 1 }
    {
        self.entries.reserve(1)?;
        let next = put_link(&mut self.latest, key, self.entries.len() + 1)?;
        self.entries.push(KeptEntry { key, id, next }).unwrap();
        Ok(())
    }
}
