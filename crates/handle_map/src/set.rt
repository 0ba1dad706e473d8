//! Pairs of a type and an id.
ghost use Rattle.std.specs.Prelude.{◌≡◌, ◌≤◌, ◌<◌, ◌+◌, ◌-◌, ◌^◌, ◌++◌, ◌∷◌, [], length, min, slice_get, vec_capacity, false, Some, ◌==◌, IfOk, IfSome, IsOk, OnOk, OnErr};
ghost use Rattle.handle_map.specs.Pairs.{AreDistinct, greatest_id, has_pair, pair, place_of};

use crate::bounds::{Bounds, bounds_with, is_beyond};
use crate::chain::{chain_of, make_chains, place_of};
use crate::entry::Entry;
use crate::hints::Hints;
use command_tables::{NoMemory, ObjectType};
use std::alloc::Global;
use std::marker::Model;

// A link to an entry, one more than its place, has 32 bits.
const MOST: usize = 4294967295;

/// Pairs of a type and an id, each once, in order of insertion, found through `S` chains; 4,294,967,295 at most. Contracts see besides how
/// many further ones can be held with no further memory.
pub struct HandleSet<const S: usize> {
    entries: Vec<Entry>,
    // For each chain one more than the place of its last entry, or 0; empty until room is first made.
    firsts: Vec<u32>,
    hints: Hints,
    bounds: Bounds,
}

impl<const S: usize> Drop for HandleSet<S> {
    fn drop(self) {
        let HandleSet {
            entries: _entries,
            firsts: _firsts,
            hints: _hints,
            bounds: _bounds,
        } = self;
    }
}

impl<const S: usize> Model for HandleSet<S> {
    ghost use Rattle.std.specs.Prelude.{◌-◌, if◌then◌else◌, nat_le, length, min, vec_capacity};
    ghost use Rattle.handle_map.specs.Pairs.{SetState};
    ghost use Rattle.handle_map.specs.Bounds.{IsBounded};
    ghost use Rattle.handle_map.specs.Chains.{IsTable, pairs_of};

    ghost Value = { SetState };

    ghost view = { λ s. record { pairs = pairs_of s.entries.items; spare = if nat_le S (length s.firsts.items) then min (vec_capacity s.entries) 4294967295 - length s.entries.items else 0 } };

    ghost invariant = { λ s. IsTable S s.entries.items s.firsts.items s.bounds.greatest × IsBounded s.entries.items s.bounds };
}

// Makes room for so many further entries, where links to them fit.
fn make_room(entries: &mut Vec<Entry>, n: usize) -> Result<(), NoMemory>
    ensures items { entries.new.items ≡ entries.old.items }
    ensures ok { OnOk result (n ≤ min (vec_capacity entries.new) 4294967295 - length entries.old.items) }
    ensures capacity { vec_capacity entries.old ≤ vec_capacity entries.new }
    ensures succeeds { 1 ≤ min (vec_capacity entries.old) 4294967295 - length entries.old.items → n ≤ min (vec_capacity entries.old) 4294967295 - length entries.old.items → IsOk result }
{
    if n > MOST.saturating_sub(entries.len()) {
        return Err(NoMemory);
    }
    Ok(entries.reserve(n)?)
}

impl<const S: usize> HandleSet<S> {
    pub fn new(alloc: Global) -> HandleSet<S>
        requires { 1 ≤ S }
        ensures { result.pairs ≡ [] }
    {
        HandleSet {
            entries: Vec::new(alloc),
            firsts: Vec::new(alloc),
            hints: Hints::new(alloc),
            bounds: Bounds {
                least: u64::MAX,
                greatest: 0,
                apart: 0,
            },
        }
    }

    /// A set of its own with the same pairs. Of room nothing is said.
    pub fn copy(&self) -> Result<HandleSet<S>, NoMemory>
        ensures { IfOk result (λ set. set.pairs ≡ self.now.pairs) }
    {
        let alloc = *self.entries.allocator();
        Ok(HandleSet {
            entries: Vec::from_slice(alloc, &self.entries)?,
            firsts: Vec::from_slice(alloc, &self.firsts)?,
            hints: self.hints.copy(alloc)?,
            bounds: self.bounds,
        })
    }

    /// Makes room for so many further pairs of any ids: what finds one faster may still take memory. After `NoMemory`, which comes too
    /// where these would be too many, the pairs are as before, and no room is lost.
    pub fn make_room(&mut self, n: usize) -> Result<(), NoMemory>
        ensures pairs { self.new.pairs ≡ self.old.pairs }
        ensures ok { OnOk result (n ≤ self.new.spare) }
        ensures spare { self.old.spare ≤ self.new.spare }
        ensures succeeds { 1 ≤ self.old.spare → n ≤ self.old.spare → IsOk result }
    {
        make_chains::<S>(&mut self.firsts)?;
        make_room(&mut self.entries, n)
    }

    /// The same for pairs whose ids follow the greatest, after which so many take no memory at all.
    pub fn reserve(&mut self, n: usize) -> Result<(), NoMemory>
        ensures pairs { self.new.pairs ≡ self.old.pairs }
        ensures ok { OnOk result (n ≤ self.new.spare) }
        ensures spare { self.old.spare ≤ self.new.spare }
        ensures succeeds { 1 ≤ self.old.spare → n ≤ self.old.spare → IsOk result }
    {
        self.make_room(n)?;
        self.hints
            .reserve(n, self.entries.len(), self.bounds.greatest);
        Ok(())
    }

    /// Adds a new pair. After `NoMemory`, which comes only where there was no room, the pairs are as before.
    pub fn add(&mut self, ty: ObjectType, id: u64) -> Result<(), NoMemory>
        requires { has_pair self.old.pairs ty id ≡ false }
        ensures ok { OnOk result (self.new.pairs ≡ self.old.pairs ++ pair ty id ∷ []) }
        ensures err { OnErr result (self.new.pairs ≡ self.old.pairs) }
        ensures succeeds { 1 ≤ self.old.spare → IsOk result }
        ensures spare { self.old.spare ≤ self.new.spare + 1 }
    {
        make_chains::<S>(&mut self.firsts)?;
        make_room(&mut self.entries, 1)?;
        let chain = chain_of::<S>(ty, id);
        let next = self.firsts[chain];
        let place = self.entries.len();
        self.hints.note(ty, id, place);
        self.entries.push(Entry { id, next, ty }).unwrap();
        self.firsts[chain] = place as u32 + 1;
        self.bounds = bounds_with(self.bounds, ty, id);
        Ok(())
    }

    /// The place of a pair, counted from 0.
    pub fn place(&self, ty: ObjectType, id: u64) -> Option<usize>
        ensures place { result ≡ place_of self.now.pairs ty id }
        ensures within { IfSome result (λ place. place < length self.now.pairs) }
        ensures distinct { AreDistinct self.now.pairs }
    {
        // A new id is mostly the next one, and a null is 0: no chain need be walked to its end for either.
        if is_beyond(self.bounds, ty, id) {
            return None;
        }
        let link = self.hints.link(ty, id);
        place_of::<S>(&self.entries, &self.firsts, link, ty, id)
    }

    /// The pair at a place, counted from 0.
    pub fn pair(&self, place: usize) -> (ObjectType, u64)
        requires { place < length self.now.pairs }
        ensures pair { slice_get self.now.pairs place ≡ Some (pair result.0 result.1) }
        ensures distinct { AreDistinct self.now.pairs }
    {
        let entry = self.entries[place];
        (entry.ty, entry.id)
    }

    pub fn contains(&self, ty: ObjectType, id: u64) -> bool
        ensures { result ≡ has_pair self.now.pairs ty id }
    {
        self.place(ty, id).is_some()
    }

    /// One more than the greatest id, whatever its type; 1 where there is no pair.
    pub fn next_id(&self) -> u64
        requires { greatest_id self.now.pairs < 2 ^ 62 }
        ensures { result ≡ greatest_id self.now.pairs + 1 }
    {
        self.bounds.greatest + 1
    }

    pub fn len(&self) -> usize
        ensures count { result ≡ length self.now.pairs }
        ensures distinct { AreDistinct self.now.pairs }
    {
        self.entries.len()
    }

    pub fn is_empty(&self) -> bool
        ensures { result ≡ (length self.now.pairs == 0) }
    {
        self.entries.is_empty()
    }
}
