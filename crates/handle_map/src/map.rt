//! Values by type and id.
ghost use Rattle.std.specs.Prelude.{◌≡◌, ◌≤◌, ◌<◌, ◌+◌, ◌^◌, ◌++◌, ◌∷◌, [], length, max, false, ◌==◌, IfOk, IfSome, IfNone, IsOk, OnOk, OnErr, Some, None};
ghost use Rattle.handle_map.specs.Spans.{put_at};
ghost use Rattle.handle_map.specs.Pairs.{AreDistinct, HasSpare, greatest_id, has_pair, values_of, with_values};

use crate::set::HandleSet;
use crate::span::{Span, span_of, with_len};
use crate::values::{make_room, write};
use command_tables::{NoMemory, ObjectType};
use std::alloc::Global;
use std::marker::Model;

/// Values by type and id, in order of insertion, found through `S` chains; 4,294,967,295 values at most. Contracts see besides how much can be held with no
/// further memory.
pub struct HandleMap<const S: usize> {
    set: HandleSet<S>,
    // Where the values of each pair stand.
    spans: Vec<Span>,
    values: Vec<u64>,
}

impl<const S: usize> Drop for HandleMap<S> {
    fn drop(self) {
        let HandleMap {
            set: _set,
            spans: _spans,
            values: _values,
        } = self;
    }
}

impl<const S: usize> Model for HandleMap<S> {
    ghost use Rattle.std.specs.Prelude.{◌-◌, length, min, vec_capacity};
    ghost use Rattle.handle_map.specs.Pairs.{MapState};
    ghost use Rattle.handle_map.specs.Spans.{IsSpread, entries_of};

    ghost Value = { MapState };

    ghost view = { λ m. record { entries = entries_of m.values.items m.set.pairs m.spans.items; spare = min m.set.spare (vec_capacity m.spans - length m.spans.items); room = min (vec_capacity m.values) 4294967295 - length m.values.items } };

    ghost invariant = { λ m. IsSpread (length m.set.pairs) m.spans.items m.values.items };
}

impl<const S: usize> HandleMap<S> {
    pub fn new(alloc: Global) -> HandleMap<S>
        requires { 1 ≤ S }
        ensures { result.entries ≡ [] }
    {
        HandleMap {
            set: HandleSet::new(alloc),
            spans: Vec::new(alloc),
            values: Vec::new(alloc),
        }
    }

    /// A map of its own with the same list. Of room nothing is said.
    pub fn copy(&self) -> Result<HandleMap<S>, NoMemory>
        ensures { IfOk result (λ map. map.entries ≡ self.now.entries) }
    {
        let alloc = *self.spans.allocator();
        Ok(HandleMap {
            set: self.set.copy()?,
            spans: Vec::from_slice(alloc, &self.spans)?,
            values: Vec::from_slice(alloc, &self.values)?,
        })
    }

    /// Makes room for so many further entries of any ids with at most so many values each: what finds one faster may still take memory.
    /// After `NoMemory` the list is as before, and no room is lost.
    pub fn make_room(&mut self, n: usize, values: usize) -> Result<(), NoMemory>
        ensures entries { self.new.entries ≡ self.old.entries }
        ensures ok { OnOk result (HasSpare self.new n values) }
        ensures spare { self.old.spare ≤ self.new.spare }
        ensures room { self.old.room ≤ self.new.room }
        ensures succeeds { 1 ≤ self.old.spare → HasSpare self.old n values → IsOk result }
    {
        self.set.make_room(n)?;
        let Some(most) = n.checked_mul(values) else {
            return Err(NoMemory);
        };
        self.spans.reserve(n)?;
        make_room(&mut self.values, most)
    }

    /// The same for entries whose ids follow the greatest, after which so many take no memory at all.
    pub fn reserve(&mut self, n: usize, values: usize) -> Result<(), NoMemory>
        ensures entries { self.new.entries ≡ self.old.entries }
        ensures ok { OnOk result (HasSpare self.new n values) }
        ensures spare { self.old.spare ≤ self.new.spare }
        ensures room { self.old.room ≤ self.new.room }
        ensures succeeds { 1 ≤ self.old.spare → HasSpare self.old n values → IsOk result }
    {
        self.make_room(n, values)?;
        self.set.reserve(n)
    }

    // Gives the entry at a place other values.
    fn put(&mut self, place: usize, values: &[u64]) -> Result<(), NoMemory>
        requires { place < length self.old.entries }
        ensures ok { OnOk result (self.new.entries ≡ put_at self.old.entries place values.now) }
        ensures err { OnErr result (self.new.entries ≡ self.old.entries) }
        ensures succeeds { length values.now ≤ self.old.room → IsOk result }
        ensures spare { self.old.spare ≤ self.new.spare }
        ensures room { self.old.room ≤ self.new.room + length values.now }
    {
        let _count = self.set.len();
        let span = self.spans[place];
        if values.len() <= span.room as usize {
            write(&mut self.values, span.start as usize, values);
            self.spans[place] = with_len(span, values.len());
            return Ok(());
        }
        make_room(&mut self.values, values.len())?;
        let start = self.values.len();
        self.values.extend_from_slice(values).unwrap();
        self.spans[place] = span_of(start, values.len());
        Ok(())
    }

    // Adds an entry of a new pair.
    fn add(&mut self, ty: ObjectType, id: u64, values: &[u64]) -> Result<(), NoMemory>
        requires { has_pair self.old.entries ty id ≡ false }
        ensures ok { OnOk result (self.new.entries ≡ self.old.entries ++ record { ty = ty; id = id; values = values.now } ∷ []) }
        ensures err { OnErr result (self.new.entries ≡ self.old.entries) }
        ensures succeeds { 1 ≤ self.old.spare → length values.now ≤ self.old.room → IsOk result }
        ensures spare { self.old.spare ≤ self.new.spare + 1 }
        ensures room { self.old.room ≤ self.new.room + length values.now }
    {
        self.spans.reserve(1)?;
        make_room(&mut self.values, values.len())?;
        self.set.add(ty, id)?;
        let span = span_of(self.values.len(), values.len());
        self.values.extend_from_slice(values).unwrap();
        self.spans.push(span).unwrap();
        Ok(())
    }

    /// Gives a pair these values: in its place, or last where the pair is new. After `NoMemory` the list is as before; it comes
    /// only where there was no room.
    pub fn insert(&mut self, ty: ObjectType, id: u64, values: &[u64]) -> Result<(), NoMemory>
        ensures ok { OnOk result (self.new.entries ≡ with_values self.old.entries ty id values.now) }
        ensures greatest { OnOk result (greatest_id self.new.entries ≡ max (greatest_id self.old.entries) id) }
        ensures err { OnErr result (self.new.entries ≡ self.old.entries) }
        ensures succeeds { 1 ≤ self.old.spare → length values.now ≤ self.old.room → IsOk result }
        ensures spare { self.old.spare ≤ self.new.spare + 1 }
        ensures room { self.old.room ≤ self.new.room + length values.now }
    {
        match self.set.place(ty, id) {
            Some(place) => self.put(place, values),
            None => self.add(ty, id, values),
        }
    }

    /// The values of a pair.
    pub fn get(&self, ty: ObjectType, id: u64) -> Option<&[u64]>
        ensures found { IfSome result (λ values. values_of self.now.entries ty id ≡ Some values.now) }
        ensures none { IfNone result (values_of self.now.entries ty id ≡ None) }
    {
        match self.set.place(ty, id) {
            None => None,
            Some(place) => {
                let span = self.spans[place];
                let start = span.start as usize;
                Some(&self.values[start..start + span.len as usize])
            }
        }
    }

    /// One more than the greatest id of the list, whatever its type; 1 for an empty list.
    pub fn next_id(&self) -> u64
        requires { greatest_id self.now.entries < 2 ^ 62 }
        ensures { result ≡ greatest_id self.now.entries + 1 }
    {
        self.set.next_id()
    }

    pub fn len(&self) -> usize
        ensures count { result ≡ length self.now.entries }
        ensures distinct { AreDistinct self.now.entries }
    {
        self.set.len()
    }

    pub fn is_empty(&self) -> bool
        ensures { result ≡ (length self.now.entries == 0) }
    {
        self.set.is_empty()
    }
}
