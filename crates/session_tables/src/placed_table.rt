// Values of objects in one list without gaps.
ghost use Rattle.std.specs.Prelude.{◌≡◌, ◌++◌, ◌∷◌, ◌+◌, ◌<◌, ◌≤◌, ◌^◌, [], None, Some, OnOk, OnErr, IsOk, IfOk, IfSome, if◌then◌else◌, false, true, is_some, length, slice_get, option_and_then};
ghost use Rattle.std.specs.Option.{option_copied, option_map_or};
ghost use Rattle.object_model.specs.declared.Object.{Object};
ghost use Rattle.object_model.specs.Objects.{same};
ghost use Rattle.session_tables.specs.declared.placed_table.Placed.{Placed};
ghost use Rattle.session_tables.specs.Filing.{kept, places_room};
ghost use Rattle.session_tables.specs.Placed.{ArePlaced, entry_of, placed_in, table_room};

use crate::object_places::ObjectPlaces;
use object_model::Object;
use std::alloc::{AllocError, Global};

// So many entries can stand: a place has 32 bits.
const MOST: usize = 4294967296;

/// A value with its object.
#[derive(Drop)]
pub struct Placed<V: Drop> {
    pub object: Object,
    pub value: V,
}

/// Values of objects in one list, and the place of each. Where one is taken out the last takes its place, so that there is no gap.
#[derive(Drop)]
pub struct PlacedTable<V: Drop> {
    pub entries: Vec<Placed<V>>,
    pub places: ObjectPlaces<u32>,
}

#[tactic(auto, unfolding(command_tables::specs::Tests::same_type))]
fn is_at<V: Drop>(entries: &[Placed<V>], at: usize, object: Object) -> bool
    ensures { result ≡ option_map_or (λ p. same p.object object) (slice_get entries.now at) false }
{
    match entries.get(at) {
        None => false,
        Some(entry) => entry.object == object,
    }
}

// The entry that was moved to a place, if there is one, is found there.
fn note_moved<V: Drop>(entries: &[Placed<V>], places: &mut ObjectPlaces<u32>, at: usize)
    requires few { at < 2 ^ 32 }
    requires there { (p : Placed V) → slice_get entries.now at ≡ Some p → is_some (kept places.old p.object) ≡ true }
    ensures moved { (p : Placed V) → slice_get entries.now at ≡ Some p → (o : Object) → kept places.new o ≡ (if same p.object o then Some at else kept places.old o) }
    ensures none { length entries.now ≤ at → (o : Object) → kept places.new o ≡ kept places.old o }
    ensures room { places_room places.old ≤ places_room places.new }
{
    if let Some(moved) = entries.get(at) {
        places.set(moved.object, at as u32);
    }
}

impl<V: Drop> PlacedTable<V> {
    pub fn new(alloc: Global) -> PlacedTable<V>
        ensures empty { result.entries.items ≡ [] }
        ensures placed { ArePlaced result }
    {
        PlacedTable {
            entries: Vec::new(alloc),
            places: ObjectPlaces::new(alloc, 0),
        }
    }

    /// The place of an object's entry. A place that another entry has taken since is none.
    pub fn place_of(&self, object: Object) -> Option<usize>
        requires { ArePlaced self.now }
        ensures entry { option_and_then (slice_get self.now.entries.items) result ≡ entry_of self.now.entries.items object }
        ensures within { IfSome result (λ at. at < length self.now.entries.items) }
        ensures few { IfSome result (λ at. at < 2 ^ 32) }
    {
        match self.places.get(object) {
            Some(at) if is_at(&self.entries, at as usize, object) => Some(at as usize),
            _ => None,
        }
    }

    /// The value of an object.
    pub fn get(&self, object: Object) -> Option<&V>
        requires { ArePlaced self.now }
        ensures { option_copied result ≡ placed_in self.now object }
    {
        match self.place_of(object) {
            None => None,
            Some(at) => Some(&self.entries[at].value),
        }
    }

    /// Makes room for so many further entries, so that they take no memory. Takes none where there is room. `AllocError` comes too where there
    /// would be more than 2^32; after it the entries are as before, and no room is lost.
    pub fn reserve(&mut self, n: usize) -> Result<(), AllocError>
        requires { ArePlaced self.old }
        ensures entries { self.new.entries.items ≡ self.old.entries.items }
        ensures placed { ArePlaced self.new }
        ensures ok { OnOk result (n ≤ table_room self.new) }
        ensures room { table_room self.old ≤ table_room self.new }
        ensures succeeds { n ≤ table_room self.old → IsOk result }
    {
        if n > MOST.saturating_sub(self.entries.len()) {
            return Err(AllocError);
        }
        self.entries.reserve(n)?;
        self.places.reserve(n)?;
        Ok(())
    }

    /// Adds the value of an object that has none, in no memory where there is room. `AllocError` comes too where there are 2^32 entries.
    pub fn push(&mut self, object: Object, value: V) -> Result<(), AllocError>
        requires placed { ArePlaced self.old }
        requires new { entry_of self.old.entries.items object ≡ None }
        ensures ok { OnOk result (self.new.entries.items ≡ self.old.entries.items ++ record { object = object; value = value } ∷ []) }
        ensures err { OnErr result (self.new.entries.items ≡ self.old.entries.items) }
        ensures placed { ArePlaced self.new }
        ensures succeeds { 1 ≤ table_room self.old → IsOk result }
        ensures room { table_room self.old ≤ table_room self.new + 1 }
    {
        let at = self.entries.len();
        if at >= MOST {
            return Err(AllocError);
        }
        self.places.put(object, at as u32)?;
        self.entries.push(Placed { object, value })?;
        Ok(())
    }

    /// Takes out the value of an object. Its room stays.
    pub fn remove(&mut self, object: Object) -> Option<V>
        requires { ArePlaced self.old }
        ensures value { result ≡ placed_in self.old object }
        ensures left { (o : Object) → entry_of self.new.entries.items o ≡ (if same object o then None else entry_of self.old.entries.items o) }
        ensures placed { ArePlaced self.new }
        ensures room { table_room self.old ≤ table_room self.new }
    {
        match self.place_of(object) {
            None => None,
            Some(at) => {
                let taken = self.entries.swap_remove(at);
                note_moved(&self.entries, &mut self.places, at);
                Some(taken.value)
            }
        }
    }

    /// Takes out all values. Their room stays.
    pub fn clear(&mut self)
        ensures entries { self.new.entries.items ≡ [] }
        ensures placed { ArePlaced self.new }
        ensures room { table_room self.old ≤ table_room self.new }
    {
        self.entries.clear();
    }
}
