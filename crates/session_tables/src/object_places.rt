// Values of objects, found by their numbers.
ghost use Rattle.std.specs.Prelude.{◌≡◌, ◌≤◌, ◌<◌, ◌+◌, ◌%◌, ◌/◌, ◌&&◌, ◌||◌, not, nat_lt, length, slice_get, [], None, Some, IfOk, IfSome, IsOk, OnOk, OnErr, if◌then◌else◌, is_some, true, false};
ghost use Rattle.std.specs.HashMap.{get};
ghost use Rattle.object_model.specs.declared.Object.{Object};
ghost use Rattle.object_model.specs.Objects.{same};
ghost use Rattle.session_tables.specs.FiledRows.{filed_cell, has_filed_cell};
ghost use Rattle.session_tables.specs.Filing.{far_value, filed_for, is_open, is_own, kept, objects_with_values, own_index, places_room};

use crate::filed_rows::{
    Filed, FiledRow, copy_filed, filed_at, has_filed, overwrite_filed, put_filed,
};
use command_tables::ObjectType;
use object_model::Object;
use std::alloc::{AllocError, Global};
use std::collections::HashMap;

// So many places can stand beside the rows: an index there has 32 bits.
const MOST: usize = 4294967295;

/// A value beside the rows, with its object.
#[derive(Clone, Copy, Drop)]
pub struct Far<V> {
    pub object: Object,
    pub value: V,
}

/// Values of objects. An object's number is made of its first name, the `number`-th of a thread, as `number * 2048 + thread`: so its value
/// stands in a row of that thread, at that number. Where an object of another type is filed there, it stands beside the rows, and so it does
/// where the row doesn't reach so far but there is room.
#[derive(Drop)]
pub struct ObjectPlaces<V> {
    rows: Vec<FiledRow<V>>,
    // The index of each object in `far`: a value changes there, since the map may use up room where it replaces one.
    others: HashMap<Object, u32>,
    far: Vec<Far<V>>,
    // What stands where nothing is filed.
    empty: V,
    alloc: Global,
}

#[inline(never)]
#[tactic(auto, unfolding(command_tables::specs::Tests::same_type))]
fn other(others: &HashMap<Object, u32>, object: Object) -> Option<u32>
    ensures { result ≡ get same others.now object }
{
    if others.is_empty() {
        None
    } else {
        others.get(&object).copied()
    }
}

#[tactic(auto, unfolding(command_tables::specs::Tests::same_type))]
fn is_own<V>(far: &[Far<V>], at: usize, object: Object) -> bool
    ensures { result ≡ is_own far.now object at }
{
    match far.get(at) {
        None => false,
        Some(entry) => entry.object == object,
    }
}

// The index of an object's entry beside the rows.
fn own_index<V>(others: &HashMap<Object, u32>, far: &[Far<V>], object: Object) -> Option<usize>
    ensures index { result ≡ own_index far.now object (get same others.now object) }
    ensures within { IfSome result (λ at. at < length far.now) }
{
    match other(others, object) {
        Some(at) if is_own(far, at as usize, object) => Some(at as usize),
        _ => None,
    }
}

// The value that is filed for objects of a type.
#[tactic(auto, unfolding(command_tables::specs::Tests::same_type))]
fn value_for<V: Copy>(filed: Filed<V>, ty: ObjectType) -> Option<V>
    ensures { result ≡ filed_for filed ty }
{
    match filed.ty {
        None => None,
        Some(other) => { if other == ty { Some(filed.value) } else { None } }
    }
}

// Whether a value can be filed for objects of a type.
#[tactic(auto, unfolding(command_tables::specs::Tests::same_type))]
fn is_open<V: Copy>(filed: Filed<V>, ty: ObjectType) -> bool
    ensures { result ≡ is_open filed ty }
{
    match filed.ty {
        None => true,
        Some(other) => other == ty,
    }
}

impl<V: Copy + Drop> ObjectPlaces<V> {
    /// No values. `empty` stands where there is none.
    pub fn new(alloc: Global, empty: V) -> ObjectPlaces<V>
        ensures kept { (o : Object) → kept result o ≡ None }
        ensures objects { objects_with_values result ≡ [] }
    {
        ObjectPlaces {
            rows: Vec::new(alloc),
            others: HashMap::new(alloc),
            far: Vec::new(alloc),
            empty,
            alloc,
        }
    }

    /// Values of their own for the same objects. Of room nothing is said.
    pub fn copy(&self) -> Result<ObjectPlaces<V>, AllocError>
        ensures objects { IfOk result (λ copy. objects_with_values copy ≡ objects_with_values self.now) }
        ensures kept { IfOk result (λ copy. (o : Object) → kept copy o ≡ kept self.now o) }
    {
        Ok(ObjectPlaces {
            rows: copy_filed(self.alloc, &self.rows)?,
            others: self.others.clone()?,
            far: Vec::from_slice(self.alloc, &self.far)?,
            empty: self.empty,
            alloc: self.alloc,
        })
    }

    // For how many further objects there is room.
    fn room(&self) -> usize
        ensures { result ≡ places_room self.now }
    {
        let entries = self.far.capacity().min(MOST).saturating_sub(self.far.len());
        let indices = self.others.capacity() - self.others.len();
        indices.min(entries)
    }

    /// Makes room for so many further objects, so that their values take no memory. Takes none where there is room. `AllocError` comes too where
    /// there would be more than 2^32 - 1 beside the rows; after it the values are as before, and no room is lost.
    pub fn reserve(&mut self, n: usize) -> Result<(), AllocError>
        ensures kept { (o : Object) → kept self.new o ≡ kept self.old o }
        ensures objects { objects_with_values self.new ≡ objects_with_values self.old }
        ensures ok { OnOk result (n ≤ places_room self.new) }
        ensures room { places_room self.old ≤ places_room self.new }
        ensures succeeds { n ≤ places_room self.old → IsOk result }
    {
        if n <= self.room() {
            return Ok(());
        }
        if n > MOST.saturating_sub(self.far.len()) {
            return Err(AllocError);
        }
        self.far.reserve(n)?;
        self.others.reserve(n)?;
        Ok(())
    }

    // What is filed where an object's value stands.
    fn filed(&self, object: Object) -> Filed<V>
        ensures { result ≡ filed_cell self.now.empty self.now.rows.items (object.number % 2048) (object.number / 2048) }
    {
        let row = (object.number % 2048) as usize;
        let at = (object.number / 2048) as usize;
        filed_at(&self.rows, row, at, self.empty)
    }

    // The value of an object that stands beside the rows.
    fn get_far(&self, object: Object) -> Option<V>
        ensures { result ≡ far_value self.now.far.items object (get same self.now.others object) }
    {
        match own_index(&self.others, &self.far, object) {
            None => None,
            Some(at) => Some(self.far[at].value),
        }
    }

    /// The value of an object.
    pub fn get(&self, object: Object) -> Option<V>
        ensures { result ≡ kept self.now object }
    {
        match value_for(self.filed(object), object.ty) {
            None => self.get_far(object),
            Some(value) => Some(value),
        }
    }

    // Whether the value of an object that has none is to stand beside the rows: where another type's is filed, and where its row doesn't reach
    // so far but there is room.
    fn goes_far(&self, object: Object) -> bool
        ensures { result ≡ (not (is_open (filed_cell self.now.empty self.now.rows.items (object.number % 2048) (object.number / 2048)) object.ty) || (not (has_filed_cell self.now.rows.items (object.number % 2048) (object.number / 2048)) && nat_lt 0 (places_room self.now))) }
    {
        if !is_open(self.filed(object), object.ty) {
            return true;
        }
        let row = (object.number % 2048) as usize;
        let at = (object.number / 2048) as usize;
        if has_filed(&self.rows, row, at) {
            return false;
        }
        0 < self.room()
    }

    // Keeps a value beside the rows for an object for which none is filed in them.
    fn put_far(&mut self, object: Object, value: V) -> Result<(), AllocError>
        requires { is_some (filed_for (filed_cell self.old.empty self.old.rows.items (object.number % 2048) (object.number / 2048)) object.ty) ≡ false }
        ensures ok { OnOk result ((o : Object) → kept self.new o ≡ (if same object o then Some value else kept self.old o)) }
        ensures err { OnErr result ((o : Object) → kept self.new o ≡ kept self.old o) }
        ensures succeeds { 1 ≤ places_room self.old → IsOk result }
        ensures room { places_room self.old ≤ places_room self.new + 1 }
    {
        let at = self.far.len();
        if at >= MOST {
            return Err(AllocError);
        }
        self.far.reserve(1)?;
        self.others.insert(object, at as u32)?;
        self.far.push(Far { object, value }).unwrap();
        Ok(())
    }

    /// Keeps a value for an object. Takes no memory where there is room, or where the object has a value; else memory up to where it stands.
    /// `AllocError` comes too where 2^32 - 1 stand beside the rows.
    pub fn put(&mut self, object: Object, value: V) -> Result<(), AllocError>
        ensures ok { OnOk result ((o : Object) → kept self.new o ≡ (if same object o then Some value else kept self.old o)) }
        ensures err { OnErr result ((o : Object) → kept self.new o ≡ kept self.old o) }
        ensures succeeds { 1 ≤ places_room self.old → IsOk result }
        ensures room { places_room self.old ≤ places_room self.new + 1 }
    {
        if self.get(object).is_some() {
            self.set(object, value);
            return Ok(());
        }
        if self.goes_far(object) {
            return self.put_far(object, value);
        }
        let filed = Filed {
            ty: Some(object.ty),
            value,
        };
        let row = (object.number % 2048) as usize;
        let at = (object.number / 2048) as usize;
        put_filed(self.alloc, &mut self.rows, row, at, filed, self.empty)?;
        Ok(())
    }

    /// Keeps another value for an object that has one. Takes no memory.
    pub fn set(&mut self, object: Object, value: V)
        requires { is_some (kept self.old object) ≡ true }
        ensures places { (o : Object) → kept self.new o ≡ (if same object o then Some value else kept self.old o) }
        ensures room { places_room self.old ≤ places_room self.new }
    {
        if value_for(self.filed(object), object.ty).is_some() {
            let filed = Filed {
                ty: Some(object.ty),
                value,
            };
            let row = (object.number % 2048) as usize;
            let at = (object.number / 2048) as usize;
            overwrite_filed(&mut self.rows, row, at, filed);
        } else if let Some(at) = own_index(&self.others, &self.far, object) {
            self.far[at].value = value;
        }
    }
}
