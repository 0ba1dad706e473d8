//! One value below each id.
ghost use Rattle.std.specs.Prelude.{◌≡◌, ◌≤◌, ◌+◌, ◌++◌, ◌∷◌, [], true, IfOk, IsOk, OnOk, OnErr};
ghost use Rattle.handle_map.specs.Pairs.{has_pair, values_of, with_values};
ghost use Rattle.layer_model.specs.Ids.{next_id};

use command_tables::{NoMemory, ObjectType};
use std::alloc::Global;
use std::marker::Model;

/// The values below ids that were issued in order, from 1 on, each with the type of its object. What belongs to an id stands one place
/// before it: no id is stored, and none is searched for. Contracts see besides how many further values can be held with no further
/// memory.
#[derive(Drop)]
pub struct IssuedValues {
    // Two columns, since one list of both would hold padding behind each type.
    types: Vec<ObjectType>,
    values: Vec<u64>,
}

impl Model for IssuedValues {
    ghost use Rattle.std.specs.Prelude.{◌≡◌, ◌-◌, length, min, vec_capacity};
    ghost use Rattle.unique_layer.specs.Values.{ValueState, numbered_from};

    ghost Value = { ValueState };

    ghost view = { λ v. record { entries = numbered_from 1 v.types.items v.values.items; spare = min (vec_capacity v.types - length v.types.items) (vec_capacity v.values - length v.values.items) } };

    ghost invariant = { λ v. length v.types.items ≡ length v.values.items };
}

impl IssuedValues {
    pub fn new(alloc: Global) -> IssuedValues
        ensures { result.entries ≡ [] }
    {
        IssuedValues {
            types: Vec::new(alloc),
            values: Vec::new(alloc),
        }
    }

    /// Values of their own, the same. Of room nothing is said.
    pub fn copy(&self) -> Result<IssuedValues, NoMemory>
        ensures { IfOk result (λ values. values.entries ≡ self.now.entries) }
    {
        let alloc = *self.types.allocator();
        Ok(IssuedValues {
            types: Vec::from_slice(alloc, &self.types)?,
            values: Vec::from_slice(alloc, &self.values)?,
        })
    }

    /// Makes room for so many further values. After `NoMemory` the values are as before, and no room is lost.
    pub fn reserve(&mut self, n: usize) -> Result<(), NoMemory>
        ensures entries { self.new.entries ≡ self.old.entries }
        ensures ok { OnOk result (n ≤ self.new.spare) }
        ensures spare { self.old.spare ≤ self.new.spare }
        ensures succeeds { n ≤ self.old.spare → IsOk result }
    {
        self.types.reserve(n)?;
        Ok(self.values.reserve(n)?)
    }

    /// Puts a value below the next id, and gives that id. After `NoMemory`, which comes only where there was no room, the values are as
    /// before.
    pub fn push(&mut self, ty: ObjectType, value: u64) -> Result<u64, NoMemory>
        ensures id { IfOk result (λ id. id ≡ next_id self.old.entries) }
        ensures ok { IfOk result (λ id. self.new.entries ≡ self.old.entries ++ record { ty = ty; id = id; values = value } ∷ []) }
        ensures err { OnErr result (self.new.entries ≡ self.old.entries) }
        ensures succeeds { 1 ≤ self.old.spare → IsOk result }
        ensures spare { self.old.spare ≤ self.new.spare + 1 }
    {
        self.reserve(1)?;
        self.types.push(ty).unwrap();
        self.values.push(value).unwrap();
        Ok(self.values.len() as u64)
    }

    /// Replaces the value below an id that was issued for this type.
    pub fn set(&mut self, ty: ObjectType, id: u64, value: u64)
        requires { has_pair self.old.entries ty id ≡ true }
        ensures entries { self.new.entries ≡ with_values self.old.entries ty id value }
        ensures spare { self.new.spare ≡ self.old.spare }
    {
        self.values[id as usize - 1] = value;
    }

    /// The value below an id, where it was issued for this type.
    pub fn get(&self, ty: ObjectType, id: u64) -> Option<u64>
        ensures { result ≡ values_of self.now.entries ty id }
    {
        let count = self.types.len();
        if id == 0 || id > count as u64 {
            return None;
        }
        let place = id as usize - 1;
        if self.types[place] == ty {
            Some(self.values[place])
        } else {
            None
        }
    }
}
