//! The ids with their values.
ghost use Rattle.std.specs.Prelude.{◌≡◌, ◌≤◌, ◌+◌, [], ℕ, true, length, map, unwrap_or, IfNone, IfOk, IfSome, IsOk, OnErr, OnOk};
ghost use Rattle.command_tables.specs.Tests.{same_type};
ghost use Rattle.handle_map.specs.Pairs.{has_pair, values_of, with_values};
ghost use Rattle.layer_model.specs.Ids.{next_id};
ghost use Rattle.layer_model.specs.Routes.{add_route};
ghost use Rattle.object_model.specs.Routes.{driver_in};
ghost use Rattle.terminator.specs.Table.{HasNoPlace, IsPlace, value_of};

use crate::bare::is_routed;
use crate::entry::{IdEntry, entry_at, with_len};
use crate::value::DriverValue;
use crate::values::{make_room, span, write};
use command_tables::{NoMemory, ObjectType};
use object_model::Object;
use std::alloc::Global;
use std::marker::Model;

/// The ids that were issued, over all types together, in order from 1; for each its values, and the driver behind it. At most 4,294,967,295
/// values in all.
#[derive(Drop)]
pub struct IdTable {
    entries: Vec<IdEntry>,
    values: Vec<DriverValue>,
}

impl Model for IdTable {
    ghost use Rattle.std.specs.Prelude.{◌-◌, length, min, vec_capacity};
    ghost use Rattle.terminator.specs.Table.{IsTable, TableState, ids_from, routes_from};

    ghost Value = { TableState };

    ghost view = { λ t. record { entries = ids_from 1 t.values.items t.entries.items; routes = routes_from 1 t.entries.items; spare = vec_capacity t.entries - length t.entries.items; room = min (vec_capacity t.values) 4294967295 - length t.values.items } };

    ghost invariant = { λ t. IsTable t.entries.items t.values.items };
}

// Whether two types are one.
#[tactic(auto, unfolding(command_tables::specs::Tests::same_type))]
fn is_type(a: ObjectType, b: ObjectType) -> bool
    ensures { result ≡ same_type a b }
{
    a == b
}

// The place of the entry of an id, if it is of this type.
fn place_of(entries: &[IdEntry], ty: ObjectType, id: u64) -> Option<usize>
    ensures some { IfSome result (λ place. IsPlace entries.now ty id place) }
    ensures none { IfNone result (HasNoPlace entries.now ty id) }
{
    if id == 0 {
        return None;
    }
    let place = (id - 1) as usize;
    if entries.len() <= place {
        return None;
    }
    if is_type(entries[place].ty, ty) {
        Some(place)
    } else {
        None
    }
}

impl IdTable {
    pub fn new(alloc: Global) -> IdTable
        ensures entries { result.entries ≡ [] }
        ensures routes { result.routes ≡ [] }
    {
        IdTable {
            entries: Vec::new(alloc),
            values: Vec::new(alloc),
        }
    }

    /// The values of an id of this type; none where it wasn't issued.
    pub fn values(&self, ty: ObjectType, id: u64) -> &[DriverValue]
        ensures { map value_of result.now ≡ unwrap_or (values_of self.now.entries ty id) [] }
    {
        match place_of(&self.entries, ty, id) {
            None => &[],
            Some(place) => {
                let entry = self.entries[place];
                span(&self.values, entry.start as usize, entry.len as usize)
            }
        }
    }

    /// The driver behind an object; 0 where there is none.
    pub fn driver_of(&self, object: Object) -> u32
        ensures { result ≡ driver_in self.now.routes object }
    {
        match place_of(&self.entries, object.ty, object.number) {
            None => 0,
            Some(place) => {
                let entry = self.entries[place];
                if is_routed(object.ty) {
                    entry.driver
                } else {
                    0
                }
            }
        }
    }

    /// A table of its own with the same ids. Of room nothing is said.
    pub fn copy(&self) -> Result<IdTable, NoMemory>
        ensures entries { IfOk result (λ table. table.entries ≡ self.now.entries) }
        ensures routes { IfOk result (λ table. table.routes ≡ self.now.routes) }
    {
        let alloc = *self.entries.allocator();
        Ok(IdTable {
            entries: Vec::from_slice(alloc, &self.entries)?,
            values: Vec::from_slice(alloc, &self.values)?,
        })
    }

    /// Makes room for so many further ids with so many values in all. After `NoMemory` the ids are as before, and no room is lost.
    pub fn reserve(&mut self, ids: usize, values: usize) -> Result<(), NoMemory>
        ensures entries { self.new.entries ≡ self.old.entries }
        ensures routes { self.new.routes ≡ self.old.routes }
        ensures ok_spare { OnOk result (ids ≤ self.new.spare) }
        ensures ok_room { OnOk result (values ≤ self.new.room) }
        ensures spare { self.old.spare ≤ self.new.spare }
        ensures room { self.old.room ≤ self.new.room }
        ensures succeeds { ids ≤ self.old.spare → values ≤ self.old.room → IsOk result }
    {
        self.entries.reserve(ids)?;
        make_room(&mut self.values, values)
    }

    /// Issues the next id. After `NoMemory`, which comes only where there was no room, all is as before.
    pub fn add(
        &mut self,
        ty: ObjectType,
        driver: u32,
        values: &[DriverValue],
    ) -> Result<u64, NoMemory>
        ensures id { IfOk result (λ id. id ≡ next_id self.old.entries) }
        ensures entries { IfOk result (λ id. self.new.entries ≡ with_values self.old.entries ty id (map value_of values.now)) }
        ensures routes { IfOk result (λ id. self.new.routes ≡ add_route self.old.routes (record { ty = ty; number = id }) driver) }
        ensures err { OnErr result (self.new.entries ≡ self.old.entries) }
        ensures err_routes { OnErr result (self.new.routes ≡ self.old.routes) }
        ensures succeeds { 1 ≤ self.old.spare → length values.now ≤ self.old.room → IsOk result }
        ensures spare { self.old.spare ≤ self.new.spare + 1 }
        ensures room { self.old.room ≤ self.new.room + length values.now }
    {
        self.entries.reserve(1)?;
        make_room(&mut self.values, values.len())?;
        let entry = entry_at(ty, driver, self.values.len(), values.len());
        self.values.extend_from_slice(values).unwrap();
        self.entries.push(entry).unwrap();
        Ok(self.entries.len() as u64)
    }

    /// Gives an id that was issued other values, in place where there is room. After `NoMemory` all is as before.
    pub fn put(&mut self, ty: ObjectType, id: u64, values: &[DriverValue]) -> Result<(), NoMemory>
        requires { has_pair self.old.entries ty id ≡ true }
        ensures entries { OnOk result (self.new.entries ≡ with_values self.old.entries ty id (map value_of values.now)) }
        ensures routes { self.new.routes ≡ self.old.routes }
        ensures positive { 1 ≤ id }
        ensures known { (driver : ℕ) → add_route self.old.routes (record { ty = ty; number = id }) driver ≡ self.old.routes }
        ensures err { OnErr result (self.new.entries ≡ self.old.entries) }
        ensures succeeds { length values.now ≤ self.old.room → IsOk result }
        ensures spare { self.old.spare ≤ self.new.spare }
        ensures room { self.old.room ≤ self.new.room + length values.now }
    {
        let _count = self.entries.len();
        let place = (id - 1) as usize;
        let entry = self.entries[place];
        let len = values.len();
        if len <= entry.len as usize {
            write(&mut self.values, entry.start as usize, values);
            self.entries[place] = with_len(entry, len);
        } else {
            make_room(&mut self.values, len)?;
            let start = self.values.len();
            self.values.extend_from_slice(values).unwrap();
            self.entries[place] = entry_at(entry.ty, entry.driver, start, len);
        }
        Ok(())
    }
}
