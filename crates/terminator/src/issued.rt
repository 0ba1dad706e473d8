//! The ids that were issued, with those of retrieved objects by their keys.
ghost use Rattle.std.specs.Prelude.{◌≡◌, ◌≤◌, ◌+◌, [], true, length, map, unwrap_or, IfOk, IfSome, IsOk, OnErr, OnOk};
ghost use Rattle.command_tables.specs.declared.types.ObjectType.{ObjectType};
ghost use Rattle.handle_map.specs.Pairs.{has_pair, values_of};
ghost use Rattle.layer_model.specs.Ids.{issue, kept_for, new_id, no_ids};
ghost use Rattle.layer_model.specs.Routes.{add_route};
ghost use Rattle.object_model.specs.Routes.{driver_in};
ghost use Rattle.terminator.specs.Shown.{IsKeyOf, bytes_of, key_asked};
ghost use Rattle.terminator.specs.Table.{value_of};

use crate::kept::KeptIds;
use crate::key::RetrievedKey;
use crate::table::IdTable;
use crate::value::DriverValue;
use command_tables::{NoMemory, ObjectType};
use object_model::Object;
use std::alloc::Global;
use std::marker::Model;

/// The ids with their values, and the kept ids of retrieved objects, each of which was issued.
#[derive(Drop)]
pub struct IssuedIds {
    table: IdTable,
    kept: KeptIds,
}

impl Model for IssuedIds {
    ghost use Rattle.std.specs.Prelude.{min};
    ghost use Rattle.terminator.specs.Shown.{IssuedState};
    ghost use Rattle.layer_model.specs.Ids.{AreIssued};

    ghost Value = { IssuedState };

    ghost view = { λ s. record { ids = record { entries = s.table.entries; kept = s.kept.ids }; routes = s.table.routes; spare = min s.table.spare s.kept.spare; room = s.table.room; bytes = s.kept.bytes } };

    ghost invariant = { λ s. AreIssued s.table.entries s.kept.ids };
}

impl IssuedIds {
    pub fn new(alloc: Global) -> IssuedIds
        ensures ids { result.ids ≡ no_ids }
        ensures routes { result.routes ≡ [] }
    {
        IssuedIds {
            table: IdTable::new(alloc),
            kept: KeptIds::new(alloc),
        }
    }

    /// Ids of their own, the same. Of room nothing is said.
    pub fn copy(&self) -> Result<IssuedIds, NoMemory>
        ensures ids { IfOk result (λ issued. issued.ids ≡ self.now.ids) }
        ensures routes { IfOk result (λ issued. issued.routes ≡ self.now.routes) }
    {
        Ok(IssuedIds {
            table: self.table.copy()?,
            kept: self.kept.copy()?,
        })
    }

    /// For how many further bytes of payloads there is room. Takes no memory.
    pub fn bytes_left(&self) -> usize
        ensures { result ≡ self.now.bytes }
    {
        self.kept.bytes_left()
    }

    /// Makes room for so many further ids of any owners, with so many values and so many bytes of payloads in all: what finds one faster may
    /// still take memory. After `NoMemory` the ids are as before, and no room is lost.
    pub fn make_room(&mut self, ids: usize, values: usize, bytes: usize) -> Result<(), NoMemory>
        ensures ids { self.new.ids ≡ self.old.ids }
        ensures routes { self.new.routes ≡ self.old.routes }
        ensures ok_spare { OnOk result (ids ≤ self.new.spare) }
        ensures ok_room { OnOk result (values ≤ self.new.room) }
        ensures ok_bytes { OnOk result (bytes ≤ self.new.bytes) }
        ensures spare { self.old.spare ≤ self.new.spare }
        ensures room { self.old.room ≤ self.new.room }
        ensures bytes { self.old.bytes ≤ self.new.bytes }
        ensures succeeds { ids ≤ self.old.spare → values ≤ self.old.room → bytes ≤ self.old.bytes → IsOk result }
    {
        self.table.reserve(ids, values)?;
        self.kept.make_room(ids, bytes)
    }

    /// The same for owners whose ids follow the greatest, after which so many take no memory at all.
    pub fn reserve(&mut self, ids: usize, values: usize, bytes: usize) -> Result<(), NoMemory>
        ensures ids { self.new.ids ≡ self.old.ids }
        ensures routes { self.new.routes ≡ self.old.routes }
        ensures ok_spare { OnOk result (ids ≤ self.new.spare) }
        ensures ok_room { OnOk result (values ≤ self.new.room) }
        ensures ok_bytes { OnOk result (bytes ≤ self.new.bytes) }
        ensures spare { self.old.spare ≤ self.new.spare }
        ensures room { self.old.room ≤ self.new.room }
        ensures bytes { self.old.bytes ≤ self.new.bytes }
        ensures succeeds { ids ≤ self.old.spare → values ≤ self.old.room → bytes ≤ self.old.bytes → IsOk result }
    {
        self.make_room(ids, values, bytes)?;
        self.kept.reserve(ids, bytes)
    }

    /// The values of an id of this type; none where it wasn't issued.
    pub fn values(&self, ty: ObjectType, id: u64) -> &[DriverValue]
        ensures { map value_of result.now ≡ unwrap_or (values_of self.now.ids.entries ty id) [] }
    {
        self.table.values(ty, id)
    }

    /// The driver behind an object; 0 where there is none.
    pub fn driver_of(&self, object: Object) -> u32
        ensures { result ≡ driver_in self.now.routes object }
    {
        self.table.driver_of(object)
    }

    // The id kept for a result, where the call retrieves. It was issued.
    fn kept_for(&self, key: Option<RetrievedKey<'_>>) -> Option<u64>
        ensures id { result ≡ kept_for self.now.ids.kept (key_asked key.entry) }
        ensures known { IfSome result (λ id. (t : ObjectType) → IsKeyOf t (key_asked key.entry) → has_pair self.now.ids.entries t id ≡ true) }
    {
        match key {
            None => None,
            Some(key) => self.kept.get(key),
        }
    }

    // A new id, kept by its key where the call retrieves. After `NoMemory` all is as before.
    #[tactic(auto, using(layer_model::proofs::Issued::issued_more, layer_model::proofs::Issued::issued_stay))]
    fn issue_new(
        &mut self,
        key: Option<RetrievedKey<'_>>,
        ty: ObjectType,
        driver: u32,
        values: &[DriverValue],
    ) -> Result<u64, NoMemory>
        requires { IsKeyOf ty (key_asked key) }
        ensures ids { IfOk result (λ id. record { id = id; ids = self.new.ids } ≡ new_id self.old.ids (key_asked key.entry) ty (map value_of values.now)) }
        ensures positive { IfOk result (λ id. 1 ≤ id) }
        ensures succeeds { 1 ≤ self.old.spare → length values.now ≤ self.old.room → bytes_of (key_asked key.entry) ≤ self.old.bytes → IsOk result }
        ensures spare { self.old.spare ≤ self.new.spare + 1 }
        ensures room { self.old.room ≤ self.new.room + length values.now }
        ensures bytes { self.old.bytes ≤ self.new.bytes + bytes_of (key_asked key.entry) }
        ensures routes { IfOk result (λ id. self.new.routes ≡ add_route self.old.routes (record { ty = ty; number = id }) driver) }
        ensures err { OnErr result (self.new.ids ≡ self.old.ids) }
        ensures err_routes { OnErr result (self.new.routes ≡ self.old.routes) }
    {
        if let Some(key) = key {
            self.kept.make_room(1, key.payload.len())?;
        }
        let id = self.table.add(ty, driver, values)?;
        if let Some(key) = key {
            self.kept.add(key, id).unwrap();
        }
        Ok(id)
    }

    /// The kept id of a key, else a new one, with these values; a new one has this driver behind it. After `NoMemory`, which
    /// comes only where there was no room, all is as before.
    #[tactic(auto, using(layer_model::proofs::Issued::issued_stay))]
    pub fn issue(
        &mut self,
        key: Option<RetrievedKey<'_>>,
        ty: ObjectType,
        driver: u32,
        values: &[DriverValue],
    ) -> Result<u64, NoMemory>
        requires { IsKeyOf ty (key_asked key) }
        ensures ids { IfOk result (λ id. record { id = id; ids = self.new.ids } ≡ issue self.old.ids (key_asked key.entry) ty (map value_of values.now)) }
        ensures positive { IfOk result (λ id. 1 ≤ id) }
        ensures succeeds { 1 ≤ self.old.spare → length values.now ≤ self.old.room → bytes_of (key_asked key.entry) ≤ self.old.bytes → IsOk result }
        ensures spare { self.old.spare ≤ self.new.spare + 1 }
        ensures room { self.old.room ≤ self.new.room + length values.now }
        ensures bytes { self.old.bytes ≤ self.new.bytes + bytes_of (key_asked key.entry) }
        ensures routes { IfOk result (λ id. self.new.routes ≡ add_route self.old.routes (record { ty = ty; number = id }) driver) }
        ensures err { OnErr result (self.new.ids ≡ self.old.ids) }
        ensures err_routes { OnErr result (self.new.routes ≡ self.old.routes) }
    {
        match self.kept_for(key) {
            None => self.issue_new(key, ty, driver, values),
            Some(id) => {
                self.table.put(ty, id, values)?;
                Ok(id)
            }
        }
    }
}
