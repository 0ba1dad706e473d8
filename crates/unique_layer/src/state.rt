//! A unique part: its ids with the handles below them.
ghost use Rattle.std.specs.Prelude.{◌≡◌, ◌<◌, ◌≤◌, ◌+◌, map, length, true, unwrap_or, slice_set, IfOk, IfSome, vec_capacity, IsOk, OnErr, OnOk};
ghost use Rattle.command_tables.specs.Handles.{HasRoom, list_at};
ghost use Rattle.command_tables.specs.Table.{seen_param};
ghost use Rattle.command_tables.specs.Calls.{call_content};
ghost use Rattle.layer_model.specs.Ids.{issue, issue_all, kept_for, known, new_id, no_ids};
ghost use Rattle.handle_map.specs.Pairs.{has_pair, values_of};
ghost use Rattle.layer_model.specs.Parts.{below_handles, below_params, there, unique_enter, unique_leave};
ghost use Rattle.unique_layer.specs.Shown.{key_asked};

use crate::issued_values::IssuedValues;
use crate::kept::KeptIds;
use crate::key::{RetrievedKey, key_at};
use crate::reading::key_of;
use crate::wrapped::wraps;
use command_tables::{HandleArgs, LayerCall, NoMemory, ObjectType, Param, row};
use std::alloc::Global;
use std::marker::Model;

/// What a unique part keeps: its ids with the handles below them, and the ids of retrieved objects by their keys, the oldest
/// first. Contracts see besides how many objects can be born to it with no further memory.
pub struct UniqueState {
    ids: IssuedValues,
    kept: KeptIds,
}

impl Drop for UniqueState {
    fn drop(self) {
        let UniqueState {
            ids: _ids,
            kept: _kept,
        } = self;
    }
}

impl Model for UniqueState {
    ghost use Rattle.std.specs.Prelude.{min};
    ghost use Rattle.layer_model.specs.Ids.{AreIssued};
    ghost use Rattle.unique_layer.specs.Shown.{UniqueKept};

    ghost Value = { UniqueKept };

    ghost view = { λ s. record { ids = record { entries = s.ids.entries; kept = s.kept.ids }; spare = min s.ids.spare s.kept.spare } };

    ghost invariant = { λ s. AreIssued s.ids.entries s.kept.ids };
}

impl UniqueState {
    /// A part that has issued nothing.
    pub fn new(alloc: Global) -> UniqueState
        ensures { result.ids ≡ no_ids }
    {
        UniqueState {
            ids: IssuedValues::new(alloc),
            kept: KeptIds::new(alloc),
        }
    }

    /// A part of its own that keeps the same. Of room nothing is said.
    pub fn copy(&self) -> Result<UniqueState, NoMemory>
        ensures { IfOk result (λ state. state.ids ≡ self.now.ids) }
    {
        Ok(UniqueState {
            ids: self.ids.copy()?,
            kept: self.kept.copy()?,
        })
    }

    /// Makes room for the births of so many further objects. After `NoMemory` what is kept is as before, and no room is lost.
    pub fn reserve(&mut self, births: usize) -> Result<(), NoMemory>
        ensures ids { self.new.ids ≡ self.old.ids }
        ensures ok { OnOk result (births ≤ self.new.spare) }
        ensures spare { self.old.spare ≤ self.new.spare }
        ensures succeeds { births ≤ self.old.spare → IsOk result }
    {
        if births == 0 {
            return Ok(());
        }
        self.make_room(births)?;
        self.kept.reserve(births)
    }

    // The same, whatever the ids of their owners.
    fn make_room(&mut self, births: usize) -> Result<(), NoMemory>
        ensures ids { self.new.ids ≡ self.old.ids }
        ensures ok { OnOk result (births ≤ self.new.spare) }
        ensures spare { self.old.spare ≤ self.new.spare }
        ensures succeeds { 1 ≤ births → births ≤ self.old.spare → IsOk result }
    {
        self.ids.reserve(births)?;
        self.kept.make_room(births)
    }

    // The handle below an id, and 0 below an unknown one.
    fn value_below(&self, ty: ObjectType, id: u64) -> u64
        ensures { result ≡ unwrap_or (values_of self.now.ids.entries ty id) 0 }
    {
        self.ids.get(ty, id).unwrap_or(0)
    }

    // The handles of one parameter are replaced by those below.
    fn replace(&self, ty: ObjectType, args: &mut HandleArgs<6>, p: usize)
        requires { p < length args.old.lists }
        ensures lists { args.new.lists ≡ slice_set args.old.lists p (map (λ h. unwrap_or (values_of self.now.ids.entries ty h) 0) (list_at args.old.lists p)) }
        ensures marks { args.new.marks ≡ args.old.marks }
        ensures room { HasRoom args.new args.old.slots args.old.room }
    {
        for k in 0..args.param(p).len() {
            let handle = args.param(p)[k];
            args.set(p, k, self.value_below(ty, handle));
        }
    }

    // One parameter is replaced where the part issues ids for its type.
    #[tactic(auto, using(crate::proofs::Places::own, crate::proofs::Places::set_beyond))]
    fn enter_param(&self, ty: ObjectType, args: &mut HandleArgs<6>, p: usize)
        ensures lists { args.new.lists ≡ slice_set args.old.lists p (below_handles self.now.ids ty (list_at args.old.lists p)) }
        ensures marks { args.new.marks ≡ args.old.marks }
        ensures room { HasRoom args.new args.old.slots args.old.room }
    {
        if p < args.len() && wraps(ty) {
            self.replace(ty, args, p);
        }
    }

    // All parameters are.
    fn enter_params(&self, params: &[Param], args: &mut HandleArgs<6>)
        ensures lists { args.new.lists ≡ below_params self.now.ids (map seen_param params.now) args.old.lists }
        ensures marks { args.new.marks ≡ args.old.marks }
        ensures room { HasRoom args.new args.old.slots args.old.room }
    {
        for p in 0..params.len() {
            self.enter_param(params[p].ty, args, p);
        }
    }

    /// The call as it goes on: each handle of a type for which the part issues ids is replaced by the one below it, and by 0
    /// where the id is unknown. No room is lost.
    pub fn enter(&self, call: &mut LayerCall)
        ensures call { call_content call.new ≡ unique_enter self.now.ids (call_content call.old) }
        ensures room { HasRoom call.new.args call.old.args.slots call.old.args.room }
        ensures bytes { vec_capacity call.old.payload ≤ vec_capacity call.new.payload }
    {
        self.enter_params(row(call.cmd).params, &mut call.args);
    }

    // The id kept for a result, where the call retrieves. It was issued for the key's type.
    fn kept_for(&self, key: Option<RetrievedKey>) -> Option<u64>
        ensures id { result ≡ kept_for self.now.ids.kept (key_asked key) }
        ensures issued { IfSome key (λ key. IfSome result (λ id. has_pair self.now.ids.entries key.ty id ≡ true)) }
    {
        match key {
            None => None,
            Some(key) => self.kept.get(key),
        }
    }

    // An id that was issued for this type gets the new value.
    #[tactic(auto, using(layer_model::proofs::Issued::issued_stay))]
    fn put_known(&mut self, ty: ObjectType, id: u64, value: u64)
        requires { has_pair self.old.ids.entries ty id ≡ true }
        ensures ids { record { id = id; ids = self.new.ids } ≡ known self.old.ids ty id value }
        ensures spare { self.new.spare ≡ self.old.spare }
    {
        self.ids.set(ty, id, value);
    }

    // A new id, kept by its key where the call retrieves.
    #[tactic(auto, using(crate::proofs::Keeping::put_last, crate::proofs::Keeping::issued_next))]
    fn put_new(
        &mut self,
        key: Option<RetrievedKey>,
        ty: ObjectType,
        value: u64,
    ) -> Result<u64, NoMemory>
        requires { IfSome (key_asked key) (λ key. key.ty ≡ ty) }
        ensures ids { IfOk result (λ id. record { id = id; ids = self.new.ids } ≡ new_id self.old.ids (key_asked key) ty value) }
        ensures err { OnErr result (self.new.ids ≡ self.old.ids) }
        ensures succeeds { 1 ≤ self.old.spare → IsOk result }
        ensures spare { self.old.spare ≤ self.new.spare + 1 }
    {
        if key.is_some() {
            self.kept.make_room(1)?;
        }
        let id = self.ids.push(ty, value)?;
        if let Some(key) = key {
            self.kept.add(key, id).unwrap();
        }
        Ok(id)
    }

    // The kept id of a key, else a new one; the handle below it is the new one.
    fn issue(
        &mut self,
        key: Option<RetrievedKey>,
        ty: ObjectType,
        value: u64,
    ) -> Result<u64, NoMemory>
        requires { IfSome (key_asked key) (λ key. key.ty ≡ ty) }
        ensures ids { IfOk result (λ id. record { id = id; ids = self.new.ids } ≡ issue self.old.ids (key_asked key) ty value) }
        ensures err { OnErr result (self.new.ids ≡ self.old.ids) }
        ensures succeeds { 1 ≤ self.old.spare → IsOk result }
        ensures spare { self.old.spare ≤ self.new.spare + 1 }
    {
        match self.kept_for(key) {
            None => self.put_new(key, ty, value),
            Some(id) => {
                self.put_known(ty, id, value);
                Ok(id)
            }
        }
    }

    // The results of a call of which each gets an id; 0 stays.
    #[tactic(auto, using(crate::proofs::Issued::lost_step, crate::proofs::Issued::issued_step))]
    fn issue_all(
        &mut self,
        key: Option<RetrievedKey>,
        ty: ObjectType,
        results: &mut [u64],
    ) -> Result<(), NoMemory>
        requires key { IfSome (key_asked key) (λ key. key.ty ≡ ty) }
        requires room { 1 < length results.old → length results.old ≤ self.old.spare }
        ensures ids { OnOk result (record { results = results.new; ids = self.new.ids } ≡ issue_all self.old.ids (key_asked key) ty 0 (map there results.old)) }
        ensures err { OnErr result (self.new.ids ≡ self.old.ids) }
        ensures same { OnErr result (results.new ≡ results.old) }
        ensures succeeds { length results.old ≤ self.old.spare → IsOk result }
        ensures spare { self.old.spare ≤ self.new.spare + length results.old }
    {
        for k in 0..results.len() {
            if results[k] != 0 {
                results[k] = self.issue(key_at(key, k), ty, results[k])?;
            }
        }
        Ok(())
    }

    // The same, and all stays as before where there is no memory, as it does at one result alone.
    fn issue_all_or_none(
        &mut self,
        key: Option<RetrievedKey>,
        ty: ObjectType,
        results: &mut [u64],
    ) -> Result<(), NoMemory>
        requires { IfSome (key_asked key) (λ key. key.ty ≡ ty) }
        ensures ids { OnOk result (record { results = results.new; ids = self.new.ids } ≡ issue_all self.old.ids (key_asked key) ty 0 (map there results.old)) }
        ensures err { OnErr result (self.new.ids ≡ self.old.ids) }
        ensures same { OnErr result (results.new ≡ results.old) }
        ensures succeeds { length results.old ≤ self.old.spare → IsOk result }
        ensures spare { self.old.spare ≤ self.new.spare + length results.old }
    {
        if results.len() > 1 {
            self.make_room(results.len())?;
        }
        self.issue_all(key, ty, results)
    }

    /// Results on their way up, by the call as it stood above: each that isn't 0 gets an id where the part issues ids for its
    /// type. A created one gets a new id, one above the greatest; a retrieved one the kept id of its owner, type and place, else
    /// a new one. The handle below that id is the new one. After `NoMemory`, which comes only where there was no room for so many
    /// births, the part and the results are as before.
    pub fn leave(&mut self, upper: &LayerCall, results: &mut [u64]) -> Result<(), NoMemory>
        ensures ids { OnOk result (record { results = results.new; ids = self.new.ids } ≡ unique_leave self.old.ids (call_content upper.now) results.old) }
        ensures err { OnErr result (self.new.ids ≡ self.old.ids) }
        ensures same { OnErr result (results.new ≡ results.old) }
        ensures succeeds { length results.old ≤ self.old.spare → IsOk result }
        ensures spare { self.old.spare ≤ self.new.spare + length results.old }
    {
        let row = row(upper.cmd);
        match row.effect.type_made() {
            Some(ty) if wraps(ty) => {
                let key = key_of(row.params, &upper.args, row.effect);
                self.issue_all_or_none(key, ty, results)
            }
            _ => Ok(()),
        }
    }
}
