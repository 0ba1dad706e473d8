//! A lifetimes part: what it says of a call on its way down, and what it takes in of results.
ghost use Rattle.std.specs.Prelude.{◌≡◌, ◌≤◌, ◌+◌, ◌++◌, ◌∷◌, ℕ, [], if◌then◌else◌, false, length, vec_capacity, IfOk, IsOk, OnErr, OnOk};
ghost use Rattle.object_model.specs.Findings.{at_place, is_failing};
ghost use Rattle.object_model.specs.History.{Begins, History, Returns};
ghost use Rattle.object_model.specs.Rules.{failures};
ghost use Rattle.layer_model.specs.Histories.{LifeMirrors};
ghost use Rattle.layer_model.specs.Parts.{life_failures, life_leave, life_passed};
ghost use Rattle.object_records.specs.Shape.{AreNewOnce, HasParams, arguments_of, made_of};
ghost use Rattle.lifetime_layer.specs.Reports.{reports_of};
ghost use Rattle.lifetime_layer.specs.Shape.{HasFewPlaces, call_read};

use crate::checks::check_call;
use crate::finding::Finding;
use crate::verdict::Verdict;
use command_tables::{LayerCall, NoMemory};
use object_records::ObjectRecords;
use std::alloc::Global;
use std::marker::Model;

/// What a lifetimes part keeps: its place in the chain, and the objects that it was told of, each known by its type and its handle.
pub struct LifeState {
    place: u32,
    records: ObjectRecords,
}

impl Drop for LifeState {
    fn drop(self) {
        let LifeState {
            place: _place,
            records: _records,
        } = self;
    }
}

impl Model for LifeState {
    ghost use Rattle.lifetime_layer.specs.State.{LifePart};

    ghost Value = { LifePart };

    ghost view = { λ s. record { place = s.place; kept = s.records.kept; spare = s.records.spare } };
}

impl LifeState {
    /// Nothing is born yet. Places of a chain are numbered from 1, from the application down.
    pub fn new(alloc: Global, place: u32) -> LifeState
        ensures place { result.place ≡ place }
        ensures kept { result.kept ≡ record { births = []; living = [] } }
    {
        LifeState {
            place,
            records: ObjectRecords::new(alloc),
        }
    }

    /// A part of its own, at the same place, that keeps the same. Of room nothing is said.
    pub fn copy(&self) -> Result<LifeState, NoMemory>
        ensures place { IfOk result (λ state. state.place ≡ self.now.place) }
        ensures kept { IfOk result (λ state. state.kept ≡ self.now.kept) }
    {
        Ok(LifeState {
            place: self.place,
            records: self.records.copy()?,
        })
    }

    /// Makes room for the births of so many further objects. After `NoMemory` what is kept is as before, and no room is lost.
    pub fn reserve(&mut self, births: usize) -> Result<(), NoMemory>
        ensures place { self.new.place ≡ self.old.place }
        ensures kept { self.new.kept ≡ self.old.kept }
        ensures ok { OnOk result (births ≤ self.new.spare) }
        ensures spare { self.old.spare ≤ self.new.spare }
        ensures succeeds { births ≤ self.old.spare → IsOk result }
    {
        self.records.reserve(births)
    }

    // Adds what is found at a call, and answers whether anything is.
    #[tactic(auto, using(crate::proofs::Reports::is_more, crate::proofs::Reports::is_none, crate::proofs::Reports::quiet_where, crate::proofs::Room::long_at))]
    fn check(&self, call: &LayerCall, findings: &mut Vec<Finding>) -> Result<bool, NoMemory>
        requires shape { HasParams call.now }
        requires few { HasFewPlaces call.now }
        ensures found { OnOk result (reports_of findings.new.items ≡ reports_of findings.old.items ++ at_place self.now.place (life_failures self.now.kept call.now.cmd (arguments_of call.now))) }
        ensures quiet { is_failing (life_failures self.now.kept call.now.cmd (arguments_of call.now)) ≡ false → IsOk result }
        ensures succeeds { length findings.old.items + length (life_failures self.now.kept call.now.cmd (arguments_of call.now)) ≤ vec_capacity findings.old → IsOk result }
        ensures room { vec_capacity findings.old ≤ vec_capacity findings.new }
        ensures failing { IfOk result (λ fails. fails ≡ is_failing (life_failures self.now.kept call.now.cmd (arguments_of call.now))) }
    {
        let before = findings.len();
        check_call(&self.records, self.place, call, findings)?;
        Ok(before < findings.len())
    }

    // What a call ends lives no longer, unless it is skipped.
    fn pass(&mut self, call: &LayerCall, skip: bool)
        requires { HasParams call.now }
        ensures place { self.new.place ≡ self.old.place }
        ensures spare { self.new.spare ≡ self.old.spare }
        ensures kept { self.new.kept ≡ (if skip then self.old.kept else life_passed self.old.kept call.now.cmd (arguments_of call.now)) }
    {
        if !skip {
            self.records.end(call);
        }
    }

    /// Takes in a call on its way down. What is found goes behind the verdict's findings, in the order of the arguments; the call is
    /// skipped where there is any, and else what it ends lives no longer. Takes no memory but for findings for which there is no room;
    /// after `NoMemory` the findings may hold a part of what was found.
    pub fn enter(&mut self, call: &LayerCall, verdict: &mut Verdict) -> Result<(), NoMemory>
        requires shape { HasParams call.now }
        requires few { HasFewPlaces call.now }
        ensures found { OnOk result (reports_of verdict.new.findings.items ≡ reports_of verdict.old.findings.items ++ at_place self.old.place (life_failures self.old.kept call.now.cmd (arguments_of call.now))) }
        ensures skip { OnOk result (verdict.new.skip ≡ is_failing (life_failures self.old.kept call.now.cmd (arguments_of call.now))) }
        ensures kept { OnOk result (self.new.kept ≡ (if verdict.new.skip then self.old.kept else life_passed self.old.kept call.now.cmd (arguments_of call.now))) }
        ensures place { self.new.place ≡ self.old.place }
        ensures err { OnErr result (self.new ≡ self.old) }
        ensures spare { self.new.spare ≡ self.old.spare }
        ensures succeeds { length verdict.old.findings.items + length (life_failures self.old.kept call.now.cmd (arguments_of call.now)) ≤ vec_capacity verdict.old.findings → IsOk result }
        ensures room { vec_capacity verdict.old.findings ≤ vec_capacity verdict.new.findings }
        ensures quiet { is_failing (life_failures self.old.kept call.now.cmd (arguments_of call.now)) ≡ false → IsOk result }
        ensures finds { OnOk result ((h : History) (number thread : ℕ) → LifeMirrors h self.old.kept →
            reports_of verdict.new.findings.items ≡ reports_of verdict.old.findings.items ++ at_place self.old.place (failures h (call_read number thread call.now))) }
        ensures stands { OnOk result ((h : History) (number thread : ℕ) → LifeMirrors h self.old.kept →
            LifeMirrors (Begins (call_read number thread call.now) verdict.new.skip ∷ h) self.new.kept) }
    {
        verdict.skip = self.check(call, &mut verdict.findings)?;
        self.pass(call, verdict.skip);
        Ok(())
    }

    /// Takes in the results of a call, by the call as it stood above the part: each that isn't 0 and wasn't born is born and lives.
    /// Takes no memory where there is room for so many births. After `NoMemory` the part is as before.
    pub fn leave(&mut self, call: &LayerCall, results: &[u64]) -> Result<(), NoMemory>
        requires shape { HasParams call.now }
        requires once { AreNewOnce self.old.kept.births (made_of call.now results.now) }
        ensures kept { OnOk result (self.new.kept ≡ life_leave self.old.kept call.now.cmd (arguments_of call.now) (made_of call.now results.now)) }
        ensures place { self.new.place ≡ self.old.place }
        ensures err { OnErr result (self.new.kept ≡ self.old.kept) }
        ensures succeeds { length results.now ≤ self.old.spare → IsOk result }
        ensures spare { self.old.spare ≤ self.new.spare + length results.now }
        ensures stands { OnOk result ((h : History) (number thread : ℕ) → LifeMirrors h self.old.kept →
            LifeMirrors (Returns (call_read number thread call.now) (made_of call.now results.now) ∷ h) self.new.kept) }
    {
        self.records.bear(call, results)?;
        Ok(())
    }

    /// How many objects live.
    pub fn live_count(&self) -> usize
        ensures { result ≡ length self.now.kept.living }
    {
        self.records.live_count()
    }
}
