//! What a threads part keeps, and its two steps.
ghost use Rattle.std.specs.Prelude.{◌≡◌, ◌≤◌, ◌+◌, ◌++◌, ◌∷◌, [], ℕ, false, length, vec_capacity, IfOk, IsOk, OnErr, OnOk};
ghost use Rattle.object_model.specs.Findings.{at_place};
ghost use Rattle.object_model.specs.History.{Begins, History, Returns};
ghost use Rattle.object_model.specs.Uses.{overlaps};
ghost use Rattle.layer_model.specs.Histories.{UseMirrors};
ghost use Rattle.layer_model.specs.Parts.{use_enter, use_failures, use_leave};
ghost use Rattle.object_records.specs.Shape.{AreNewOnce, HasParams, arguments_of, made_of};
ghost use Rattle.lifetime_layer.specs.Reports.{reports_of};
ghost use Rattle.lifetime_layer.specs.Shape.{HasFewPlaces, call_read};
ghost use Rattle.thread_layer.specs.Room.{HaveRoom, uses_held};

use crate::gathering::{Beside, Gathered, gather};
use crate::open_uses::OpenUses;
use command_tables::{LayerCall, NoMemory};
use lifetime_layer::Verdict;
use object_records::ObjectRecords;
use std::alloc::Global;
use std::marker::Model;

/// What a threads part was told of: which objects were born and live, and the open calls with what they use, the oldest first.
pub struct UseState {
    place: u32,
    records: ObjectRecords,
    opens: OpenUses,
    // Room for what is gathered of one call.
    gathered: Gathered,
}

impl Drop for UseState {
    fn drop(self) {
        let UseState {
            place: _place,
            records: _records,
            opens: _opens,
            gathered: _gathered,
        } = self;
    }
}

impl Model for UseState {
    ghost use Rattle.std.specs.Prelude.{min};
    ghost use Rattle.thread_layer.specs.Kept.{PlacedUses, with_opens};
    ghost use Rattle.thread_layer.specs.Room.{gathered_room};

    ghost Value = { PlacedUses };

    ghost view = { λ s. record { place = s.place; kept = with_opens s.records.kept s.opens.opens; spare = s.records.spare; room = min s.opens.room (gathered_room s.gathered) } };
}

impl UseState {
    /// Nothing is born yet, and no call is open. Places of a chain are numbered from 1, from the application down.
    pub fn new(alloc: Global, place: u32) -> UseState
        ensures place { result.place ≡ place }
        ensures kept { result.kept ≡ record { births = []; living = []; opens = [] } }
    {
        UseState {
            place,
            records: ObjectRecords::new(alloc),
            opens: OpenUses::new(alloc),
            gathered: Gathered {
                uses: Vec::new(alloc),
                implied: Vec::new(alloc),
            },
        }
    }

    /// A part of its own, at the same place, that keeps the same. Of room nothing is said.
    pub fn copy(&self) -> Result<UseState, NoMemory>
        ensures place { IfOk result (λ state. state.place ≡ self.now.place) }
        ensures kept { IfOk result (λ state. state.kept ≡ self.now.kept) }
    {
        let alloc = *self.gathered.uses.allocator();
        Ok(UseState {
            place: self.place,
            records: self.records.copy()?,
            opens: self.opens.copy()?,
            gathered: Gathered {
                uses: Vec::new(alloc),
                implied: Vec::new(alloc),
            },
        })
    }

    // Makes room for so many further open calls, and for so many uses, in all and of one call.
    fn reserve_uses(&mut self, uses: usize) -> Result<(), NoMemory>
        ensures place { self.new.place ≡ self.old.place }
        ensures kept { self.new.kept ≡ self.old.kept }
        ensures spare { self.new.spare ≡ self.old.spare }
        ensures ok_calls { OnOk result (length self.old.kept.opens + uses ≤ self.new.room) }
        ensures ok_uses { OnOk result (uses_held self.old.kept.opens + uses ≤ self.new.room) }
        ensures room { self.old.room ≤ self.new.room }
    {
        self.opens.reserve(uses)?;
        let room = self.opens.size().checked_add(uses).ok_or(NoMemory)?;
        self.gathered.uses.clear();
        self.gathered.uses.reserve(room)?;
        self.gathered.implied.clear();
        self.gathered.implied.reserve(room)?;
        Ok(())
    }

    /// Makes room for the births of so many further objects, and for so many further open calls, with so many uses in all. What closes
    /// gives its room back. After `NoMemory` what is kept is as before, and no room is lost.
    pub fn reserve(&mut self, births: usize, uses: usize) -> Result<(), NoMemory>
        ensures place { self.new.place ≡ self.old.place }
        ensures kept { self.new.kept ≡ self.old.kept }
        ensures ok_births { OnOk result (births ≤ self.new.spare) }
        ensures ok_calls { OnOk result (length self.old.kept.opens + uses ≤ self.new.room) }
        ensures ok_uses { OnOk result (uses_held self.old.kept.opens + uses ≤ self.new.room) }
        ensures spare { self.old.spare ≤ self.new.spare }
        ensures room { self.old.room ≤ self.new.room }
    {
        self.records.reserve(births)?;
        self.reserve_uses(uses)
    }

    /// A call with this number begins on a thread. What is found goes behind the verdict's findings, in the order of the arguments: at
    /// most one for each, with the least number of an open call of another thread that conflicts. The call is open until the thread's
    /// results come, also where a part further on skips it. After `NoMemory` the findings may hold a part of what was found.
    pub fn enter(
        &mut self,
        thread: u32,
        number: u64,
        call: &LayerCall,
        verdict: &mut Verdict,
    ) -> Result<(), NoMemory>
        requires shape { HasParams call.now }
        requires few { HasFewPlaces call.now }
        ensures findings { OnOk result (reports_of verdict.new.findings.items ≡ reports_of verdict.old.findings.items ++ at_place self.old.place (use_failures self.old.kept thread call.now.cmd (arguments_of call.now))) }
        ensures kept { OnOk result (self.new.kept ≡ use_enter self.old.kept thread number call.now.cmd (arguments_of call.now)) }
        ensures skip { verdict.new.skip ≡ verdict.old.skip }
        ensures place { self.new.place ≡ self.old.place }
        ensures err { OnErr result (self.new.kept ≡ self.old.kept) }
        ensures spare { self.new.spare ≡ self.old.spare }
        ensures room { self.old.room ≤ self.new.room }
        ensures findings_room { vec_capacity verdict.old.findings ≤ vec_capacity verdict.new.findings }
        ensures succeeds { HaveRoom (use_enter self.old.kept thread number call.now.cmd (arguments_of call.now)).opens self.old.room →
            length verdict.old.findings.items + length (use_failures self.old.kept thread call.now.cmd (arguments_of call.now)) ≤ vec_capacity verdict.old.findings → IsOk result }
        ensures overlaps { OnOk result ((h : History) → UseMirrors h self.old.kept → reports_of verdict.new.findings.items ≡ reports_of verdict.old.findings.items ++ at_place self.old.place (overlaps h (call_read number thread call.now))) }
        ensures stands { OnOk result ((h : History) → UseMirrors h self.old.kept → UseMirrors (Begins (call_read number thread call.now) false ∷ h) self.new.kept) }
    {
        self.take_in(thread, number, call, verdict)?;
        Ok(())
    }

    // The same, without what it says of histories.
    fn take_in(
        &mut self,
        thread: u32,
        number: u64,
        call: &LayerCall,
        verdict: &mut Verdict,
    ) -> Result<(), NoMemory>
        requires shape { HasParams call.now }
        requires few { HasFewPlaces call.now }
        ensures findings { OnOk result (reports_of verdict.new.findings.items ≡ reports_of verdict.old.findings.items ++ at_place self.old.place (use_failures self.old.kept thread call.now.cmd (arguments_of call.now))) }
        ensures kept { OnOk result (self.new.kept ≡ use_enter self.old.kept thread number call.now.cmd (arguments_of call.now)) }
        ensures skip { verdict.new.skip ≡ verdict.old.skip }
        ensures place { self.new.place ≡ self.old.place }
        ensures err { OnErr result (self.new.kept ≡ self.old.kept) }
        ensures spare { self.new.spare ≡ self.old.spare }
        ensures room { self.old.room ≤ self.new.room }
        ensures findings_room { vec_capacity verdict.old.findings ≤ vec_capacity verdict.new.findings }
        ensures succeeds { HaveRoom (use_enter self.old.kept thread number call.now.cmd (arguments_of call.now)).opens self.old.room →
            length verdict.old.findings.items + length (use_failures self.old.kept thread call.now.cmd (arguments_of call.now)) ≤ vec_capacity verdict.old.findings → IsOk result }
    {
        let beside = Beside {
            records: &self.records,
            opens: &self.opens,
            place: self.place,
            thread,
        };
        gather(beside, call, &mut self.gathered, verdict)?;
        self.opens.add(number, thread, &self.gathered.uses)?;
        self.records.end(call);
        Ok(())
    }

    /// The results of a thread's open call come: the call is open no longer, and each result that isn't 0 and wasn't born is born and
    /// lives. After `NoMemory`, which comes only where there was no room for so many births, the part is as before.
    pub fn leave(&mut self, thread: u32, call: &LayerCall, results: &[u64]) -> Result<(), NoMemory>
        requires shape { HasParams call.now }
        requires once { AreNewOnce self.old.kept.births (made_of call.now results.now) }
        ensures kept { OnOk result (self.new.kept ≡ use_leave self.old.kept thread call.now.cmd (arguments_of call.now) (made_of call.now results.now)) }
        ensures place { self.new.place ≡ self.old.place }
        ensures err { OnErr result (self.new.kept ≡ self.old.kept) }
        ensures succeeds { length results.now ≤ self.old.spare → IsOk result }
        ensures spare { self.old.spare ≤ self.new.spare + length results.now }
        ensures room { self.new.room ≡ self.old.room }
        ensures stands { OnOk result ((h : History) (number : ℕ) → UseMirrors h self.old.kept → UseMirrors (Returns (call_read number thread call.now) (made_of call.now results.now) ∷ h) self.new.kept) }
    {
        self.take_back(thread, call, results)?;
        Ok(())
    }

    // The same, without what it says of histories.
    fn take_back(&mut self, thread: u32, call: &LayerCall, results: &[u64]) -> Result<(), NoMemory>
        requires shape { HasParams call.now }
        requires once { AreNewOnce self.old.kept.births (made_of call.now results.now) }
        ensures kept { OnOk result (self.new.kept ≡ use_leave self.old.kept thread call.now.cmd (arguments_of call.now) (made_of call.now results.now)) }
        ensures place { self.new.place ≡ self.old.place }
        ensures err { OnErr result (self.new.kept ≡ self.old.kept) }
        ensures succeeds { length results.now ≤ self.old.spare → IsOk result }
        ensures spare { self.old.spare ≤ self.new.spare + length results.now }
        ensures room { self.new.room ≡ self.old.room }
    {
        self.records.bear(call, results)?;
        self.opens.close(thread);
        Ok(())
    }
}
