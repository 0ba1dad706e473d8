//! The functions of the three kinds of part, each beside what it answers.
ghost use Rattle.std.specs.Prelude.{◌≡◌, ◌≤◌, ◌+◌, ◌++◌, false, if◌then◌else◌, length, vec_capacity, IsOk, OnOk, OnErr};
ghost use Rattle.command_tables.specs.Calls.{call_content};
ghost use Rattle.object_model.specs.Findings.{at_place, is_failing};
ghost use Rattle.layer_model.specs.Parts.{life_failures, life_leave, life_passed, unique_enter, unique_leave, use_enter, use_failures, use_leave};
ghost use Rattle.object_records.specs.Shape.{AreNewOnce, HasParams, arguments_of, made_of};
ghost use Rattle.lifetime_layer.specs.Reports.{reports_of};
ghost use Rattle.lifetime_layer.specs.Shape.{HasFewPlaces};
ghost use Rattle.thread_layer.specs.Room.{HaveRoom};
ghost use Rattle.dispatch_chain.specs.Forms.{KeepsForm, form_room};
ghost use Rattle.dispatch_chain.specs.Answers.{LifeEnters, LifeLeaves, LifeMayEnter, LifeMayLeave, UniqueEnters, UniqueLeaves, UniqueMayEnter, UniqueMayLeave, UseEnters, UseLeaves, UseMayEnter, UseMayLeave};

use command_tables::{LayerCall, NoMemory};
use lifetime_layer::{LifeState, Verdict};
use thread_layer::UseState;
use unique_layer::UniqueState;

/// Enters a unique part.
pub type UniqueEnter = fn(&UniqueState, &mut LayerCall);

/// Leaves a unique part.
pub type UniqueLeave = fn(&mut UniqueState, &LayerCall, &mut [u64]) -> Result<(), NoMemory>;

/// Enters a lifetimes part.
pub type LifeEnter = fn(&mut LifeState, &LayerCall, &mut Verdict) -> Result<(), NoMemory>;

/// Leaves a lifetimes part.
pub type LifeLeave = fn(&mut LifeState, &LayerCall, &[u64]) -> Result<(), NoMemory>;

/// Enters a threads part.
pub type UseEnter = fn(&mut UseState, u32, u64, &LayerCall, &mut Verdict) -> Result<(), NoMemory>;

/// Leaves a threads part.
pub type UseLeave = fn(&mut UseState, u32, &LayerCall, &[u64]) -> Result<(), NoMemory>;

/// The functions that a table of a chain calls.
#[derive(Clone, Copy)]
pub struct Kit {
    unique_enter: UniqueEnter,
    unique_leave: UniqueLeave,
    life_enter: LifeEnter,
    life_leave: LifeLeave,
    use_enter: UseEnter,
    use_leave: UseLeave,
    ghost unique_may_enter: { UniqueMayEnter (UniqueEnter.pre unique_enter) },
    ghost unique_enters: { UniqueEnters (UniqueEnter.post unique_enter) },
    ghost unique_may_leave: { UniqueMayLeave (UniqueLeave.pre unique_leave) },
    ghost unique_leaves: { UniqueLeaves (UniqueLeave.post unique_leave) },
    ghost life_may_enter: { LifeMayEnter (LifeEnter.pre life_enter) },
    ghost life_enters: { LifeEnters (LifeEnter.post life_enter) },
    ghost life_may_leave: { LifeMayLeave (LifeLeave.pre life_leave) },
    ghost life_leaves: { LifeLeaves (LifeLeave.post life_leave) },
    ghost use_may_enter: { UseMayEnter (UseEnter.pre use_enter) },
    ghost use_enters: { UseEnters (UseEnter.post use_enter) },
    ghost use_may_leave: { UseMayLeave (UseLeave.pre use_leave) },
    ghost use_leaves: { UseLeaves (UseLeave.post use_leave) },
}

impl Kit {
    /// Keeps six functions, each of which answers what the layer's own call promises, wherever that call's own conditions hold.
    pub fn new(
        unique_enter: UniqueEnter,
        unique_leave: UniqueLeave,
        life_enter: LifeEnter,
        life_leave: LifeLeave,
        use_enter: UseEnter,
        use_leave: UseLeave,
    ) -> Kit
        requires unique_may_enter { UniqueMayEnter (UniqueEnter.pre unique_enter) }
        requires unique_enters { UniqueEnters (UniqueEnter.post unique_enter) }
        requires unique_may_leave { UniqueMayLeave (UniqueLeave.pre unique_leave) }
        requires unique_leaves { UniqueLeaves (UniqueLeave.post unique_leave) }
        requires life_may_enter { LifeMayEnter (LifeEnter.pre life_enter) }
        requires life_enters { LifeEnters (LifeEnter.post life_enter) }
        requires life_may_leave { LifeMayLeave (LifeLeave.pre life_leave) }
        requires life_leaves { LifeLeaves (LifeLeave.post life_leave) }
        requires use_may_enter { UseMayEnter (UseEnter.pre use_enter) }
        requires use_enters { UseEnters (UseEnter.post use_enter) }
        requires use_may_leave { UseMayLeave (UseLeave.pre use_leave) }
        requires use_leaves { UseLeaves (UseLeave.post use_leave) }
    {
        Kit {
            unique_enter,
            unique_leave,
            life_enter,
            life_leave,
            use_enter,
            use_leave,
        }
    }

    // A unique part is entered.
    pub(crate) fn enter_unique(&self, unique: &UniqueState, call: &mut LayerCall)
        ensures call { call_content call.new ≡ unique_enter unique.now.ids (call_content call.old) }
        ensures form_room { KeepsForm (form_room call.old) (form_room call.new) }
    {
        (self.unique_enter)(unique, call)
    }

    // A unique part is left.
    pub(crate) fn leave_unique(
        &self,
        unique: &mut UniqueState,
        call: &LayerCall,
        results: &mut [u64],
    ) -> Result<(), NoMemory>
        ensures left { OnOk result (record { results = results.new; ids = unique.new.ids } ≡ unique_leave unique.old.ids (call_content call.now) results.old) }
        ensures succeeds { length results.old ≤ unique.old.spare → IsOk result }
        ensures spare { unique.old.spare ≤ unique.new.spare + length results.old }
    {
        (self.unique_leave)(unique, call, results)
    }

    // A lifetimes part is entered.
    pub(crate) fn enter_life(
        &self,
        life: &mut LifeState,
        call: &LayerCall,
        verdict: &mut Verdict,
    ) -> Result<(), NoMemory>
        requires shape { HasParams call.now }
        requires few { HasFewPlaces call.now }
        ensures found { OnOk result (reports_of verdict.new.findings.items ≡ reports_of verdict.old.findings.items ++ at_place life.old.place (life_failures life.old.kept call.now.cmd (arguments_of call.now))) }
        ensures skip { OnOk result (verdict.new.skip ≡ is_failing (life_failures life.old.kept call.now.cmd (arguments_of call.now))) }
        ensures kept { OnOk result (life.new.kept ≡ (if verdict.new.skip then life.old.kept else life_passed life.old.kept call.now.cmd (arguments_of call.now))) }
        ensures place { life.new.place ≡ life.old.place }
        ensures spare { life.new.spare ≡ life.old.spare }
        ensures room { vec_capacity verdict.old.findings ≤ vec_capacity verdict.new.findings }
        ensures succeeds { length verdict.old.findings.items + length (life_failures life.old.kept call.now.cmd (arguments_of call.now)) ≤ vec_capacity verdict.old.findings → IsOk result }
    {
        (self.life_enter)(life, call, verdict)
    }

    // A lifetimes part is left.
    pub(crate) fn leave_life(
        &self,
        life: &mut LifeState,
        call: &LayerCall,
        results: &[u64],
    ) -> Result<(), NoMemory>
        requires shape { HasParams call.now }
        requires once { AreNewOnce life.old.kept.births (made_of call.now results.now) }
        ensures kept { OnOk result (life.new.kept ≡ life_leave life.old.kept call.now.cmd (arguments_of call.now) (made_of call.now results.now)) }
        ensures place { life.new.place ≡ life.old.place }
        ensures succeeds { length results.now ≤ life.old.spare → IsOk result }
        ensures spare { life.old.spare ≤ life.new.spare + length results.now }
    {
        (self.life_leave)(life, call, results)
    }

    // A threads part is entered.
    pub(crate) fn enter_use(
        &self,
        uses: &mut UseState,
        thread: u32,
        number: u64,
        call: &LayerCall,
        verdict: &mut Verdict,
    ) -> Result<(), NoMemory>
        requires shape { HasParams call.now }
        requires few { HasFewPlaces call.now }
        ensures found { OnOk result (reports_of verdict.new.findings.items ≡ reports_of verdict.old.findings.items ++ at_place uses.old.place (use_failures uses.old.kept thread call.now.cmd (arguments_of call.now))) }
        ensures kept { OnOk result (uses.new.kept ≡ use_enter uses.old.kept thread number call.now.cmd (arguments_of call.now)) }
        ensures skip { verdict.new.skip ≡ verdict.old.skip }
        ensures place { uses.new.place ≡ uses.old.place }
        ensures spare { uses.new.spare ≡ uses.old.spare }
        ensures room { uses.old.room ≤ uses.new.room }
        ensures findings_room { vec_capacity verdict.old.findings ≤ vec_capacity verdict.new.findings }
        ensures succeeds { HaveRoom (use_enter uses.old.kept thread number call.now.cmd (arguments_of call.now)).opens uses.old.room →
            length verdict.old.findings.items + length (use_failures uses.old.kept thread call.now.cmd (arguments_of call.now)) ≤ vec_capacity verdict.old.findings → IsOk result }
    {
        (self.use_enter)(uses, thread, number, call, verdict)
    }

    // A threads part is left.
    pub(crate) fn leave_use(
        &self,
        uses: &mut UseState,
        thread: u32,
        call: &LayerCall,
        results: &[u64],
    ) -> Result<(), NoMemory>
        requires shape { HasParams call.now }
        requires once { AreNewOnce uses.old.kept.births (made_of call.now results.now) }
        ensures kept { OnOk result (uses.new.kept ≡ use_leave uses.old.kept thread call.now.cmd (arguments_of call.now) (made_of call.now results.now)) }
        ensures place { uses.new.place ≡ uses.old.place }
        ensures succeeds { length results.now ≤ uses.old.spare → IsOk result }
        ensures spare { uses.old.spare ≤ uses.new.spare + length results.now }
        ensures room { uses.new.room ≡ uses.old.room }
    {
        (self.use_leave)(uses, thread, call, results)
    }
}
