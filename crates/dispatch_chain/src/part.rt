//! A part of a chain: what it keeps, and its two steps.
ghost use Rattle.std.specs.Prelude.{◌≡◌, ◌≤◌, ◌+◌, ◌++◌, false, length, vec_capacity, IfOk, IsOk, OnOk};
ghost use Rattle.command_tables.specs.Calls.{call_content};
ghost use Rattle.object_records.specs.Shape.{HasParams};
ghost use Rattle.lifetime_layer.specs.Reports.{reports_of};
ghost use Rattle.lifetime_layer.specs.Shape.{HasFewPlaces};
ghost use Rattle.layer_model.specs.Parts.{unique_enter, unique_leave};
ghost use Rattle.layer_model.specs.Walks.{new_part};
ghost use Rattle.dispatch_chain.specs.Forms.{IsAsLarge, KeepsForm, form_room};
ghost use Rattle.dispatch_chain.specs.Kept.{IsKept, IsRising};
ghost use Rattle.dispatch_chain.specs.Room.{CanEnter, CanOpen, room_of};
ghost use Rattle.dispatch_chain.specs.Seats.{seat_at, seat_of, state_of};
ghost use Rattle.dispatch_chain.specs.Steps.{MayLeave, entered, left, left_results};

use crate::kit::Kit;
use command_tables::{LayerCall, NoMemory};
use lifetime_layer::{LifeState, Verdict};
use object_model::PartKind;
use std::alloc::Global;
use std::marker::Model;
use thread_layer::UseState;
use unique_layer::UniqueState;

/// What a part keeps.
pub enum Part {
    Threads(UseState),
    Lifetimes(LifeState),
    Unique(UniqueState),
}

impl Drop for Part {
    fn drop(self) {
        match self {
            Part::Threads(_part) => {}
            Part::Lifetimes(_part) => {}
            Part::Unique(_part) => {}
        }
    }
}

// A part that was given nothing yet.
pub(crate) fn new_part(alloc: Global, kind: PartKind, place: u32) -> Part
    ensures state { state_of result ≡ new_part kind }
    ensures seat { seat_of result ≡ seat_at place kind }
{
    match kind {
        PartKind::Threads => Part::Threads(UseState::new(alloc, place)),
        PartKind::Lifetimes => Part::Lifetimes(LifeState::new(alloc, place)),
        PartKind::Unique => Part::Unique(UniqueState::new(alloc)),
    }
}

// A part of its own that keeps the same, at the same place.
pub(crate) fn copy_part(part: &Part) -> Result<Part, NoMemory>
    ensures state { IfOk result (λ copy. state_of copy ≡ state_of part.now) }
    ensures seat { IfOk result (λ copy. seat_of copy ≡ seat_of part.now) }
{
    match part {
        Part::Threads(uses) => Ok(Part::Threads(uses.copy()?)),
        Part::Lifetimes(life) => Ok(Part::Lifetimes(life.copy()?)),
        Part::Unique(unique) => Ok(Part::Unique(unique.copy()?)),
    }
}

// A part gets room for so many further births, and a threads part for so many further open calls with so many uses in all.
pub(crate) fn reserve_part(part: &mut Part, births: usize, uses: usize) -> Result<(), NoMemory>
    ensures state { state_of part.new ≡ state_of part.old }
    ensures seat { seat_of part.new ≡ seat_of part.old }
    ensures births_room { (room_of part.old).births ≤ (room_of part.new).births }
    ensures uses_room { (room_of part.old).uses ≤ (room_of part.new).uses }
    ensures births { OnOk result (births ≤ (room_of part.new).births) }
    ensures uses { OnOk result (CanOpen uses (state_of part.old) (room_of part.new)) }
{
    match part {
        Part::Threads(state) => state.reserve(births, uses),
        Part::Lifetimes(life) => life.reserve(births),
        Part::Unique(unique) => unique.reserve(births),
    }
}

// A call comes to a unique part; its shape stays.
fn enter_unique(kit: &Kit, unique: &UniqueState, call: &mut LayerCall)
    requires shape { HasParams call.old }
    requires few { HasFewPlaces call.old }
    ensures call { call_content call.new ≡ unique_enter unique.now.ids (call_content call.old) }
    ensures shape { HasParams call.new }
    ensures few { HasFewPlaces call.new }
    ensures size { IsAsLarge (call_content call.new) (call_content call.old) }
    ensures form_room { KeepsForm (form_room call.old) (form_room call.new) }
{
    kit.enter_unique(unique, call);
}

// A call comes to a part.
#[tactic(auto, using(lifetime_layer::proofs::Room::long_at))]
pub(crate) fn enter_part(
    kit: &Kit,
    part: &mut Part,
    place: u32,
    thread: u32,
    number: u64,
    call: &mut LayerCall,
    verdict: &mut Verdict,
) -> Result<(), NoMemory>
    requires shape { HasParams call.old }
    requires few { HasFewPlaces call.old }
    requires goes { verdict.old.skip ≡ false }
    requires seat { seat_of part.old ≡ seat_at place (seat_of part.old).kind }
    ensures state { OnOk result (state_of part.new ≡ (entered thread number place (state_of part.old) (call_content call.old)).state) }
    ensures call { OnOk result (call_content call.new ≡ (entered thread number place (state_of part.old) (call_content call.old)).call) }
    ensures reports { OnOk result (reports_of verdict.new.findings.items ≡ reports_of verdict.old.findings.items ++ (entered thread number place (state_of part.old) (call_content call.old)).reports) }
    ensures skip { OnOk result (verdict.new.skip ≡ (entered thread number place (state_of part.old) (call_content call.old)).skip) }
    ensures seat { seat_of part.new ≡ seat_of part.old }
    ensures kept { IsKept (state_of part.old) → IsKept (state_of part.new) }
    ensures shape { HasParams call.new }
    ensures few { HasFewPlaces call.new }
    ensures size { IsAsLarge (call_content call.new) (call_content call.old) }
    ensures form_room { KeepsForm (form_room call.old) (form_room call.new) }
    ensures births_room { (room_of part.old).births ≤ (room_of part.new).births }
    ensures uses_room { (room_of part.old).uses ≤ (room_of part.new).uses }
    ensures findings_room { vec_capacity verdict.old.findings ≤ vec_capacity verdict.new.findings }
    ensures succeeds { CanEnter thread number (state_of part.old) (room_of part.old) (call_content call.old) →
        length verdict.old.findings.items + length (entered thread number place (state_of part.old) (call_content call.old)).reports ≤ vec_capacity verdict.old.findings → IsOk result }
{
    match part {
        Part::Threads(uses) => kit.enter_use(uses, thread, number, call, verdict),
        Part::Lifetimes(life) => kit.enter_life(life, call, verdict),
        Part::Unique(unique) => {
            enter_unique(kit, unique, call);
            Ok(())
        }
    }
}

// Results come to a unique part. Where there was no memory, it begins anew, since nothing is said of what it keeps then.
fn leave_unique(
    alloc: Global,
    kit: &Kit,
    unique: &mut UniqueState,
    form: &LayerCall,
    results: &mut [u64],
) -> Result<(), NoMemory>
    ensures left { OnOk result (record { results = results.new; ids = unique.new.ids } ≡ unique_leave unique.old.ids (call_content form.now) results.old) }
    ensures kept { IsRising unique.old.ids → IsRising unique.new.ids }
    ensures succeeds { length results.old ≤ unique.old.spare → IsOk result }
    ensures spare { OnOk result (unique.old.spare ≤ unique.new.spare + length results.old) }
{
    if let Err(error) = kit.leave_unique(unique, form, results) {
        *unique = UniqueState::new(alloc);
        return Err(error);
    }
    Ok(())
}

// Results come to a part.
pub(crate) fn leave_part(
    alloc: Global,
    kit: &Kit,
    part: &mut Part,
    thread: u32,
    form: &LayerCall,
    results: &mut [u64],
) -> Result<(), NoMemory>
    requires shape { HasParams form.now }
    requires once { MayLeave (state_of part.old) (call_content form.now) results.old }
    ensures state { OnOk result (state_of part.new ≡ left thread (state_of part.old) (call_content form.now) results.old) }
    ensures results { OnOk result (results.new ≡ left_results (state_of part.old) (call_content form.now) results.old) }
    ensures seat { seat_of part.new ≡ seat_of part.old }
    ensures kept { IsKept (state_of part.old) → IsKept (state_of part.new) }
    ensures succeeds { length results.old ≤ (room_of part.old).births → IsOk result }
    ensures births { OnOk result ((room_of part.old).births ≤ (room_of part.new).births + length results.old) }
    ensures uses { (room_of part.new).uses ≡ (room_of part.old).uses }
{
    match part {
        Part::Threads(uses) => kit.leave_use(uses, thread, form, results),
        Part::Lifetimes(life) => kit.leave_life(life, form, results),
        Part::Unique(unique) => leave_unique(alloc, kit, unique, form, results),
    }
}
