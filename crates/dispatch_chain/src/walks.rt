//! The walk of a call down the parts of a chain, and of its results up.
ghost use Rattle.std.specs.Prelude.{◌≡◌, ◌<◌, ◌≤◌, ◌+◌, ◌-◌, ◌++◌, ◌⊎◌, ℕ, false, get_or, is_some, length, map, slice_get, true, vec_capacity, IsOk, List, OnOk, Some};
ghost use Rattle.command_tables.specs.Calls.{CallContent, call_content};
ghost use Rattle.command_tables.specs.declared.call.LayerCall.{LayerCall};
ghost use Rattle.object_records.specs.Shape.{HasParams};
ghost use Rattle.lifetime_layer.specs.Reports.{reports_of};
ghost use Rattle.lifetime_layer.specs.Shape.{HasFewPlaces};
ghost use Rattle.layer_model.specs.Walks.{are_parts_guarded, enter_parts, leave_parts};
ghost use Rattle.dispatch_chain.specs.Entries.{AllWithin, ArePlacesRising, CanLeave, MayLeaveAt, down_of, enter_entries, leave_entries, step_down, step_up, with_front};
ghost use Rattle.dispatch_chain.specs.Forms.{CanHold, IsAsLarge, KeepsForm, KeepsForms, form_room};
ghost use Rattle.dispatch_chain.specs.Holding.{AllShaped, IsHeldOf};
ghost use Rattle.dispatch_chain.specs.Kept.{AllBareOnce, AllKept, AllLost};
ghost use Rattle.dispatch_chain.specs.Room.{AllCanEnter, AllHaveBirths, KeepRooms, KeepUses, AreRoomy, CanEnterAt, HasBirthsAt, PartRoom, room_of};
ghost use Rattle.dispatch_chain.specs.Rows.{entries_of};
ghost use Rattle.dispatch_chain.specs.Seats.{kinds_of, seat_of, seats_from, state_of};

use crate::entry::Entry;
use crate::held::Held;
use crate::kit::Kit;
use crate::part::{Part, enter_part, leave_part};
use crate::states::LayerStates;
use crate::table::DispatchTable;
use command_tables::{LayerCall, NoMemory};
use lifetime_layer::Verdict;
use std::alloc::Global;

// The part of an entry takes a call in.
fn enter_at(
    kit: &Kit,
    parts: &mut [Part],
    entry: Entry,
    thread: u32,
    number: u64,
    call: &mut LayerCall,
    verdict: &mut Verdict,
) -> Result<(), NoMemory>
    requires from { 0 < entry.place }
    requires to { entry.place - 1 < length parts.old }
    requires seats { map seat_of parts.old ≡ seats_from 1 (kinds_of (map state_of parts.old)) }
    requires shape { HasParams call.old }
    requires few { HasFewPlaces call.old }
    requires goes { verdict.old.skip ≡ false }
    requires kept { AllKept (map state_of parts.old) }
    ensures down { OnOk result (down_of (map state_of parts.new) call.new verdict.new ≡ step_down thread number entry (down_of (map state_of parts.old) call.old verdict.old)) }
    ensures seats { map seat_of parts.new ≡ map seat_of parts.old }
    ensures kept { AllKept (map state_of parts.new) }
    ensures shape { HasParams call.new }
    ensures few { HasFewPlaces call.new }
    ensures cmd { OnOk result (call.new.cmd ≡ call.old.cmd) }
    ensures size { IsAsLarge (call_content call.new) (call_content call.old) }
    ensures form_room { KeepsForm (form_room call.old) (form_room call.new) }
    ensures rooms { KeepRooms (map room_of parts.old) (map room_of parts.new) }
    ensures findings_room { vec_capacity verdict.old.findings ≤ vec_capacity verdict.new.findings }
    ensures succeeds { CanEnterAt thread number (slice_get (map state_of parts.old) (entry.place - 1)) (slice_get (map room_of parts.old) (entry.place - 1)) (call_content call.old) →
        length (step_down thread number entry (down_of (map state_of parts.old) call.old verdict.old)).reports ≤ vec_capacity verdict.old.findings → IsOk result }
{
    let index = entry.place as usize - 1;
    enter_part(
        kit,
        &mut parts[index],
        entry.place,
        thread,
        number,
        call,
        verdict,
    )
}

// The parts of a row take a call in, until one stops it; the call above each is held.
fn down(
    kit: &Kit,
    entries: &[Entry],
    parts: &mut [Part],
    thread: u32,
    number: u64,
    call: &mut LayerCall,
    held: &mut Held,
    verdict: &mut Verdict,
) -> Result<(), NoMemory>
    requires within { AllWithin (length parts.old) entries.now }
    requires seats { map seat_of parts.old ≡ seats_from 1 (kinds_of (map state_of parts.old)) }
    requires shape { HasParams call.old }
    requires few { HasFewPlaces call.old }
    requires cmd { call.old.cmd ≡ held.old.cmd }
    requires kept { AllKept (map state_of parts.old) }
    ensures walk { OnOk result (record { down = down_of (map state_of parts.new) call.new verdict.new; forms = held.new.forms } ≡ with_front held.old.forms (enter_entries thread number entries.now (down_of (map state_of parts.old) call.old verdict.old))) }
    ensures seats { map seat_of parts.new ≡ map seat_of parts.old }
    ensures kept { AllKept (map state_of parts.new) }
    ensures shape { HasParams call.new }
    ensures few { HasFewPlaces call.new }
    ensures cmd { held.new.cmd ≡ held.old.cmd }
    ensures form_room { KeepsForm (form_room call.old) (form_room call.new) }
    ensures rooms { KeepRooms (map room_of parts.old) (map room_of parts.new) }
    ensures findings_room { vec_capacity verdict.old.findings ≤ vec_capacity verdict.new.findings }
    ensures held_rooms { KeepsForms held.old.rooms held.new.rooms }
    ensures succeeds { AllCanEnter thread number (map room_of parts.old) entries.now (down_of (map state_of parts.old) call.old verdict.old) →
        length (enter_entries thread number entries.now (down_of (map state_of parts.old) call.old verdict.old)).down.reports ≤ vec_capacity verdict.old.findings →
        CanHold held.old.rooms (length held.old.forms + length entries.now) (call_content call.old) → IsOk result }
{
    for entry in entries {
        if verdict.skip {
            return Ok(());
        }
        held.hold(call)?;
        enter_at(kit, parts, *entry, thread, number, call, verdict)?;
    }
    Ok(())
}

/// A call comes down a chain: each part that intercepts its command takes it in, in order, down to the first that stops it. What parts
/// keep, what is found, the call below and the calls held are those of the walk through all parts. Findings go behind those that stood
/// there. Takes no memory, and so doesn't answer `NoMemory`, where each threads part has room for what is then open, the verdict for what is
/// found, and `held` for a call of this size above each part. After `NoMemory` states, call and findings are for dropping alone.
pub fn walk_enter(
    table: &DispatchTable,
    states: &mut LayerStates,
    thread: u32,
    number: u64,
    call: &mut LayerCall,
    held: &mut Held,
    verdict: &mut Verdict,
) -> Result<(), NoMemory>
    requires table { table.now.rows ≡ kinds_of states.old.kept }
    requires shape { HasParams call.old }
    requires few { HasFewPlaces call.old }
    requires goes { verdict.old.skip ≡ false }
    ensures states { OnOk result (states.new.kept ≡ (enter_parts thread number 1 states.old.kept (call_content call.old)).states) }
    ensures call { OnOk result (call_content call.new ≡ (enter_parts thread number 1 states.old.kept (call_content call.old)).bottom) }
    ensures found { OnOk result (reports_of verdict.new.findings.items ≡ reports_of verdict.old.findings.items ++ (enter_parts thread number 1 states.old.kept (call_content call.old)).found.reports) }
    ensures skip { OnOk result (verdict.new.skip ≡ is_some (enter_parts thread number 1 states.old.kept (call_content call.old)).found.stop) }
    ensures held { OnOk result (IsHeldOf held.new (kinds_of states.old.kept) (enter_parts thread number 1 states.old.kept (call_content call.old)).forms) }
    ensures whole { OnOk result (verdict.new.skip ≡ false → length held.new.forms ≡ length (entries_of held.new.cmd (kinds_of states.old.kept))) }
    ensures cmd { held.new.cmd ≡ call.old.cmd }
    ensures kinds { kinds_of states.new.kept ≡ kinds_of states.old.kept }
    ensures shape { HasParams call.new }
    ensures few { HasFewPlaces call.new }
    ensures form_room { KeepsForm (form_room call.old) (form_room call.new) }
    ensures rooms { KeepRooms states.old.rooms states.new.rooms }
    ensures findings_room { vec_capacity verdict.old.findings ≤ vec_capacity verdict.new.findings }
    ensures held_rooms { KeepsForms held.old.rooms held.new.rooms }
    ensures succeeds { AreRoomy (enter_parts thread number 1 states.old.kept (call_content call.old)).states states.old.rooms →
        length verdict.old.findings.items + length (enter_parts thread number 1 states.old.kept (call_content call.old)).found.reports ≤ vec_capacity verdict.old.findings →
        CanHold held.old.rooms (length (entries_of call.old.cmd (kinds_of states.old.kept))) (call_content call.old) → IsOk result }
{
    held.begin(call.cmd);
    let entries = table.at(call.cmd);
    down(
        &table.kit,
        entries,
        &mut states.parts,
        thread,
        number,
        call,
        held,
        verdict,
    )
}

// The part of an entry takes results in.
fn leave_at(
    alloc: Global,
    kit: &Kit,
    parts: &mut [Part],
    entry: Entry,
    thread: u32,
    form: &LayerCall,
    results: &mut [u64],
) -> Result<(), NoMemory>
    requires from { 0 < entry.place }
    requires to { entry.place - 1 < length parts.old }
    requires shape { HasParams form.now }
    requires once { MayLeaveAt (call_content form.now) results.old (slice_get (map state_of parts.old) (entry.place - 1)) }
    requires kept { AllKept (map state_of parts.old) }
    ensures left { OnOk result (record { states = map state_of parts.new; results = results.new } ≡ step_up thread entry (call_content form.now) (record { states = map state_of parts.old; results = results.old })) }
    ensures seats { map seat_of parts.new ≡ map seat_of parts.old }
    ensures kept { AllKept (map state_of parts.new) }
    ensures count { length results.new ≡ length results.old }
    ensures rooms { length (map room_of parts.new) ≡ length (map room_of parts.old) }
    ensures others { (j : ℕ) → (j ≡ entry.place - 1 → ⊥) → slice_get (map room_of parts.new) j ≡ slice_get (map room_of parts.old) j }
    ensures births { OnOk result ((q : PartRoom) (r : PartRoom) → slice_get (map room_of parts.old) (entry.place - 1) ≡ Some q → slice_get (map room_of parts.new) (entry.place - 1) ≡ Some r → q.births ≤ r.births + length results.old) }
    ensures uses { (q : PartRoom) (r : PartRoom) → slice_get (map room_of parts.old) (entry.place - 1) ≡ Some q → slice_get (map room_of parts.new) (entry.place - 1) ≡ Some r → q.uses ≤ r.uses }
    ensures succeeds { HasBirthsAt (length results.old) (slice_get (map room_of parts.old) (entry.place - 1)) → IsOk result }
{
    let index = entry.place as usize - 1;
    leave_part(alloc, kit, &mut parts[index], thread, form, results)
}

fn lesser(a: usize, b: usize) -> usize
    ensures first { result ≤ a }
    ensures second { result ≤ b }
    ensures one { (a ≤ result) ⊎ (b ≤ result) }
{
    if a < b { a } else { b }
}

// The parts of a row that a call came to take its results in, the last one first.
fn up(
    alloc: Global,
    kit: &Kit,
    entries: &[Entry],
    parts: &mut [Part],
    thread: u32,
    forms: &[LayerCall],
    results: &mut [u64],
) -> Result<(), NoMemory>
    requires within { AllWithin (length parts.old) entries.now }
    requires shaped { (i : ℕ) (d : LayerCall) → i < length forms.now → HasParams (get_or forms.now i d) }
    requires can { CanLeave thread entries.now (map call_content forms.now) (record { states = map state_of parts.old; results = results.old }) }
    requires kept { AllKept (map state_of parts.old) }
    requires rising { ArePlacesRising 0 entries.now }
    ensures count { length results.new ≡ length results.old }
    ensures births { OnOk result ((n : ℕ) → AllHaveBirths (n + length results.old) (map room_of parts.old) → AllHaveBirths n (map room_of parts.new)) }
    ensures uses { OnOk result (KeepUses (map room_of parts.old) (map room_of parts.new)) }
    ensures succeeds { AllHaveBirths (length results.old) (map room_of parts.old) → IsOk result }
    ensures left { OnOk result (record { states = map state_of parts.new; results = results.new } ≡ leave_entries thread entries.now (map call_content forms.now) (record { states = map state_of parts.old; results = results.old })) }
    ensures seats { map seat_of parts.new ≡ map seat_of parts.old }
    ensures kept { AllKept (map state_of parts.new) }
{
    let mut i = lesser(entries.len(), forms.len());
    while i > 0 {
        i -= 1;
        leave_at(alloc, kit, parts, entries[i], thread, &forms[i], results)?;
    }
    Ok(())
}

/// The results of a call come up a chain: each part that it had come to takes them in, the last one first. What parts keep and the
/// results above the first are those of the walk through all parts that the call had reached, of whose forms some are held. Each
/// checking part has a unique part below it, so that results for which unique parts issue ids are new once to it; others must be, and
/// those of a call that was stopped are lost. Takes no memory, and so doesn't answer `NoMemory`, where each part has room for as many
/// births as there are results; no more room than that is used up, and none for uses. After `NoMemory` states and results are for dropping alone.
pub fn walk_leave(
    table: &DispatchTable,
    states: &mut LayerStates,
    thread: u32,
    held: &Held,
    results: &mut [u64],
) -> Result<(), NoMemory>
    requires table { table.now.rows ≡ kinds_of states.old.kept }
    requires guarded { are_parts_guarded (kinds_of states.old.kept) ≡ true }
    requires once { AllBareOnce held.now.cmd results.old states.old.kept }
    requires lost { length held.now.forms < length (entries_of held.now.cmd (kinds_of states.old.kept)) → AllLost results.old }
    ensures states { OnOk result ((forms : List CallContent) → IsHeldOf held.now (kinds_of states.old.kept) forms → states.new.kept ≡ (leave_parts thread states.old.kept forms results.old).states) }
    ensures results { OnOk result ((forms : List CallContent) → IsHeldOf held.now (kinds_of states.old.kept) forms → results.new ≡ (leave_parts thread states.old.kept forms results.old).results) }
    ensures kinds { kinds_of states.new.kept ≡ kinds_of states.old.kept }
    ensures births { OnOk result ((n : ℕ) → AllHaveBirths (n + length results.old) states.old.rooms → AllHaveBirths n states.new.rooms) }
    ensures uses { OnOk result (KeepUses states.old.rooms states.new.rooms) }
    ensures succeeds { AllHaveBirths (length results.old) states.old.rooms → IsOk result }
{
    let entries = table.at(held.command());
    up(
        states.alloc,
        &table.kit,
        entries,
        &mut states.parts,
        thread,
        held.forms(),
        results,
    )
}
