//! The events of a stream dealt out to the plans of their calls' devices, in one pass.
ghost use Rattle.std.specs.Prelude.{◌≡◌, ◌++◌, ◌∷◌, ◌<◌, ℕ, [], IfOk, OnOk, Some, false, length, map};
ghost use Rattle.trace_format.specs.Content.{content};
ghost use Rattle.stream_model.specs.Plans.{calls_on};
ghost use Rattle.stream_plans.specs.Cuts.{places_planned};
ghost use Rattle.stream_plans.specs.Dealt.{AreNumbered, dealt_to, events_in, number_behind, place_begun};
ghost use Rattle.stream_plans.specs.Tables.{device_in};

use crate::naming::device_named;
use crate::numbers::NumberedDevices;
use crate::table::NameTable;
use command_tables::NoMemory;
use std::alloc::{AllocError, Global};
use stream_merge::copies::copy_event;
use trace_format::{Event, Name};

/// What each plan has of a stream, and the number of the plan of each of its calls.
#[derive(Drop)]
pub struct Dealt {
    pub parts: Vec<Vec<Event>>,
    pub places: Vec<usize>,
}

// The number of the plan that has an event, where `at` is that of the call before it.
fn number_of(
    table: &NameTable<Name>,
    devices: &NumberedDevices,
    at: Option<usize>,
    event: &Event,
) -> Option<usize>
    requires { AreNumbered devices.now }
    ensures { result ≡ number_behind (device_in table.now.rows.items) devices.now.names.items at (content event.now) }
{
    match event {
        Event::Return { .. } => at,
        Event::Begin { cmd, args, .. } => devices.number(device_named(table, *cmd, args)),
    }
}

// Adds the number of an event's plan, where the event begins a call.
fn add_place(places: &mut Vec<usize>, at: Option<usize>, event: &Event) -> Result<(), AllocError>
    ensures { OnOk result (places.new.items ≡ places.old.items ++ place_begun at (content event.now)) }
{
    match (event, at) {
        (Event::Begin { .. }, Some(number)) => {
            places.push(number)?;
            Ok(())
        }
        _ => Ok(()),
    }
}

// Adds a copy of an event.
fn add_copy(alloc: Global, part: &mut Vec<Event>, event: &Event) -> Result<(), NoMemory>
    ensures { OnOk result (map content part.new.items ≡ map content part.old.items ++ content event.now ∷ []) }
{
    part.push(copy_event(alloc, event)?)?;
    Ok(())
}

// Adds a copy of an event to the part of its plan, if it has one.
fn deal_event(
    alloc: Global,
    parts: &mut Vec<Vec<Event>>,
    at: Option<usize>,
    event: &Event,
) -> Result<(), NoMemory>
    requires { (number : ℕ) → at ≡ Some number → number < length parts.old.items }
    ensures { OnOk result (events_in parts.new.items ≡ dealt_to at (content event.now) (events_in parts.old.items)) }
{
    match at {
        None => Ok(()),
        Some(number) => {
            add_copy(alloc, &mut parts[number], event)?;
            Ok(())
        }
    }
}

// A part without events for each of these devices.
fn empty_parts(alloc: Global, devices: &[Name]) -> Result<Vec<Vec<Event>>, AllocError>
    ensures { IfOk result (λ parts. events_in parts.items ≡ map (λ d. []) devices.now) }
{
    let mut parts = Vec::with_capacity(alloc, devices.len())?;
    for _device in devices {
        parts.push(Vec::new(alloc))?;
    }
    Ok(parts)
}

/// What each of these devices' plans has of a stream's events, and the number of the plan of each of its calls.
pub fn deal_events(
    alloc: Global,
    table: &NameTable<Name>,
    devices: &NumberedDevices,
    events: &[Event],
) -> Result<Dealt, NoMemory>
    requires { AreNumbered devices.now }
    ensures parts { IfOk result (λ dealt. events_in dealt.parts.items ≡ map (λ d. calls_on (device_in table.now.rows.items) d false (map content events.now)) devices.now.names.items) }
    ensures places { IfOk result (λ dealt. dealt.places.items ≡ places_planned (device_in table.now.rows.items) devices.now.names.items (map content events.now)) }
{
    let mut parts = empty_parts(alloc, &devices.names)?;
    let mut places = Vec::new(alloc);
    let mut at = None;
    for event in events {
        at = number_of(table, devices, at, event);
        add_place(&mut places, at, event)?;
        deal_event(alloc, &mut parts, at, event)?;
    }
    Ok(Dealt { parts, places })
}
