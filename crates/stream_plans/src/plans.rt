//! The plans of a file.
ghost use Rattle.std.specs.Prelude.{◌≡◌, IfOk, List, map};
ghost use Rattle.std.specs.List.{AllByRecursion};
ghost use Rattle.trace_format.specs.Grammar.{IsEvent};
ghost use Rattle.stream_model.specs.FileLines.{FileLine};
ghost use Rattle.stream_model.specs.FileParts.{AreInOrder, parts};
ghost use Rattle.stream_model.specs.Order.{devices_named, events};
ghost use Rattle.stream_model.specs.Plans.{device_written, plan_cut};
ghost use Rattle.merge_model.specs.Planned.{calls_planned};
ghost use Rattle.stream_plans.specs.Contents.{file_parts, parts_of, plan_content, stream_part};
ghost use Rattle.stream_plans.specs.Cuts.{devices_cut, places_planned, plan_by};
ghost use Rattle.stream_plans.specs.Dealt.{AreNumbered};
ghost use Rattle.stream_plans.specs.Tables.{device_in};

use crate::adding::{add_parts, empty_plans};
use crate::dealing::deal_events;
use crate::filling::table_of;
use crate::naming::devices_of;
use crate::numbers::NumberedDevices;
use crate::table::NameTable;
use command_tables::NoMemory;
use device_shard::Plan;
use std::alloc::Global;
use threaded_replay::StreamFile;
use trace_format::{Event, Name};

/// The plans of a file, and of each of its streams, in order, the number of the plan of each of its calls.
#[derive(Drop)]
pub struct Planned {
    pub plans: Vec<Plan>,
    pub places: Vec<Vec<usize>>,
}

// The plans of these devices, and the places of the calls of each stream: each event is dealt to its plan as it comes.
fn plan_streams(
    alloc: Global,
    table: &NameTable<Name>,
    devices: &NumberedDevices,
    streams: &[(u32, Vec<Event>)],
) -> Result<Planned, NoMemory>
    requires { AreNumbered devices.now }
    ensures plans { IfOk result (λ planned. map plan_content planned.plans.items ≡ map (plan_by (device_in table.now.rows.items) (map stream_part streams.now)) devices.now.names.items) }
    ensures places { IfOk result (λ planned. map (λ p. p.items) planned.places.items ≡ map (λ s. places_planned (device_in table.now.rows.items) devices.now.names.items s.events) (map stream_part streams.now)) }
{
    let mut plans = empty_plans(alloc, &devices.names)?;
    let mut places = Vec::with_capacity(alloc, streams.len())?;
    for stream in streams {
        let dealt = deal_events(alloc, table, devices, &stream.1)?;
        add_parts(&mut plans, stream.0, dealt.parts)?;
        places.push(dealt.places)?;
    }
    Ok(Planned { plans, places })
}

// The plans and the places, by the sections of a file.
fn plans_of(
    alloc: Global,
    setup: &[Event],
    streams: &[(u32, Vec<Event>)],
    teardown: &[Event],
) -> Result<Planned, NoMemory>
    ensures cut { let file = parts_of setup.now streams.now teardown.now in IfOk result (λ planned. AllByRecursion (λ p. p ≡ plan_cut file p.device) (map plan_content planned.plans.items)) }
    ensures devices { let file = parts_of setup.now streams.now teardown.now in IfOk result (λ planned. map (λ p. p.device) (map plan_content planned.plans.items) ≡ devices_cut file) }
    ensures places { let file = parts_of setup.now streams.now teardown.now in
        IfOk result (λ planned. map (λ p. p.items) planned.places.items ≡ map (λ s. places_planned (device_written file) (devices_cut file) s.events) file.streams) }
{
    let table = table_of(alloc, setup, streams, teardown)?;
    let devices = devices_of(alloc, &table, streams)?;
    let planned = plan_streams(alloc, &table, &devices, streams)?;
    Ok(planned)
}

/// The plan of each device that a stream of the file names, in the order in which the streams first name them, and of each stream, in order, the
/// number of the plan of each of its calls. A name's device is what the whole file tells; where lines in order have these parts, the devices are
/// those that the streams name as the lines come.
pub fn plan_calls(alloc: Global, file: &StreamFile) -> Result<Planned, NoMemory>
    ensures cut { IfOk result (λ planned. AllByRecursion (λ p. p ≡ plan_cut (file_parts file.now) p.device) (map plan_content planned.plans.items)) }
    ensures devices { IfOk result (λ planned. map (λ p. p.device) (map plan_content planned.plans.items) ≡ devices_cut (file_parts file.now)) }
    ensures named { (lines : List FileLine) → AreInOrder lines → AllByRecursion IsEvent (events lines) → parts lines ≡ file_parts file.now →
        IfOk result (λ planned. map (λ p. p.device) (map plan_content planned.plans.items) ≡ devices_named lines) }
    ensures places { IfOk result (λ planned. map (λ p. p.items) planned.places.items ≡
        map (λ s. map (λ c. c.place) (calls_planned (device_written (file_parts file.now)) (devices_cut (file_parts file.now)) s.events)) (file_parts file.now).streams) }
{
    let planned = plans_of(alloc, &file.setup, &file.streams, &file.teardown)?;
    Ok(planned)
}
