//! The table of the written devices of a whole file.
ghost use Rattle.std.specs.Prelude.{◌≡◌, ◌∷◌, [], IfOk, OnOk, map, option_and_then, reverse};
ghost use Rattle.std.specs.List.{flat_map};
ghost use Rattle.command_tables.specs.Table.{row_of};
ghost use Rattle.trace_format.specs.Content.{arg_content, content};
ghost use Rattle.stream_model.specs.Devices.{makes_devices, owner_written};
ghost use Rattle.stream_model.specs.FileParts.{all_events};
ghost use Rattle.stream_plans.specs.Contents.{parts_of, stream_part};
ghost use Rattle.stream_plans.specs.Tables.{Knows, Learns, PutResults, device_in, device_of_result};

use crate::table::NameTable;
use command_tables::{CommandId, row};
use std::alloc::{AllocError, Global};
use threaded_replay::devices::{makes_devices, owner_written};
use trace_format::{Event, Name, TraceArg};

// The written device of the owner of what a call makes or gives.
fn owner_device(table: &NameTable<Name>, cmd: CommandId, args: &[TraceArg]) -> Option<Name>
    ensures { result ≡ option_and_then (device_in table.now.rows.items) (owner_written (map arg_content args.now) (row_of cmd).effect) }
{
    table.value(owner_written(args, row(cmd).effect)?)
}

// The results of a call have their devices: a device is its own, and anything else is its owner's.
fn put_results(
    table: &mut NameTable<Name>,
    results: &[Name],
    is_device: bool,
    owner: Option<Name>,
) -> Result<(), AllocError>
    ensures { OnOk result (PutResults table.old.rows.items table.new.rows.items results.now (device_of_result is_device owner)) }
{
    for name in results {
        let device = if is_device { Some(*name) } else { owner };
        table.put(*name, device)?;
    }
    Ok(())
}

// Adds the results of a call.
fn add_begin(
    table: &mut NameTable<Name>,
    cmd: CommandId,
    args: &[TraceArg],
    results: &[Name],
) -> Result<(), AllocError>
    ensures { OnOk result (PutResults table.old.rows.items table.new.rows.items results.now
        (device_of_result (makes_devices cmd) (option_and_then (device_in table.old.rows.items) (owner_written (map arg_content args.now) (row_of cmd).effect)))) }
{
    let owner = owner_device(table, cmd, args);
    put_results(table, results, makes_devices(cmd), owner)?;
    Ok(())
}

// Adds an event.
fn add_event(table: &mut NameTable<Name>, event: &Event) -> Result<(), AllocError>
    ensures { OnOk result (Learns table.old.rows.items table.new.rows.items (content event.now ∷ [])) }
{
    match event {
        Event::Return { .. } => Ok(()),
        Event::Begin {
            cmd,
            args,
            results,
            ..
        } => {
            add_begin(table, *cmd, args, results)?;
            Ok(())
        }
    }
}

// Adds events, one after the other.
fn add_events(table: &mut NameTable<Name>, events: &[Event]) -> Result<(), AllocError>
    ensures { OnOk result (Learns table.old.rows.items table.new.rows.items (map content events.now)) }
{
    for event in events {
        add_event(table, event)?;
    }
    Ok(())
}

// Adds the events of streams, one stream after the other.
fn add_streams(table: &mut NameTable<Name>, streams: &[(u32, Vec<Event>)]) -> Result<(), AllocError>
    ensures { OnOk result (Learns table.old.rows.items table.new.rows.items (flat_map (λ s. s.events) (map stream_part streams.now))) }
{
    for stream in streams {
        add_events(table, &stream.1)?;
    }
    Ok(())
}

/// The table of a file: the written device of each name.
pub fn table_of(
    alloc: Global,
    setup: &[Event],
    streams: &[(u32, Vec<Event>)],
    teardown: &[Event],
) -> Result<NameTable<Name>, AllocError>
    ensures { IfOk result (λ table. Knows table.rows.items (reverse (all_events (parts_of setup.now streams.now teardown.now)))) }
{
    let mut table = NameTable::new(alloc);
    add_events(&mut table, setup)?;
    add_streams(&mut table, streams)?;
    add_events(&mut table, teardown)?;
    Ok(table)
}
