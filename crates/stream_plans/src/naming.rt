//! The devices that the streams of a file name.
ghost use Rattle.std.specs.Prelude.{◌≡◌, [], IfOk, OnOk, map};
ghost use Rattle.std.specs.List.{flat_map};
ghost use Rattle.trace_format.specs.Content.{arg_content, content};
ghost use Rattle.stream_model.specs.Order.{device_named};
ghost use Rattle.stream_plans.specs.Contents.{stream_part};
ghost use Rattle.stream_plans.specs.Cuts.{devices_with, event_device};
ghost use Rattle.stream_plans.specs.Dealt.{AreNumbered};
ghost use Rattle.stream_plans.specs.Tables.{device_in};

use crate::numbers::NumberedDevices;
use crate::table::NameTable;
use command_tables::{CommandId, row};
use std::alloc::{AllocError, Global};
use threaded_replay::devices::{is_on_no_device, name_at};
use trace_format::{Event, Name, TraceArg};

/// The device that a call names: that of its first argument.
pub fn device_named(table: &NameTable<Name>, cmd: CommandId, args: &[TraceArg]) -> Option<Name>
    ensures { result ≡ device_named (device_in table.now.rows.items) cmd (map arg_content args.now) }
{
    if is_on_no_device(row(cmd).params) {
        return None;
    }
    table.value(name_at(args, 0)?)
}

/// The device that an event names, where it begins a call.
pub fn event_device(table: &NameTable<Name>, event: &Event) -> Option<Name>
    ensures { result ≡ event_device (device_in table.now.rows.items) (content event.now) }
{
    match event {
        Event::Return { .. } => None,
        Event::Begin { cmd, args, .. } => device_named(table, *cmd, args),
    }
}

// Adds the devices that events name.
fn add_named(
    devices: &mut NumberedDevices,
    table: &NameTable<Name>,
    events: &[Event],
) -> Result<(), AllocError>
    requires { AreNumbered devices.old }
    ensures names { OnOk result (devices.new.names.items ≡ devices_with (device_in table.now.rows.items) devices.old.names.items (map content events.now)) }
    ensures numbered { OnOk result (AreNumbered devices.new) }
{
    for event in events {
        devices.add(event_device(table, event))?;
    }
    Ok(())
}

/// The devices that streams name, in the order in which they do first.
pub fn devices_of(
    alloc: Global,
    table: &NameTable<Name>,
    streams: &[(u32, Vec<Event>)],
) -> Result<NumberedDevices, AllocError>
    ensures names { IfOk result (λ devices. devices.names.items ≡ devices_with (device_in table.now.rows.items) [] (flat_map (λ s. s.events) (map stream_part streams.now))) }
    ensures numbered { IfOk result AreNumbered }
{
    let mut devices = NumberedDevices::new(alloc);
    for stream in streams {
        add_named(&mut devices, table, &stream.1)?;
    }
    Ok(devices)
}
