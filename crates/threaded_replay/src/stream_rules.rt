//! What a call may not do in a stream.
ghost use Rattle.std.specs.Prelude.{◌≡◌, false, map};
ghost use Rattle.std.specs.List.{list_any};
ghost use Rattle.std.specs.Option.{option_map_or};
ghost use Rattle.trace_format.specs.Content.{arg_content};
ghost use Rattle.stream_model.specs.Order.{any_name, call_refusal, device_named, is_kept_out, is_of_another_device, is_of_another_stream, same_device};
ghost use Rattle.threaded_replay.specs.Origins.{device_in, stream_in};

use crate::devices::{is_on_no_device, is_same, name_at};
use crate::origins::Origins;
use command_tables::{CommandId, row};
use stream_model::Refusal;
use trace_format::{Name, TraceArg};

// Whether no stream may use a command.
#[tactic(auto, unfolding(command_tables::specs::Tests::same_command))]
fn is_kept_out(cmd: CommandId) -> bool
    ensures { result ≡ is_kept_out cmd }
{
    cmd == CommandId::DestroyDevice || cmd == CommandId::CreateSwapchainKHR
}

// Whether two devices are there and are one.
fn same_device(one: Option<Name>, other: Option<Name>) -> bool
    ensures { result ≡ same_device one other }
{
    match (one, other) {
        (Some(one), Some(other)) => is_same(one, other),
        _ => false,
    }
}

/// The device that a call names: that of its first argument.
pub fn device_named(origins: &Origins, cmd: CommandId, args: &[TraceArg]) -> Option<Name>
    ensures { result ≡ device_named (device_in origins.now.rows.items) cmd (map arg_content args.now) }
{
    if is_on_no_device(row(cmd).params) {
        return None;
    }
    origins.device(name_at(args, 0)?)
}

// Whether a name was given in another stream than that of this thread.
fn is_of_another_stream(origins: &Origins, thread: u32, name: Name) -> bool
    ensures { result ≡ is_of_another_stream (stream_in origins.now.rows.items) thread name }
{
    match origins.stream(name) {
        None => false,
        Some(stream) => stream != thread,
    }
}

// Whether a name is of another device than this, or of none.
fn is_of_another_device(origins: &Origins, device: Option<Name>, name: Name) -> bool
    ensures { result ≡ is_of_another_device (device_in origins.now.rows.items) device name }
{
    !same_device(origins.device(name), device)
}

// Whether a place holds a name that was given in another stream.
fn place_is_of_another_stream(origins: &Origins, thread: u32, place: Option<Name>) -> bool
    ensures { result ≡ option_map_or (is_of_another_stream (stream_in origins.now.rows.items) thread) place false }
{
    match place {
        None => false,
        Some(name) => is_of_another_stream(origins, thread, name),
    }
}

// Whether a place holds a name of another device.
fn place_is_of_another_device(origins: &Origins, device: Option<Name>, place: Option<Name>) -> bool
    ensures { result ≡ option_map_or (is_of_another_device (device_in origins.now.rows.items) device) place false }
{
    match place {
        None => false,
        Some(name) => is_of_another_device(origins, device, name),
    }
}

// Whether one of these places holds a name that was given in another stream.
fn places_are_of_another_stream(origins: &Origins, thread: u32, places: &[Option<Name>]) -> bool
    ensures { result ≡ list_any (λ place. option_map_or (is_of_another_stream (stream_in origins.now.rows.items) thread) place false) places.now }
{
    places.iter().any(|place| place_is_of_another_stream(origins, thread, *place))
}

// Whether one of these places holds a name of another device.
fn places_are_of_another_device(
    origins: &Origins,
    device: Option<Name>,
    places: &[Option<Name>],
) -> bool
    ensures { result ≡ list_any (λ place. option_map_or (is_of_another_device (device_in origins.now.rows.items) device) place false) places.now }
{
    places.iter().any(|place| place_is_of_another_device(origins, device, *place))
}

// Whether one of these arguments names what was given in another stream.
fn take_from_another_stream(origins: &Origins, thread: u32, args: &[TraceArg]) -> bool
    ensures { result ≡ any_name (is_of_another_stream (stream_in origins.now.rows.items) thread) (map arg_content args.now) }
{
    match args {
        [] => false,
        [arg, args @ ..] => {
            places_are_of_another_stream(origins, thread, &arg.names)
                || take_from_another_stream(origins, thread, args)
        }
    }
}

// Whether one of these arguments names what is of another device.
fn take_from_another_device(origins: &Origins, device: Option<Name>, args: &[TraceArg]) -> bool
    ensures { result ≡ any_name (is_of_another_device (device_in origins.now.rows.items) device) (map arg_content args.now) }
{
    match args {
        [] => false,
        [arg, args @ ..] => {
            places_are_of_another_device(origins, device, &arg.names)
                || take_from_another_device(origins, device, args)
        }
    }
}

/// Why a call may not stand in the stream of a thread, if it may not.
pub fn call_refusal(
    origins: &Origins,
    thread: u32,
    cmd: CommandId,
    args: &[TraceArg],
) -> Option<Refusal>
    ensures { result ≡ call_refusal (device_in origins.now.rows.items) (stream_in origins.now.rows.items) cmd (map arg_content args.now) thread }
{
    let device = device_named(origins, cmd, args);
    if device.is_none() {
        return Some(Refusal::NoDevice);
    }
    if is_kept_out(cmd) || take_from_another_stream(origins, thread, args) {
        return Some(Refusal::NotInStream);
    }
    if take_from_another_device(origins, device, args) {
        return Some(Refusal::CrossDevice);
    }
    None
}
