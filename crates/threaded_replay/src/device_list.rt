//! The devices that the streams of a file name, each once.
ghost use Rattle.std.specs.Prelude.{◌≡◌, ◌≤◌, length, OnErr, OnOk};
ghost use Rattle.std.specs.List.{list_any};
ghost use Rattle.trace_format.specs.Accepting.{same_name};
ghost use Rattle.stream_model.specs.declared.limits.TheConstants.{MOST_DEVICES};
ghost use Rattle.stream_model.specs.Order.{with_device};

use crate::devices::is_same;
use std::alloc::AllocError;
use trace_format::Name;

// Whether a device is one of these.
fn is_among(devices: &[Name], device: Name) -> bool
    ensures { result ≡ list_any (same_name device) devices.now }
{
    devices.iter().any(|other| is_same(device, *other))
}

/// How many devices there are with one more.
pub fn count_with(devices: &[Name], device: Option<Name>) -> usize
    requires { length devices.now ≤ MOST_DEVICES }
    ensures { result ≡ length (with_device device devices.now) }
{
    match device {
        Some(device) if !is_among(devices, device) => devices.len() + 1,
        _ => devices.len(),
    }
}

/// Adds a device, where it is another than those before it.
pub fn add_device(devices: &mut Vec<Name>, device: Option<Name>) -> Result<(), AllocError>
    ensures ok { OnOk result (devices.new.items ≡ with_device device devices.old.items) }
    ensures err { OnErr result (devices.new.items ≡ devices.old.items) }
{
    match device {
        Some(device) if !is_among(devices, device) => {
            devices.push(device)?;
            Ok(())
        }
        _ => Ok(()),
    }
}
