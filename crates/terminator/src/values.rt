//! The flat list of values.
ghost use Rattle.std.specs.Prelude.{◌≡◌, ◌≤◌, ◌+◌, ◌-◌, drop, length, min, take, vec_capacity, IsOk, OnOk};
ghost use Rattle.terminator.specs.Table.{written};

use crate::value::DriverValue;
use command_tables::NoMemory;

// A place in the list has 32 bits.
const MOST: usize = 4294967295;

/// Makes room for so many further values, where their places fit.
pub fn make_room(flat: &mut Vec<DriverValue>, n: usize) -> Result<(), NoMemory>
    ensures items { flat.new.items ≡ flat.old.items }
    ensures ok { OnOk result (n ≤ min (vec_capacity flat.new) 4294967295 - length flat.old.items) }
    ensures capacity { vec_capacity flat.old ≤ vec_capacity flat.new }
    ensures succeeds { n ≤ min (vec_capacity flat.old) 4294967295 - length flat.old.items → IsOk result }
{
    if n > MOST.saturating_sub(flat.len()) {
        return Err(NoMemory);
    }
    Ok(flat.reserve(n)?)
}

/// Puts values in the place of those from `start` on.
pub fn write(flat: &mut Vec<DriverValue>, start: usize, values: &[DriverValue])
    requires { start + length values.now ≤ length flat.old.items }
    ensures items { flat.new.items ≡ written flat.old.items start values.now }
    ensures capacity { vec_capacity flat.new ≡ vec_capacity flat.old }
{
    for (k, value) in values.iter().enumerate() {
        flat[start + k] = *value;
    }
}

/// So many values from a place on.
pub fn span(flat: &[DriverValue], start: usize, len: usize) -> &[DriverValue]
    requires { start + len ≤ length flat.now }
    ensures { result.now ≡ take len (drop start flat.now) }
{
    &flat[start..start + len]
}
