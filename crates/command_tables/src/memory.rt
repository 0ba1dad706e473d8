//! The answer for want of memory, and lists that are filled anew.
ghost use Rattle.std.specs.Prelude.{◌≡◌, ◌≤◌, ◌<◌, OnErr, OnOk, length, vec_capacity};

use std::alloc::{AllocError, AllocFailed};

/// There was no memory. What was asked for is not done.
#[derive(Clone, Copy, Debug, PartialEq, Eq)]
pub struct NoMemory;

impl From<AllocError> for NoMemory {
    fn from(_: AllocError) -> NoMemory {
        NoMemory
    }
}

impl<T: Drop> From<AllocFailed<T>> for NoMemory {
    fn from(_: AllocFailed<T>) -> NoMemory {
        NoMemory
    }
}

// Makes room for so many elements in all.
pub(crate) fn make_room<T>(items: &mut Vec<T>, count: usize) -> Result<(), AllocError>
    ensures items { items.new.items ≡ items.old.items }
    ensures ok { OnOk result (count ≤ vec_capacity items.new) }
    ensures full { OnErr result (vec_capacity items.old < count) }
    ensures capacity { vec_capacity items.old ≤ vec_capacity items.new }
{
    items.reserve(count.saturating_sub(items.len()))
}

// Puts other elements in place of those that are there.
pub(crate) fn refill<T: Copy>(items: &mut Vec<T>, others: &[T]) -> Result<(), AllocError>
    ensures items { OnOk result (items.new.items ≡ others.now) }
    ensures full { OnErr result (vec_capacity items.old < length others.now) }
    ensures capacity { vec_capacity items.old ≤ vec_capacity items.new }
{
    items.clear();
    items.extend_from_slice(others)
}
