// What can go wrong outside of a replay.
use std::alloc::{AllocError, AllocFailed};

/// The outside failed. The object that answers this has counted it in the same call.
#[derive(Clone, Copy, Debug, PartialEq, Eq)]
pub struct Failed;

/// There was no memory. It is the one answer that may come from any call that names it.
#[derive(Clone, Copy, Debug, PartialEq, Eq)]
pub struct NoMemory;

impl From<AllocError> for NoMemory {
    fn from(_: AllocError) -> Self {
        NoMemory
    }
}

impl<T: Drop> From<AllocFailed<T>> for NoMemory {
    fn from(_: AllocFailed<T>) -> Self {
        NoMemory
    }
}
