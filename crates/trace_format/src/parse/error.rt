//! Why a line is not read.
ghost use Rattle.std.specs.Prelude.{◌≡◌};
ghost use Rattle.trace_format.specs.declared.parse.error.ParseError.TheVariants.{NoMemory as no_memory};

use crate::fault::TraceFault;
use std::alloc::{AllocError, AllocFailed};
use thiserror::Error;

/// Why a line is not read as an event.
#[derive(Debug, Drop, Error)]
pub enum ParseError {
    /// The line's first fault.
    #[error("{0}")]
    Fault(TraceFault),
    /// There was no memory for the event. It says nothing of the line.
    #[error("out of memory")]
    NoMemory,
}

impl From<AllocError> for ParseError {
    ghost from_gives = { λ _ e. e ≡ no_memory };

    fn from(_: AllocError) -> ParseError {
        ParseError::NoMemory
    }
}

impl<T: Drop> From<AllocFailed<T>> for ParseError {
    ghost from_gives = { λ _ e. e ≡ no_memory };

    fn from(_: AllocFailed<T>) -> ParseError {
        ParseError::NoMemory
    }
}
