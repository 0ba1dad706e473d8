//! Why a line isn't taken, and why a file isn't read.
ghost use Rattle.std.specs.Prelude.{◌≡◌};
ghost use Rattle.threaded_replay.specs.Errors.{error_at};
ghost use Rattle.threaded_replay.specs.declared.error.StreamError.TheVariants as error;

use replay_base::Which;
use std::alloc::{AllocError, AllocFailed};
use stream_model::Refusal;
use thiserror::Error;
use trace_format::TraceFault;

/// Why a line isn't taken.
#[derive(Clone, Copy, Debug, PartialEq, Eq)]
pub enum NotTaken {
    Refused(Refusal),
    /// There was no memory. It says nothing of the line.
    NoMemory,
}

impl From<AllocError> for NotTaken {
    ghost use Rattle.std.specs.Prelude.{◌≡◌};
    ghost use Rattle.threaded_replay.specs.declared.error.NotTaken.TheVariants.{NoMemory as OutOfMemory};

    ghost from_gives = { λ _ e. e ≡ OutOfMemory };

    fn from(_: AllocError) -> Self {
        NotTaken::NoMemory
    }
}

impl<T: Drop> From<AllocFailed<T>> for NotTaken {
    ghost use Rattle.std.specs.Prelude.{◌≡◌};
    ghost use Rattle.threaded_replay.specs.declared.error.NotTaken.TheVariants.{NoMemory as OutOfMemory};

    ghost from_gives = { λ _ e. e ≡ OutOfMemory };

    fn from(_: AllocFailed<T>) -> Self {
        NotTaken::NoMemory
    }
}

/// Why a stream file isn't read. Lines count from 1.
#[derive(Clone, Copy, Debug, PartialEq, Eq, Error)]
pub enum StreamError {
    /// The source failed.
    #[error("the source failed")]
    Read,
    /// The sections, one after the other, are no trace.
    #[error("line {line}: {fault}")]
    Trace { line: u64, fault: TraceFault },
    /// A line is no heading, or out of its order, or an event of another thread than its stream's; or the file ends too early.
    #[error("line {line}: Section")]
    Section { line: u64 },
    /// A call of a stream is on no device.
    #[error("line {line}: NoDevice")]
    NoDevice { line: u64 },
    /// A call of a stream takes what is of another device.
    #[error("line {line}: CrossDevice")]
    CrossDevice { line: u64 },
    /// A call of a stream ends a device, makes a swapchain, or takes what another stream was given.
    #[error("line {line}: NotInStream")]
    NotInStream { line: u64 },
    /// A limit was reached.
    #[error("a limit was reached")]
    Limit { which: Which },
    #[error("no memory")]
    NoMemory,
}

impl From<AllocError> for StreamError {
    ghost use Rattle.std.specs.Prelude.{◌≡◌};
    ghost use Rattle.threaded_replay.specs.declared.error.StreamError.TheVariants.{NoMemory as OutOfMemory};

    ghost from_gives = { λ _ e. e ≡ OutOfMemory };

    fn from(_: AllocError) -> Self {
        StreamError::NoMemory
    }
}

fn limit(which: Which) -> StreamError
    ensures { result ≡ error.Limit which }
{
    StreamError::Limit { which }
}

/// The error that says that the line with this number is refused.
pub fn error_at(line: u64, refusal: Refusal) -> StreamError
    ensures { result ≡ error_at line refusal }
{
    match refusal {
        Refusal::Lines => limit(Which::Lines),
        Refusal::LineBytes => limit(Which::LineBytes),
        Refusal::Fault(fault) => StreamError::Trace { line, fault },
        Refusal::Section => StreamError::Section { line },
        Refusal::NoDevice => StreamError::NoDevice { line },
        Refusal::NotInStream => StreamError::NotInStream { line },
        Refusal::CrossDevice => StreamError::CrossDevice { line },
        Refusal::Names => limit(Which::Names),
        Refusal::Events => limit(Which::Events),
        Refusal::Devices => limit(Which::Devices),
    }
}
