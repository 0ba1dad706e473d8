// What a reader of lines answers.
use crate::Failed;
use std::alloc::AllocError;
use thiserror::Error;

/// What came next.
#[derive(Clone, Copy, Debug, PartialEq, Eq)]
pub enum Line {
    /// A line, which may be empty.
    Text,
    /// The end: nothing is left.
    End,
}

/// Why a line wasn't read.
#[derive(Clone, Copy, Debug, PartialEq, Eq, Error)]
pub enum LineError {
    /// The source failed.
    #[error("the source failed")]
    Read,
    /// The line has more than 65,536 bytes, LF not counted. `at` is the place of its first byte, counted from 0.
    #[error("the line at byte {at} is too long")]
    TooLong { at: u64 },
    /// There was no memory.
    #[error("out of memory")]
    NoMemory,
}

impl From<Failed> for LineError {
    ghost use Rattle.std.specs.Prelude.{◌≡◌};
    ghost use Rattle.replay_base.specs.declared.line.LineError.TheVariants.{Read as ReadFault};

    ghost from_gives = { λ _ e. e ≡ ReadFault };

    fn from(_: Failed) -> Self {
        LineError::Read
    }
}

impl From<AllocError> for LineError {
    ghost use Rattle.std.specs.Prelude.{◌≡◌};
    ghost use Rattle.replay_base.specs.declared.line.LineError.TheVariants.{NoMemory as OutOfMemory};

    ghost from_gives = { λ _ e. e ≡ OutOfMemory };

    fn from(_: AllocError) -> Self {
        LineError::NoMemory
    }
}
