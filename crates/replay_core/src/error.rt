// Why a replay ends early.
ghost use Rattle.std.specs.Prelude.{◌≡◌};

use chain_session::SessionError;
use replay_base::Which;
use std::alloc::AllocError;
use thiserror::Error;
use trace_format::TraceFault;

/// Why a replay ended before the end line.
#[derive(Clone, Copy, Debug, PartialEq, Eq, Error)]
pub enum ReplayError {
    /// The source failed.
    #[error("the source failed")]
    Read,
    /// The sink failed.
    #[error("the sink failed")]
    Write,
    /// The trace has a fault. Lines count from 1.
    #[error("line {line}: {fault}")]
    Trace { line: u64, fault: TraceFault },
    /// A limit was reached.
    #[error("a limit was reached")]
    Limit { which: Which },
    #[error("no memory")]
    NoMemory,
}

impl From<SessionError> for ReplayError {
    ghost use Rattle.std.specs.Prelude.{◌≡◌};
    ghost use Rattle.replay_core.specs.Errors.{replay_error};

    ghost from_gives = { λ from e. e ≡ replay_error from };

    fn from(from: SessionError) -> Self {
        match from {
            SessionError::Chain { .. } => ReplayError::Limit {
                which: Which::Chain,
            },
            SessionError::NoMemory => ReplayError::NoMemory,
        }
    }
}

impl From<AllocError> for ReplayError {
    ghost use Rattle.std.specs.Prelude.{◌≡◌};
    ghost use Rattle.replay_core.specs.declared.error.ReplayError.TheVariants.{NoMemory as OutOfMemory};

    ghost from_gives = { λ _ e. e ≡ OutOfMemory };

    fn from(_: AllocError) -> Self {
        ReplayError::NoMemory
    }
}
