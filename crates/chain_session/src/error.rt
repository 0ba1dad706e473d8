// Why a session can't take an event.
ghost use Rattle.std.specs.Prelude.{◌≡◌};

use command_tables::NoMemory;
use std::alloc::{AllocError, AllocFailed};
use thiserror::Error;

/// Why a session can't take an event. After it the session is for dropping alone.
#[derive(Clone, Copy, Debug, PartialEq, Eq, Error)]
pub enum SessionError {
    /// The chain of a `vkCreateInstance` would have so many layers, more than the 64 that it may have.
    #[error("a chain of {count} layers")]
    Chain { count: u64 },
    #[error("no memory")]
    NoMemory,
}

impl From<NoMemory> for SessionError {
    ghost use Rattle.std.specs.Prelude.{◌≡◌};
    ghost use Rattle.chain_session.specs.declared.error.SessionError.TheVariants.{NoMemory as OutOfMemory};

    ghost from_gives = { λ _ e. e ≡ OutOfMemory };

    fn from(_: NoMemory) -> Self {
        SessionError::NoMemory
    }
}

impl From<AllocError> for SessionError {
    ghost use Rattle.std.specs.Prelude.{◌≡◌};
    ghost use Rattle.chain_session.specs.declared.error.SessionError.TheVariants.{NoMemory as OutOfMemory};

    ghost from_gives = { λ _ e. e ≡ OutOfMemory };

    fn from(_: AllocError) -> Self {
        SessionError::NoMemory
    }
}

impl<T: Drop> From<AllocFailed<T>> for SessionError {
    ghost use Rattle.std.specs.Prelude.{◌≡◌};
    ghost use Rattle.chain_session.specs.declared.error.SessionError.TheVariants.{NoMemory as OutOfMemory};

    ghost from_gives = { λ _ e. e ≡ OutOfMemory };

    fn from(_: AllocFailed<T>) -> Self {
        SessionError::NoMemory
    }
}
