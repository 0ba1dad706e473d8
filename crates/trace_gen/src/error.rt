// Why a trace wasn't written.
use replay_base::{Failed, NoMemory};
use thiserror::Error;

/// Why a generated trace wasn't written.
#[derive(Clone, Copy, Debug, PartialEq, Eq, Error)]
pub enum GenError {
    /// The sink failed.
    #[error("the sink failed")]
    Write,
    /// There was no memory. Nothing was written then.
    #[error("out of memory")]
    NoMemory,
}

impl From<Failed> for GenError {
    ghost use Rattle.std.specs.Prelude.{◌≡◌};
    ghost use Rattle.trace_gen.specs.declared.error.GenError.TheVariants.{Write};

    ghost from_gives = { λ _ e. e ≡ Write };

    fn from(_: Failed) -> Self {
        GenError::Write
    }
}

impl From<NoMemory> for GenError {
    ghost use Rattle.std.specs.Prelude.{◌≡◌};
    ghost use Rattle.trace_gen.specs.declared.error.GenError.TheVariants.{NoMemory as OutOfMemory};

    ghost from_gives = { λ _ e. e ≡ OutOfMemory };

    fn from(_: NoMemory) -> Self {
        GenError::NoMemory
    }
}
