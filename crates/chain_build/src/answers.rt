//! What comes of building a chain.
//! Source: Khronos Vulkan-Loader, LoaderApplicationInterface.md (the errors of vkCreateInstance); that a checking part needs a
//! wrapping one nearer the driver, and the limit on layers, are this project's choices.
ghost use Rattle.std.specs.Prelude.{◌≡◌};

use layer_search::{FoundDriver, FoundLayer};
use object_model::PartKind;
use std::alloc::{AllocError, AllocFailed};
use thiserror::Error;

/// How many layers a chain may have.
pub const MOST_LAYERS: usize = 64;

/// What is said beside a chain, once for each occurrence of the name.
#[derive(Debug, PartialEq, Eq)]
pub enum ChainNote {
    /// A name of `VK_INSTANCE_LAYERS` that no layer has which can be used.
    EnvMissing(String),
    /// A layer that the application names and that is off.
    Off(String),
}

impl Drop for ChainNote {
    fn drop(self) {
        match self {
            ChainNote::EnvMissing(_part) => {}
            ChainNote::Off(_part) => {}
        }
    }
}

/// A chain: its layers from the application down, its parts with the places of their layers from 1, the drivers, and notes.
#[derive(Debug, PartialEq, Eq)]
pub struct Chain {
    pub layers: Vec<FoundLayer>,
    pub parts: Vec<(PartKind, u32)>,
    pub drivers: Vec<FoundDriver>,
    pub notes: Vec<ChainNote>,
}

impl Drop for Chain {
    fn drop(self) {
        let Chain {
            layers: _layers,
            parts: _parts,
            drivers: _drivers,
            notes: _notes,
        } = self;
    }
}

/// A chain, or why there is none.
#[derive(Debug, Drop, PartialEq, Eq)]
pub enum ChainAnswer {
    Chain(Chain),
    /// The first name of the application that no layer has which can be used.
    LayerNotPresent { name: String },
    /// No driver is left.
    NoDriver,
    /// The first layer that has a checking part without a unique part nearer the driver.
    Unguarded { layer: String },
}

/// Why building a chain has no answer.
#[derive(Clone, Copy, Debug, PartialEq, Eq, Error)]
pub enum ChainError {
    /// The chain would have so many layers, more than the 64 that it may have.
    #[error("{count} layers are too many")]
    TooLong { count: u64 },
    /// There was no memory. It may come from any call.
    #[error("out of memory")]
    NoMemory,
}

impl From<AllocError> for ChainError {
    ghost use Rattle.chain_build.specs.declared.answers.ChainError.TheVariants.{NoMemory};

    ghost from_gives = { λ _ e. e ≡ NoMemory };

    fn from(_: AllocError) -> ChainError {
        ChainError::NoMemory
    }
}

impl<T: Drop> From<AllocFailed<T>> for ChainError {
    ghost use Rattle.chain_build.specs.declared.answers.ChainError.TheVariants.{NoMemory};

    ghost from_gives = { λ _ e. e ≡ NoMemory };

    fn from(_: AllocFailed<T>) -> ChainError {
        ChainError::NoMemory
    }
}

impl From<env_filters::NoMemory> for ChainError {
    ghost use Rattle.chain_build.specs.declared.answers.ChainError.TheVariants as error;

    ghost from_gives = { λ _ e. e ≡ error.NoMemory };

    fn from(_: env_filters::NoMemory) -> ChainError {
        ChainError::NoMemory
    }
}
