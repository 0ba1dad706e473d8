//! Why a search has no answer.
ghost use Rattle.std.specs.Prelude.{◌≡◌};
ghost use Rattle.layer_search.specs.Causes.{search_error};

use env_filters::NoMemory;
use replay_base::TreeError;
use std::alloc::{AllocError, AllocFailed};
use thiserror::Error;

/// Why a search has no answer.
#[derive(Clone, Copy, Debug, PartialEq, Eq, Error)]
pub enum SearchError {
    /// The tree failed. It has counted that in the same call.
    #[error("the tree of files could not be read")]
    Tree,
    /// The search met more manifest files than the 4,096 that it may: `count` is 4,097.
    #[error("{count} manifest files are too many")]
    TooMany { count: u32 },
    /// There was no memory. It may come from any call.
    #[error("out of memory")]
    NoMemory,
}

impl From<AllocError> for SearchError {
    ghost use Rattle.layer_search.specs.declared.errors.SearchError.TheVariants.{NoMemory};

    ghost from_gives = { λ _ e. e ≡ NoMemory };

    fn from(_: AllocError) -> SearchError {
        SearchError::NoMemory
    }
}

impl<T: Drop> From<AllocFailed<T>> for SearchError {
    ghost use Rattle.layer_search.specs.declared.errors.SearchError.TheVariants.{NoMemory};

    ghost from_gives = { λ _ e. e ≡ NoMemory };

    fn from(_: AllocFailed<T>) -> SearchError {
        SearchError::NoMemory
    }
}

impl From<NoMemory> for SearchError {
    ghost use Rattle.layer_search.specs.declared.errors.SearchError.TheVariants as error;

    ghost from_gives = { λ _ e. e ≡ error.NoMemory };

    fn from(_: NoMemory) -> SearchError {
        SearchError::NoMemory
    }
}

impl From<TreeError> for SearchError {
    ghost from_gives = { λ cause e. e ≡ search_error cause };

    fn from(cause: TreeError) -> SearchError {
        match cause {
            TreeError::Failed => SearchError::Tree,
            TreeError::NoMemory => SearchError::NoMemory,
        }
    }
}
