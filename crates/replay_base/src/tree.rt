// A tree of files.
ghost use Rattle.std.specs.Prelude.{◌≡◌, List, ℕ, Option, OnOk, IfOk, map, string_bytes};
ghost use Rattle.replay_base.specs.Files.{File, Lists, Reads, HasTreeCause, IsListing, names_in};

use std::alloc::{AllocError, AllocFailed};
use thiserror::Error;

/// Why a tree didn't answer.
#[derive(Clone, Copy, Debug, PartialEq, Eq, Error)]
pub enum TreeError {
    /// The outside failed. The tree has counted it in the same call.
    #[error("the tree of files could not be read")]
    Failed,
    /// There was no memory. It may come from any call.
    #[error("out of memory")]
    NoMemory,
}

impl From<AllocError> for TreeError {
    ghost use Rattle.replay_base.specs.declared.tree.TreeError.TheVariants.{NoMemory};

    ghost from_gives = { λ _ e. e ≡ NoMemory };

    fn from(_: AllocError) -> TreeError {
        TreeError::NoMemory
    }
}

impl<T: Drop> From<AllocFailed<T>> for TreeError {
    ghost use Rattle.replay_base.specs.declared.tree.TreeError.TheVariants.{NoMemory};

    ghost from_gives = { λ _ e. e ≡ NoMemory };

    fn from(_: AllocFailed<T>) -> TreeError {
        TreeError::NoMemory
    }
}

/// What was read at a path.
#[derive(Clone, Copy, Debug, PartialEq, Eq)]
pub enum TreeRead {
    /// The bytes of the file.
    Data,
    /// There is no file.
    Absent,
    /// The file has more bytes than were asked for.
    TooLarge,
}

/// Files by their paths, in a tree that counts its faults. What a call fills holds afterwards only what the call gave,
/// and after an error anything.
pub trait Tree {
    /// The files, where the tree tells them. No call changes them.
    ghost files: { Self → Option (List File) };

    /// How often it has failed.
    ghost faults: { Self → ℕ };

    /// Gives the names in a folder, each once and in any order; none for a folder that isn't there.
    fn list(&mut self, folder: &str, out: &mut Vec<String>) -> Result<(), TreeError>
        ensures names { OnOk result (Lists (files self.old) folder.now (map string_bytes out.new.items)) }
        ensures same { files self.new ≡ files self.old }
        ensures cause { HasTreeCause (faults self.old) (faults self.new) result };

    /// Gives the bytes of the file at a path, where it is there and they are at most `max`.
    fn read(&mut self, path: &str, max: usize, out: &mut Vec<u8>) -> Result<TreeRead, TreeError>
        ensures bytes { IfOk result (λ answer. Reads (files self.old) path.now max answer out.new.items) }
        ensures same { files self.new ≡ files self.old }
        ensures cause { HasTreeCause (faults self.old) (faults self.new) result };
}

/// The names in a folder are just those whose paths are those of files, each once.
#[tactic(auto, using(crate::proofs::FileLemmas::listing))]
pub fn facts_of_listings()
    ensures { (files : List File) (folder : List ℕ) → IsListing files folder (names_in files folder) }
{}
