//! Paths that a search collects.
ghost use Rattle.std.specs.Prelude.{◌≤◌, vec_len};
ghost use Rattle.layer_search.specs.declared.path_list.TheConstants.{MOST_PATHS};

use std::collections::BTreeSet;

/// How many manifest files a search may meet.
pub const MOST_PATHS: usize = 4_096;

/// Paths, each once, and all that were met.
#[derive(Drop)]
pub(crate) struct PathList {
    pub(crate) seen: BTreeSet<String>,
    pub(crate) list: Vec<String>,
    ghost few: { vec_len list ≤ MOST_PATHS },
}
