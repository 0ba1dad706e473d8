// The numbers of a search's limits (this project's own).
ghost use Rattle.std.specs.Prelude.{◌≡◌};
ghost use Rattle.layer_search.specs.declared.files.TheConstants.{MOST_BYTES};
ghost use Rattle.layer_search.specs.declared.path_list.TheConstants.{MOST_PATHS};

/// A search meets 4,096 manifest files at most, and a manifest file has 1,048,576 bytes at most.
pub fn the_limits_of_a_search()
    ensures files { MOST_PATHS ≡ 4096 }
    ensures bytes { MOST_BYTES ≡ 1048576 }
{}
