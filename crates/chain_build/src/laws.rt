// The numbers of a chain's limits (this project's own).
ghost use Rattle.std.specs.Prelude.{◌≡◌};
ghost use Rattle.chain_build.specs.declared.answers.TheConstants.{MOST_LAYERS};
ghost use Rattle.chain_build.specs.declared.listed.TheConstants.{MOST_LEVELS};

/// A chain has 64 layers at most, and 8 levels of meta-layers stand in one another at most.
pub fn the_limits_of_a_chain()
    ensures layers { MOST_LAYERS ≡ 64 }
    ensures levels { MOST_LEVELS ≡ 8 }
{}
