//! What is true of the results of every call.
ghost use Rattle.std.specs.Prelude.{◌≡◌, ℕ, List};
ghost use Rattle.dispatch_chain.specs.Kept.{LostAreOnce, OneIsOnce, WrappedAreOnce};

/// Results that are all lost, as those of a call that was stopped, a single result, and results for which unique parts issue ids meet
/// the condition of `walk_leave` at any chain.
pub fn results_are_once()
    ensures lost { LostAreOnce }
    ensures one { OneIsOnce }
    ensures wrapped { WrappedAreOnce }
{}
