//! What is true of the values that a policy gives.
ghost use Rattle.std.specs.Prelude.{◌≡◌, ℕ, Bool, List};
ghost use Rattle.model_driver.specs.Laws.{FreshIsNew, ReusedIsLeast, GivenIsOut, BackIsNotOut};
ghost use Rattle.model_driver.specs.SeatRows.{AnswersInTurn, CutsLists, KeepsCalls, TakesRoom};

/// A fresh value was never given before; a value that is used again is the least positive one that is not out; what is
/// given is out then, and what comes back is not.
pub fn values_by_policy()
    ensures fresh { FreshIsNew }
    ensures reused { ReusedIsLeast }
    ensures out { GivenIsOut }
    ensures back { BackIsNotOut }
{}

/// Seats on small rows: what they answer by each policy, what room calls take, and how a list of calls is kept.
pub fn rows_of_seats()
    ensures answers { AnswersInTurn }
    ensures room { TakesRoom }
    ensures lists { CutsLists }
    ensures calls { KeepsCalls }
{}
