// What a reader finds in a generated trace, and where a replay of it stops.
ghost use Rattle.std.specs.Prelude.{◌≡◌, ◌≤◌, None, reverse, ℕ};
ghost use Rattle.replay_model.specs.Setup.{Setup};
ghost use Rattle.replay_model.specs.Stop.{events_of, stop};
ghost use Rattle.trace_gen.specs.Accepted.{IsFaultless};
ghost use Rattle.trace_gen.specs.Stops.{StopsAtLayersAlone};
ghost use Rattle.trace_gen.specs.Text.{generated, generated_events};
ghost use Rattle.trace_gen.specs.declared.turns.TheConstants.{MOST_CALLS as MOST};

/// A generated trace has no fault: its lines are the header and those of its events, each of which may follow those before it.
pub fn facts_of_traces()
    ensures { (number calls : ℕ) → calls ≤ MOST → IsFaultless (generated number calls) (generated_events number calls) }
{}

/// Under any setup nothing but the limit on layers stops a generated trace, and where that doesn't, its events are all that were generated.
pub fn facts_of_stops()
    ensures stops { (s : Setup) (number calls : ℕ) → calls ≤ MOST → StopsAtLayersAlone (stop s (generated number calls)) }
    ensures events { (s : Setup) (number calls : ℕ) → calls ≤ MOST → stop s (generated number calls) ≡ None → events_of s (generated number calls) ≡ reverse (generated_events number calls) }
{}

/// A trace of 1,000,000 turns at most is generated.
pub fn the_limit_of_turns()
    ensures { MOST ≡ 1000000 }
{}
