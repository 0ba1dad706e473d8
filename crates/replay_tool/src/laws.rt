// How what `chain` shows stands to the setup by which a trace is judged.
ghost use Rattle.std.specs.Prelude.{◌≡◌, ◌++◌, IsTrue, List, is_some, ℕ};
ghost use Rattle.std.specs.List.{concat};
ghost use Rattle.chain_build.specs.Setup.{SetupContent};
ghost use Rattle.program_words.specs.Asked.{ChainAsked};
ghost use Rattle.replay_model.specs.Setup.{outcome_text, refusal_of};
ghost use Rattle.report_text.specs.Setups.{trace_setup};
ghost use Rattle.replay_tool.specs.Showing.{shown_lines};

/// What is shown of a setup is its notes, and then the text of its outcome as at a call with number 0; without a driver the outcome
/// is a refusal.
pub fn what_is_shown_is_what_is_judged()
    ensures shown { (setup : SetupContent) (asked : ChainAsked) → concat (shown_lines setup asked)
        ≡ (trace_setup setup).notes ++ outcome_text ((trace_setup setup).outcome asked.layers) 0 }
    ensures refused { (setup : SetupContent) (payload : List ℕ) → (trace_setup setup).drivers ≡ 0
        → IsTrue (is_some (refusal_of ((trace_setup setup).outcome payload))) }
{}
