//! The laws of the trace's grammar.
ghost use Rattle.std.specs.Prelude.{◌≡◌, ◌↔◌, ◌++◌, ◌∷◌, ℕ, Contains, IsErr, List, Ok};
ghost use Rattle.trace_format.specs.Content.{TraceEvent};
ghost use Rattle.trace_format.specs.Grammar.{IsEvent, Spells, spelling};
ghost use Rattle.trace_format.specs.Reading.{read_line};
ghost use Rattle.trace_format.specs.Words.{from, until};

/// A line spells an event exactly where reading it from its front gives that event, so it has a fault exactly where it
/// spells none.
pub fn reading_agrees_with_spelling()
    ensures spelled { (line : List ℕ) (e : TraceEvent) → Spells line e → read_line line ≡ Ok e }
    ensures read { (line : List ℕ) (e : TraceEvent) → read_line line ≡ Ok e → Spells line e }
    ensures faults { (line : List ℕ) → IsErr (read_line line) ↔ ((e : TraceEvent) → ¬ Spells line e) }
{}

/// No line spells two events, and no spelling holds a line feed.
pub fn a_line_spells_one_event()
    ensures one_event { (line : List ℕ) (e other : TraceEvent) → Spells line e → Spells line other → e ≡ other }
    ensures no_line_feed { (line : List ℕ) (e : TraceEvent) → Spells line e → ¬ Contains line 10 }
{}

/// What was printed is read again, whatever follows its line feed: the bytes up to the first line feed are the spelling, and
/// reading them gives the event.
pub fn a_printed_line_is_read_again()
    ensures line { (e : TraceEvent) (rest : List ℕ) → IsEvent e → until 10 (spelling e ++ 10 ∷ rest) ≡ spelling e }
    ensures rest { (e : TraceEvent) (rest : List ℕ) → IsEvent e → from 10 (spelling e ++ 10 ∷ rest) ≡ 10 ∷ rest }
    ensures event { (e : TraceEvent) → IsEvent e → read_line (spelling e) ≡ Ok e }
{}
