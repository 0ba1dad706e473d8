//! What a merge is between setup and teardown.
ghost use Rattle.std.specs.Prelude.{◌≡◌, ℕ, List, None, length, reverse, true};
ghost use Rattle.std.specs.List.{AllByRecursion};
ghost use Rattle.trace_format.specs.Accepting.{are_accepted, fault_at_end, names_in};
ghost use Rattle.trace_format.specs.Content.{TraceEvent};
ghost use Rattle.trace_format.specs.Grammar.{IsEvent};
ghost use Rattle.stream_model.specs.FileLines.{FileLine};
ghost use Rattle.stream_model.specs.FileParts.{AreInOrder, parts};
ghost use Rattle.stream_model.specs.Order.{events, refusal_at_end};
ghost use Rattle.merge_model.specs.Merges.{IsMerge, merged_events};

/// Setup, any merge of the streams and teardown, one after the other, are a whole trace without a fault, with as many names and events as the
/// file has. The file's lines are in order and its events of the grammar, as those of any file that was read are.
pub fn a_merge_is_a_whole_trace()
    ensures accepted { (lines : List FileLine) (merge : List TraceEvent) → AreInOrder lines → AllByRecursion IsEvent (events lines) → IsMerge (parts lines).streams merge →
        are_accepted (reverse (merged_events (parts lines) merge)) ≡ true }
    ensures closed { (lines : List FileLine) (merge : List TraceEvent) → AreInOrder lines → AllByRecursion IsEvent (events lines) → refusal_at_end lines ≡ None → IsMerge (parts lines).streams merge →
        fault_at_end (reverse (merged_events (parts lines) merge)) ≡ None }
    ensures grammar { (lines : List FileLine) (merge : List TraceEvent) → AreInOrder lines → AllByRecursion IsEvent (events lines) → IsMerge (parts lines).streams merge →
        AllByRecursion IsEvent (merged_events (parts lines) merge) }
    ensures names { (lines : List FileLine) (merge : List TraceEvent) → AreInOrder lines → IsMerge (parts lines).streams merge →
        names_in (reverse (merged_events (parts lines) merge)) ≡ names_in (events lines) }
    ensures events { (lines : List FileLine) (merge : List TraceEvent) → AreInOrder lines → IsMerge (parts lines).streams merge →
        length (merged_events (parts lines) merge) ≡ length (events lines) }
{}
