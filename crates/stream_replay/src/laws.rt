//! What the sections of a file are to a session, one after the other.
ghost use Rattle.std.specs.Prelude.{◌≡◌, ◌++◌, ◌<◌, ◌^◌, List, false, length, reverse};
ghost use Rattle.std.specs.List.{AllByRecursion, flat_map, list_any};
ghost use Rattle.trace_format.specs.Content.{TraceEvent};
ghost use Rattle.trace_format.specs.Grammar.{IsEvent};
ghost use Rattle.replay_base.specs.Changes.{Change};
ghost use Rattle.replay_model.specs.Setup.{Setup};
ghost use Rattle.replay_model.specs.Stop.{exceeds_layers};
ghost use Rattle.chain_model.specs.Gaps.{IsGapped};
ghost use Rattle.stream_model.specs.FileParts.{FileParts, StreamPart};
ghost use Rattle.merge_model.specs.Merges.{IsMerge, merged_events};
ghost use Rattle.threaded_replay.specs.Reading.{ReadsFile};
ghost use Rattle.stream_replay.specs.Replayed.{IsWholeFile};

use chain_model::a_trace_has_new_names;
use merge_model::a_merge_is_a_whole_trace;
use stream_model::{a_stream_file_is_a_trace, a_stream_file_is_within_its_limits};
use stream_plans::each_call_is_on_a_planned_device;

/// The setup of a whole file may come first; behind it any merge of the streams may come, and then teardown. No
/// call of a merge makes a chain.
pub(crate) fn sections_follow_each_other()
    ensures setup { (file : FileParts) → IsWholeFile file → IsGapped (reverse file.setup) }
    ensures short { (file : FileParts) → IsWholeFile file → length file.setup < 2 ^ 63 }
    ensures whole { (file : FileParts) (merge : List TraceEvent) → IsWholeFile file → IsMerge file.streams merge → IsGapped (reverse file.teardown ++ (reverse merge ++ reverse file.setup)) }
    ensures few { (file : FileParts) (merge : List TraceEvent) → IsWholeFile file → IsMerge file.streams merge → length (merged_events file merge) < 2 ^ 63 }
    ensures within { (s : Setup) (file : FileParts) (merge : List TraceEvent) → IsWholeFile file → IsMerge file.streams merge → list_any (exceeds_layers s) merge ≡ false }
{
    a_stream_file_is_a_trace();
    a_stream_file_is_within_its_limits();
    a_merge_is_a_whole_trace();
    a_trace_has_new_names();
    each_call_is_on_a_planned_device();
}

/// The events of a whole file's sections, and those of a merge of its streams, are of the grammar.
pub fn the_events_of_a_whole_file_are_of_the_grammar()
    ensures setup { (file : FileParts) → IsWholeFile file → AllByRecursion IsEvent file.setup }
    ensures merge { (file : FileParts) (merge : List TraceEvent) → IsWholeFile file → IsMerge file.streams merge → AllByRecursion IsEvent merge }
    ensures teardown { (file : FileParts) → IsWholeFile file → AllByRecursion IsEvent file.teardown }
{
    a_merge_is_a_whole_trace();
    a_stream_file_is_a_trace();
}

/// No call of a whole file's streams makes a chain.
pub fn no_call_of_a_stream_makes_a_chain()
    ensures { (s : Setup) (file : FileParts) → IsWholeFile file → list_any (exceeds_layers s) (flat_map (λ (x : StreamPart). x.events) file.streams) ≡ false }
{
    each_call_is_on_a_planned_device();
}

/// A file that was read is whole.
pub fn a_file_that_was_read_is_whole()
    ensures { (source : Change) (file : FileParts) → ReadsFile source file → IsWholeFile file }
{}
