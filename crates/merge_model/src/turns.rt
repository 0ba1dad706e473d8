//! The law of the turns that make a merge.
ghost use Rattle.std.specs.Prelude.{◌≡◌, ℕ, List, map, nat_eq, reverse};
ghost use Rattle.std.specs.List.{AllByRecursion, IsDistinct};
ghost use Rattle.trace_format.specs.Content.{TraceEvent};
ghost use Rattle.stream_model.specs.FileParts.{IsOfOneThread, StreamPart};
ghost use Rattle.stream_model.specs.Order.{event_thread};
ghost use Rattle.stream_model.specs.Plans.{Along, events_along};
ghost use Rattle.merge_model.specs.Merges.{AreAllTaken, IsMerge};

/// Where threads took turns until each had as many as its stream has events, the events of these turns are a merge. Every merge comes about so.
/// The streams are of distinct threads, each of one thread alone.
pub fn turns_make_a_merge()
    ensures made { (streams : List StreamPart) (turns : List ℕ) → IsDistinct nat_eq (map (λ s. s.thread) streams) → AllByRecursion IsOfOneThread streams → Along streams turns → AreAllTaken streams turns →
        IsMerge streams (reverse (events_along streams turns)) }
    ensures along { (streams : List StreamPart) (merge : List TraceEvent) → IsMerge streams merge → Along streams (reverse (map event_thread merge)) }
    ensures taken { (streams : List StreamPart) (merge : List TraceEvent) → IsMerge streams merge → AreAllTaken streams (reverse (map event_thread merge)) }
    ensures events { (streams : List StreamPart) (merge : List TraceEvent) → IsMerge streams merge → events_along streams (reverse (map event_thread merge)) ≡ reverse merge }
{}
