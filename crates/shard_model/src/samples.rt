//! Small logs along their plans, by computation.
ghost use Rattle.std.specs.Prelude.{◌≡◌, ℕ, true, false, Some, None, [], ◌∷◌};
ghost use Rattle.command_tables.specs.declared.types.Code.TheVariants as code;
ghost use Rattle.command_tables.specs.declared.types.CommandId.TheVariants as cmd;
ghost use Rattle.stream_log.specs.Log.{line};
ghost use Rattle.trace_format.specs.Content.{Begin, Return};
ghost use Rattle.session_model.specs.Samples.{one_handle, three_parts};
ghost use Rattle.shard_model.specs.Followed.{Follows, events_of, next_event};
ghost use Rattle.shard_model.specs.Replies.{AreReplies};
ghost use Rattle.shard_model.specs.Samples.{begun_twice, buffer, buffer_destroyed, fence, lost_buffer, not_destroyed, not_made, refusal, replied, returned_twice, told_behind, two_streams, with_device};

/// A thread's next event is by its own steps alone, and a log's events are those of its threads, as they follow each other there.
pub fn two_threads_follow_their_plan()
    ensures first { next_event two_streams 1 [] ≡ Some (Begin buffer) }
    ensures other_began { next_event two_streams 1 (line 2 1 true [] ∷ []) ≡ Some (Begin buffer) }
    ensures began { next_event two_streams 1 begun_twice ≡ Some (Return 1) }
    ensures ended { next_event two_streams 1 (returned_twice 5 5) ≡ None }
    ensures without_a_stream { next_event two_streams 3 [] ≡ None }
    ensures events { events_of two_streams (returned_twice 5 5) ≡ Return 1 ∷ Return 2 ∷ Begin fence ∷ Begin buffer ∷ [] }
    ensures follows { Follows two_streams (returned_twice 5 5) }
{}

/// An entry of a thread without a stream, a begin with results, and a return where a begin is next follow no plan; nor does a step behind the last event.
pub fn entries_that_follow_no_plan()
    ensures without_a_stream { Follows two_streams (line 3 1 true [] ∷ []) → ⊥ }
    ensures begin_with_results { Follows two_streams (line 1 1 true (5 ∷ []) ∷ []) → ⊥ }
    ensures return_first { Follows two_streams (line 1 1 false [] ∷ []) → ⊥ }
    ensures behind_the_last { Follows two_streams (line 1 5 true [] ∷ returned_twice 5 5) → ⊥ }
{}

/// The replies stand in the order of the begins, whichever call returns first. While the calls are open, anything may be replied.
pub fn replies_stand_as_calls_began()
    ensures returned { AreReplies three_parts with_device replied two_streams (returned_twice 6 5) (one_handle 6 ∷ one_handle 5 ∷ replied) }
    ensures swapped { AreReplies three_parts with_device replied two_streams (returned_twice 6 5) (one_handle 5 ∷ one_handle 6 ∷ replied) → ⊥ }
    ensures both_open { AreReplies three_parts with_device replied two_streams begun_twice (one_handle 20 ∷ one_handle 30 ∷ replied) }
{}

/// The first call is told on the driver's own handle of the device, and so is the second, whatever is replied to the first.
pub fn calls_are_told_on_the_device()
    ensures first { told_behind two_streams [] replied buffer ≡ record { driver = 0; cmd = cmd.CreateBuffer; args = (9 ∷ []) ∷ []; asked = 1; code = Some code.Success; payload = [] } ∷ [] }
    ensures second { (n : ℕ) → told_behind two_streams (line 1 1 true [] ∷ []) (one_handle n ∷ replied) fence ≡ record { driver = 0; cmd = cmd.CreateFence; args = (9 ∷ []) ∷ []; asked = 1; code = Some code.Success; payload = [] } ∷ [] }
{}

/// A buffer that isn't made is destroyed. That call is skipped, is told to nobody and has no reply; the one before it has one without handles.
pub fn a_skipped_call_has_no_reply()
    ensures untold { told_behind lost_buffer not_made (refusal ∷ replied) buffer_destroyed ≡ [] }
    ensures one { AreReplies three_parts with_device replied lost_buffer not_destroyed (refusal ∷ replied) }
{}
