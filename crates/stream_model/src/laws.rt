//! The laws of a stream file.
ghost use Rattle.std.specs.Prelude.{◌≡◌, ◌++◌, ◌≤◌, ℕ, List, None, Ok, All, length, nat_eq, reverse, true};
ghost use Rattle.std.specs.List.{AllByRecursion, IsDistinct};
ghost use Rattle.trace_format.specs.declared.event.Name.{Name};
ghost use Rattle.trace_format.specs.Accepting.{are_accepted, fault_at_end, names_in};
ghost use Rattle.trace_format.specs.Grammar.{IsEvent};
ghost use Rattle.chain_model.specs.Gaps.{IsGapped};
ghost use Rattle.stream_model.specs.declared.limits.TheConstants.{MOST_DEVICES as DEVICES, MOST_EVENTS as EVENTS, MOST_NAMES as NAMES, MOST_STREAMS as STREAMS};
ghost use Rattle.stream_model.specs.FileLines.{FileLine};
ghost use Rattle.stream_model.specs.FileParts.{AreInOrder, IsStreamFile, IsOfOneThread, all_events, parts};
ghost use Rattle.stream_model.specs.Order.{devices_named, events, refusal_at_end, stream_threads};
ghost use Rattle.stream_model.specs.Plans.{Along, events_along, plan_cut};
ghost use Rattle.stream_model.specs.Refusals.{file_lines};

/// Setup, the streams in the file's order and teardown, one after the other, are a whole trace.
pub fn a_stream_file_is_a_trace()
    ensures accepted { (lines : List FileLine) → AreInOrder lines → are_accepted (events lines) ≡ true }
    ensures closed { (lines : List FileLine) → AreInOrder lines → refusal_at_end lines ≡ None → fault_at_end (events lines) ≡ None }
    ensures order { (lines : List FileLine) → AreInOrder lines → all_events (parts lines) ≡ reverse (events lines) }
{}

/// What is read without a refusal is a stream file.
pub fn what_was_read_is_a_stream_file()
    ensures { (bytes : List ℕ) (lines : List FileLine) → file_lines bytes ≡ Ok lines → IsStreamFile (parts lines) }
{}

/// The events of what was read are of the grammar.
pub fn what_was_read_is_of_the_grammar()
    ensures { (bytes : List ℕ) (lines : List FileLine) → file_lines bytes ≡ Ok lines → AllByRecursion IsEvent (events lines) }
{}

/// A stream has the events of its thread alone, and no thread has two streams.
pub fn a_stream_is_of_one_thread()
    ensures events { (lines : List FileLine) → AreInOrder lines → All IsOfOneThread (parts lines).streams }
    ensures distinct { (lines : List FileLine) → AreInOrder lines → IsDistinct nat_eq (stream_threads lines) }
{}

/// A file is within its limits.
pub fn a_stream_file_is_within_its_limits()
    ensures streams { (lines : List FileLine) → AreInOrder lines → length (stream_threads lines) ≤ STREAMS }
    ensures names { (lines : List FileLine) → AreInOrder lines → names_in (events lines) ≤ NAMES }
    ensures events { (lines : List FileLine) → AreInOrder lines → length (events lines) ≤ EVENTS }
    ensures devices { (lines : List FileLine) → AreInOrder lines → length (devices_named lines) ≤ DEVICES }
{}

/// What the threads of a stream file do on one device, in whatever order they take turns there, may come behind the file's setup. Its lines
/// are in order and its events of the grammar, as those of any file that was read are.
pub fn a_device_follows_the_setup()
    ensures { (lines : List FileLine) (device : Name) (threads : List ℕ) → AreInOrder lines → AllByRecursion IsEvent (events lines) → Along (plan_cut (parts lines) device).streams threads →
        IsGapped (events_along (plan_cut (parts lines) device).streams threads ++ reverse (parts lines).setup) }
{}
