//! The law of the calls of a stream.
ghost use Rattle.std.specs.Prelude.{◌≡◌, List, None};
ghost use Rattle.std.specs.List.{AllByRecursion, IsDistinct};
ghost use Rattle.trace_format.specs.declared.event.Name.{Name};
ghost use Rattle.trace_format.specs.Accepting.{same_name};
ghost use Rattle.stream_model.specs.FileLines.{FileLine};
ghost use Rattle.stream_model.specs.FileParts.{AreInOrder, StreamPart, parts};
ghost use Rattle.stream_model.specs.Order.{refusal_at_end};
ghost use Rattle.stream_model.specs.Plans.{device_written};
ghost use Rattle.merge_model.specs.Planned.{AreCallsOf, AreOnThese, calls_planned};

/// The calls of each stream of a whole file, each with the number of its device among distinct ones that have all of them: together they are the
/// stream, and those on one device are what the device's plan has of it.
pub fn each_call_has_its_plan()
    ensures { (lines : List FileLine) (devices : List Name) → AreInOrder lines → refusal_at_end lines ≡ None → IsDistinct same_name devices → AreOnThese (parts lines) devices →
        AllByRecursion (λ (s : StreamPart). AreCallsOf (parts lines) devices s (calls_planned (device_written (parts lines)) devices s.events)) (parts lines).streams }
{}
