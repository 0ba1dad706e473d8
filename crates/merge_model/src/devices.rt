//! The law of what a merge has of a device.
ghost use Rattle.std.specs.Prelude.{◌≡◌, ℕ, List, map};
ghost use Rattle.trace_format.specs.declared.event.Name.{Name};
ghost use Rattle.stream_model.specs.FileLines.{FileLine};
ghost use Rattle.stream_model.specs.FileParts.{AreInOrder, parts};
ghost use Rattle.stream_model.specs.Order.{event_thread};
ghost use Rattle.stream_model.specs.Plans.{Along, device_written, events_along, plan_cut};
ghost use Rattle.merge_model.specs.Merges.{events_on};

/// What the events of turns have of a device follows the device's plan, by the threads of just these events. So what a merge has of a device is what
/// the plan makes of some turns.
pub fn a_device_of_a_merge_follows_its_plan()
    ensures along { (lines : List FileLine) (device : Name) (turns : List ℕ) → AreInOrder lines → Along (parts lines).streams turns →
        Along (plan_cut (parts lines) device).streams (map event_thread (events_on (device_written (parts lines)) device (events_along (parts lines).streams turns))) }
    ensures events { (lines : List FileLine) (device : Name) (turns : List ℕ) → AreInOrder lines → Along (parts lines).streams turns →
        events_along (plan_cut (parts lines) device).streams (map event_thread (events_on (device_written (parts lines)) device (events_along (parts lines).streams turns)))
        ≡ events_on (device_written (parts lines)) device (events_along (parts lines).streams turns) }
{}
