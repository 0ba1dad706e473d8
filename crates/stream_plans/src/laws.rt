//! The laws of plans.
ghost use Rattle.std.specs.Prelude.{◌≡◌, ◌≤◌, List, length};
ghost use Rattle.std.specs.List.{AllByRecursion, IsDistinct};
ghost use Rattle.trace_format.specs.Accepting.{same_name};
ghost use Rattle.trace_format.specs.Grammar.{IsEvent};
ghost use Rattle.stream_model.specs.declared.limits.TheConstants.{MOST_DEVICES as DEVICES};
ghost use Rattle.stream_model.specs.FileLines.{FileLine};
ghost use Rattle.stream_model.specs.FileParts.{AreInOrder, parts};
ghost use Rattle.stream_model.specs.Order.{devices_named, events};
ghost use Rattle.merge_model.specs.Planned.{AreOnThese};
ghost use Rattle.stream_plans.specs.Cuts.{devices_cut};

/// The devices that are planned are those that the streams name as their lines come. The lines are in order and their events of the grammar, as
/// those of any file that was read are.
pub fn each_device_is_planned()
    ensures { (lines : List FileLine) → AreInOrder lines → AllByRecursion IsEvent (events lines) → devices_cut (parts lines) ≡ devices_named lines }
{}

/// Each call of the streams is on one of the devices that are planned, which are distinct and few. The lines are in order and their events of the
/// grammar, as those of any file that was read are.
pub fn each_call_is_on_a_planned_device()
    ensures on { (lines : List FileLine) → AreInOrder lines → AllByRecursion IsEvent (events lines) → AreOnThese (parts lines) (devices_cut (parts lines)) }
    ensures distinct { (lines : List FileLine) → AreInOrder lines → AllByRecursion IsEvent (events lines) → IsDistinct same_name (devices_cut (parts lines)) }
    ensures few { (lines : List FileLine) → AreInOrder lines → AllByRecursion IsEvent (events lines) → length (devices_cut (parts lines)) ≤ DEVICES }
{}
