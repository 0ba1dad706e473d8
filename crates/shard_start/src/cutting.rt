//! The plans that are cut from a file, and the session that stands for its setup.
ghost use Rattle.std.specs.Prelude.{ℕ, List, Some};
ghost use Rattle.std.specs.List.{AllByRecursion};
ghost use Rattle.stream_model.specs.Plans.{DevicePlan};
ghost use Rattle.chain_session.specs.declared.kept.Kept.{Kept};
ghost use Rattle.shard_start.specs.Cutting.{AreCutFrom, start_of};
ghost use Rattle.shard_start.specs.Starting.{CanStart};
ghost use Rattle.walk_bounds.specs.Bounds.{AllLight};

use chain_session::parts_follow_a_trace;
use stream_model::{
    a_device_follows_the_setup, a_stream_file_is_a_trace, a_stream_file_is_within_its_limits,
    a_stream_is_of_one_thread,
};

/// Each plan that is cut from a file can be followed from a session that stands for the file's setup, and no call is open in its parts then.
pub fn a_cut_plan_can_start()
    ensures starts { (k : Kept) (plans : List DevicePlan) → AreCutFrom (Some k) plans → AllByRecursion (λ (p : DevicePlan). CanStart (start_of k) p.streams) plans }
    ensures idle { (k : Kept) (plans : List DevicePlan) (n : ℕ) (threads : List ℕ) → AreCutFrom (Some k) plans → AllLight n threads k.parts.states.kept }
{
    parts_follow_a_trace();
    a_device_follows_the_setup();
    a_stream_is_of_one_thread();
    a_stream_file_is_a_trace();
    a_stream_file_is_within_its_limits();
}
