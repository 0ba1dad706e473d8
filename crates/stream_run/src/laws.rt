//! What a file that is ready gives a run, and what a run of it comes to.
ghost use Rattle.std.specs.Prelude.{◌≡◌, ℕ, [], List, Option, Some, map, nat_eq, reverse, slice_get};
ghost use Rattle.std.specs.List.{IsDistinct, slice_index_or};
ghost use Rattle.command_tables.specs.Calls.{ReplyContent};
ghost use Rattle.stream_log.specs.declared.line.Line.{Line};
ghost use Rattle.trace_format.specs.declared.event.Name.{Name};
ghost use Rattle.trace_format.specs.Content.{TraceEvent};
ghost use Rattle.chain_session.specs.declared.kept.Kept.{Kept};
ghost use Rattle.stream_model.specs.FileParts.{FileParts};
ghost use Rattle.stream_model.specs.Plans.{device_written, events_along, plan_cut};
ghost use Rattle.merge_model.specs.Merges.{IsMerge, events_on};
ghost use Rattle.device_shard.specs.Making.{AreNamedBy};
ghost use Rattle.device_shard.specs.Plans.{plan_content};
ghost use Rattle.device_shard.specs.Sets.{logs_of};
ghost use Rattle.device_shard.specs.Shards.{ShardName};
ghost use Rattle.stream_plans.specs.Cuts.{devices_cut};
ghost use Rattle.stream_workers.specs.Calls.{MadeCall};
ghost use Rattle.stream_run.specs.declared.prepare.Prepared.{Prepared};
ghost use Rattle.stream_run.specs.Gathering.{IsGathered};
ghost use Rattle.stream_run.specs.Naming.{CanRun, names_of};
ghost use Rattle.stream_run.specs.Preparing.{IsPrepared};
ghost use Rattle.stream_run.specs.Running.{AllMade, IsReadyToRun, marks_of};

use merge_facts::{each_log_is_its_device_of_the_merge, logs_say_a_merge};
use merge_model::each_call_has_its_plan;
use shard_start::a_cut_plan_can_start;
use stream_model::a_stream_is_of_one_thread;
use stream_plans::{each_call_is_on_a_planned_device, each_device_is_planned};

/// The threads of a file that is ready are distinct. What is prepared has names, and with these it can run.
pub(crate) fn a_ready_file_can_be_run()
    ensures distinct { (k : Option Kept) (file : FileParts) → IsReadyToRun k file → IsDistinct nat_eq (map (λ s. s.thread) file.streams) }
    ensures named { (k : Option Kept) (file : FileParts) (p : Prepared) → IsReadyToRun k file → IsPrepared file p →
        AreNamedBy k (map plan_content p.plans.items) (names_of k (map plan_content p.plans.items) (map (λ l. l.0) p.logs.items)) }
    ensures logs { (k : Option Kept) (file : FileParts) (p : Prepared) → IsReadyToRun k file → IsPrepared file p →
        logs_of (names_of k (map plan_content p.plans.items) (map (λ l. l.0) p.logs.items)) ≡ map (λ l. l.0) p.logs.items }
    ensures can { (k : Option Kept) (file : FileParts) (p : Prepared) (names : List ShardName) → IsReadyToRun k file → IsPrepared file p → AreNamedBy k (map plan_content p.plans.items) names → logs_of names ≡ map (λ l. l.0) p.logs.items →
        CanRun k file p names }
{
    a_stream_is_of_one_thread();
    each_device_is_planned();
    each_call_is_on_a_planned_device();
    each_call_has_its_plan();
    a_cut_plan_can_start();
}

/// What the logs say of calls that the threads have made is a merge of the streams, and has of each device what its log says.
pub(crate) fn what_was_made_is_a_merge()
    ensures merge { (k : Option Kept) (file : FileParts) (logs : List (List Line)) (made : List (List MadeCall)) (events : List TraceEvent) (replies : List ReplyContent) →
        IsReadyToRun k file → AllMade k file logs made → IsGathered file.streams (marks_of made) logs events replies → IsMerge file.streams events }
    ensures each { (k : Option Kept) (file : FileParts) (logs : List (List Line)) (made : List (List MadeCall)) (events : List TraceEvent) (replies : List ReplyContent) (number : ℕ) (device : Name) →
        IsReadyToRun k file → AllMade k file logs made → IsGathered file.streams (marks_of made) logs events replies → slice_get (devices_cut file) number ≡ Some device →
        events_on (device_written file) device (reverse events) ≡ events_along (plan_cut file device).streams (reverse (map (λ e. e.thread) (slice_index_or logs number []))) }
{
    each_call_is_on_a_planned_device();
    logs_say_a_merge();
    each_log_is_its_device_of_the_merge();
}
