//! The law of what seats are told.
ghost use Rattle.std.specs.Prelude.{◌≡◌, ◌++◌, List, Option, map, reverse};
ghost use Rattle.std.specs.List.{flat_map};
ghost use Rattle.command_tables.specs.Calls.{ReplyContent};
ghost use Rattle.stream_log.specs.declared.line.Line.{Line};
ghost use Rattle.trace_format.specs.Content.{TraceEvent};
ghost use Rattle.replay_model.specs.Setup.{Setup};
ghost use Rattle.chain_model.specs.Traces.{GivesGuarded};
ghost use Rattle.chain_session.specs.declared.kept.Kept.{Kept};
ghost use Rattle.chain_session.specs.Standing.{StandsFor};
ghost use Rattle.stream_model.specs.FileParts.{FileParts};
ghost use Rattle.stream_workers.specs.Calls.{MadeCall, exchange_made};
ghost use Rattle.stream_run.specs.Gathering.{IsGathered};
ghost use Rattle.stream_run.specs.Running.{AllMade, IsReadyToRun, marks_of};
ghost use Rattle.seat_facts.specs.Told.{AreAnswered, told_by_thread};

use chain_session::parts_follow_a_trace;
use device_facts::a_device_is_by_itself;
use merge_facts::{
    a_thread_stands_as_it_was_made, each_log_is_its_device_of_the_merge, logs_say_a_merge,
};
use merge_model::each_call_has_its_plan;
use stream_model::a_device_follows_the_setup;
use stream_plans::each_call_is_on_a_planned_device;

/// For every list of replies with which the session stands for the setup of a file: what the calls of each stream told their driver, with the
/// replies, is what the trace of setup and merge makes for the stream's thread behind the setup. And the replies of the merge are, in the order of
/// the begins, those to just the driver calls that this trace makes.
pub fn seats_are_told_what_the_trace_says()
    ensures told { (s : Setup) (k : Option Kept) (file : FileParts) (logs : List (List Line)) (made : List (List MadeCall)) (events : List TraceEvent) (replies first : List ReplyContent) →
        IsReadyToRun k file → AllMade k file logs made → IsGathered file.streams (marks_of made) logs events replies → GivesGuarded s → StandsFor s k (reverse file.setup) first →
        map (flat_map exchange_made) made ≡ map (λ x. told_by_thread s x.thread (reverse file.setup) (reverse events) (reverse replies ++ first)) file.streams }
    ensures answered { (s : Setup) (k : Option Kept) (file : FileParts) (logs : List (List Line)) (made : List (List MadeCall)) (events : List TraceEvent) (replies first : List ReplyContent) →
        IsReadyToRun k file → AllMade k file logs made → IsGathered file.streams (marks_of made) logs events replies → GivesGuarded s → StandsFor s k (reverse file.setup) first →
        AreAnswered s (reverse file.setup) first (reverse events) (reverse replies ++ first) }
{
    parts_follow_a_trace();
    a_device_is_by_itself();
    a_thread_stands_as_it_was_made();
    logs_say_a_merge();
    each_log_is_its_device_of_the_merge();
    each_call_has_its_plan();
    a_device_follows_the_setup();
    each_call_is_on_a_planned_device();
}
