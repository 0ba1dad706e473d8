//! What is kept of a device is the replay of its log: the events that a log has by the plan of its device, what the drivers may have replied, and
//! the parts of a session that stand for both behind every trace for which the start stands.
//! Promises that a begin and a return of `SessionParts` keep it so, whatever the drivers reply, and what a begin tells them.
//! Leaves to others the log, its lock and the code of a step.
#![tactic(auto)]

mod samples;

ghost use Rattle.std.specs.Prelude.{◌≡◌, ◌+◌, ℕ, Some, List, [], ◌∷◌, ◌++◌, find, true, false};
ghost use Rattle.command_tables.specs.Calls.{CallContent, ReplyContent};
ghost use Rattle.stream_log.specs.Log.{line};
ghost use Rattle.stream_log.specs.declared.line.Line.{Line};
ghost use Rattle.trace_format.specs.Content.{BeginEvent, TraceEvent, Begin, Return};
ghost use Rattle.replay_model.specs.Setup.{Setup};
ghost use Rattle.lifetime_layer.specs.declared.verdict.Verdict.{Verdict};
ghost use Rattle.chain_model.specs.Gaps.{IsGapped};
ghost use Rattle.dispatch_chain.specs.Holding.{HeldCalls};
ghost use Rattle.session_model.specs.Stands.{AreRepliesTo};
ghost use Rattle.stream_model.specs.FileParts.{StreamPart};
ghost use Rattle.session_parts.specs.declared.parts.SessionParts.{SessionParts};
ghost use Rattle.session_parts.specs.Entering.{CanEnter, Enters};
ghost use Rattle.session_parts.specs.Leaving.{CanLeave, Leaves};
ghost use Rattle.session_parts.specs.Parts.{KeepAlike};
ghost use Rattle.shard_model.specs.Followed.{Follows, begins_in, events_of, next_event};
ghost use Rattle.shard_model.specs.Replies.{handles_of};
ghost use Rattle.shard_model.specs.Replays.{AreOfThreads, IsOnInstance, IsReplay, NoneOf, OpenStep, Start, StartStands, Tells, is_step_of, open_step, told_by, without_step};

use chain_session::parts_follow_a_trace;

/// Parts that keep what the start's keep are the replay of an empty log, and those that keep the same as a replay are one.
pub fn a_start_is_a_replay()
    ensures starts { (start : Start) (streams : List StreamPart) (x : SessionParts) → KeepAlike x start.parts → IsReplay start streams [] x [] }
    ensures alike { (start : Start) (streams : List StreamPart) (entries : List Line) (x y : SessionParts) (opens : List OpenStep) → KeepAlike y x → IsReplay start streams entries x opens → IsReplay start streams entries y opens }
{}

/// The begin that comes next for a thread may enter the parts, with the number behind the calls so far. When it has, the parts are the replay
/// of the log with this entry, beside the open calls with this one, whatever its drivers reply; and what it tells them and whether it is
/// skipped is what every trace says in which it may stand so.
pub fn a_begin_goes_on()
    ensures may { (start : Start) (streams : List StreamPart) (entries : List Line) (x : SessionParts) (opens : List OpenStep) (b : BeginEvent) (s : Setup) (events : List TraceEvent) (first : List ReplyContent) → StartStands start s events first →
        IsGapped (Begin b ∷ events_of streams entries ++ events) → IsReplay start streams entries x opens → Follows streams entries → IsOnInstance b → CanEnter x (start.calls + begins_in entries + 1) b }
    ensures replays { (start : Start) (streams : List StreamPart) (entries : List Line) (x y : SessionParts) (opens : List OpenStep) (b : BeginEvent) (time : ℕ) (call : CallContent) (held : HeldCalls) (verdict : Verdict) →
        IsReplay start streams entries x opens → Follows streams entries → next_event streams b.thread entries ≡ Some (Begin b) → IsOnInstance b → NoneOf b.thread opens → Enters x (start.calls + begins_in entries + 1) b call held verdict y →
        IsReplay start streams (line b.thread time true [] ∷ entries) y (open_step b call held verdict y ∷ opens) }
    ensures tells { (start : Start) (streams : List StreamPart) (entries : List Line) (x y : SessionParts) (opens : List OpenStep) (b : BeginEvent) (call : CallContent) (held : HeldCalls) (verdict : Verdict) →
        IsReplay start streams entries x opens → Follows streams entries → next_event streams b.thread entries ≡ Some (Begin b) → IsOnInstance b → NoneOf b.thread opens → Enters x (start.calls + begins_in entries + 1) b call held verdict y →
        Tells start streams entries b verdict.skip (told_by y call verdict.skip) }
{
    parts_follow_a_trace();
}

/// The open call of a thread may leave with any replies that its drivers may give. When it has, the parts are the replay of the log with an
/// entry of its return and all handles of these replies, beside the other open calls.
pub fn a_return_goes_on()
    ensures may { (start : Start) (streams : List StreamPart) (entries : List Line) (x : SessionParts) (opens : List OpenStep) (thread : ℕ) (o : OpenStep) (own : List ReplyContent) (s : Setup) (events : List TraceEvent) (first : List ReplyContent) →
        StartStands start s events first → IsGapped (events_of streams entries ++ events) → IsReplay start streams entries x opens → find (is_step_of thread) opens ≡ Some o → AreOfThreads opens → IsOnInstance o.begin → AreRepliesTo o.told own →
        CanLeave x o.begin o.call o.held o.skip own }
    ensures replays { (start : Start) (streams : List StreamPart) (entries : List Line) (x y : SessionParts) (opens : List OpenStep) (thread time : ℕ) (o : OpenStep) (own : List ReplyContent) (count : ℕ) →
        IsReplay start streams entries x opens → next_event streams thread entries ≡ Some (Return thread) → find (is_step_of thread) opens ≡ Some o → AreOfThreads opens → IsOnInstance o.begin → AreRepliesTo o.told own →
        Leaves x o.begin o.call o.held o.skip own y count → IsReplay start streams (line thread time false (handles_of own) ∷ entries) y (without_step thread opens) }
{
    parts_follow_a_trace();
}

/// Open calls of distinct threads stay so: one more of a thread that has none, and those that are left when one has returned.
pub fn open_calls_are_of_threads()
    ensures left { (thread : ℕ) (opens : List OpenStep) → AreOfThreads opens → AreOfThreads (without_step thread opens) }
    ensures none { (thread : ℕ) (opens : List OpenStep) → NoneOf thread (without_step thread opens) }
{}
