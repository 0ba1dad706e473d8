// What a call on a device needs: one driver, the payload of its begin, and few owners of what it makes.
ghost use Rattle.std.specs.Prelude.{◌≡◌, ◌≤◌, ◌+◌, ℕ, false, find, Some, List, length};
ghost use Rattle.command_tables.specs.Calls.{CallContent, ReplyContent};
ghost use Rattle.command_tables.specs.Table.{row_of};
ghost use Rattle.stream_log.specs.declared.line.Line.{Line};
ghost use Rattle.trace_format.specs.Content.{BeginEvent, Begin};
ghost use Rattle.lifetime_layer.specs.declared.verdict.Verdict.{Verdict};
ghost use Rattle.dispatch_chain.specs.Holding.{HeldCalls};
ghost use Rattle.session_model.specs.Stands.{AreRepliesTo};
ghost use Rattle.session_tables.specs.Lined.{owners_made};
ghost use Rattle.stream_model.specs.FileParts.{StreamPart};
ghost use Rattle.terminator.specs.Calls.{drivers_for};
ghost use Rattle.session_parts.specs.declared.parts.SessionParts.{SessionParts};
ghost use Rattle.session_parts.specs.Entering.{Enters};
ghost use Rattle.session_parts.specs.Leaving.{opened_again};
ghost use Rattle.shard_model.specs.Followed.{Follows, begins_in, next_event};
ghost use Rattle.shard_model.specs.Replays.{AreOfThreads, IsReplay, NoneOf, OpenStep, Start, is_step_of};
ghost use Rattle.shard_start.specs.Starting.{CanStart, IsOnDevice, IsPassedOn};

use session_model::{the_steps_may_rely_on_it, what_is_made_has_few_owners};
use shard_model::a_begin_goes_on;

/// A call on a device that isn't skipped goes to one driver, as its begin in other handles; and what it makes has three owners at most.
pub fn a_call_on_a_device_is_small()
    ensures one { (start : Start) (streams : List StreamPart) (entries : List Line) (x y : SessionParts) (opens : List OpenStep) (b : BeginEvent) (call : CallContent) (held : HeldCalls) (verdict : Verdict) →
        CanStart start streams → IsReplay start streams entries x opens → Follows streams entries → next_event streams b.thread entries ≡ Some (Begin b) → NoneOf b.thread opens → IsOnDevice (Begin b) →
        Enters x (start.calls + begins_in entries + 1) b call held verdict y → verdict.skip ≡ false → length (drivers_for y.terminator call) ≡ 1 }
    ensures passed { (start : Start) (streams : List StreamPart) (entries : List Line) (x y : SessionParts) (opens : List OpenStep) (b : BeginEvent) (call : CallContent) (held : HeldCalls) (verdict : Verdict) →
        CanStart start streams → IsReplay start streams entries x opens → Follows streams entries → next_event streams b.thread entries ≡ Some (Begin b) → NoneOf b.thread opens → IsOnDevice (Begin b) →
        Enters x (start.calls + begins_in entries + 1) b call held verdict y → verdict.skip ≡ false → IsPassedOn b call }
    ensures owners { (start : Start) (streams : List StreamPart) (entries : List Line) (x : SessionParts) (opens : List OpenStep) (thread : ℕ) (o : OpenStep) (own : List ReplyContent) →
        CanStart start streams → IsReplay start streams entries x opens → Follows streams entries → find (is_step_of thread) opens ≡ Some o → AreOfThreads opens → AreRepliesTo o.told own → o.skip ≡ false →
        length (owners_made x.names.kept.births (opened_again x o.begin o.call).args (row_of o.begin.cmd).effect) ≤ 3 }
    ensures drivers { (start : Start) (streams : List StreamPart) (entries : List Line) (x : SessionParts) (opens : List OpenStep) (thread : ℕ) (o : OpenStep) (own : List ReplyContent) →
        CanStart start streams → IsReplay start streams entries x opens → Follows streams entries → find (is_step_of thread) opens ≡ Some o → AreOfThreads opens → AreRepliesTo o.told own → o.skip ≡ false →
        length (drivers_for x.terminator o.call) ≡ length o.told }
{
    a_begin_goes_on();
    the_steps_may_rely_on_it();
    what_is_made_has_few_owners();
}
