//! The laws of a device's lock: what comes next for a thread, and what a step makes of what is kept.
ghost use Rattle.std.specs.Prelude.{◌≡◌, ℕ, List, reverse};
ghost use Rattle.stream_log.specs.declared.line.Line.{Line};
ghost use Rattle.stream_log.specs.Log.{IsPast};
ghost use Rattle.stream_model.specs.FileParts.{StreamPart};
ghost use Rattle.shard_model.specs.Followed.{next_event};
ghost use Rattle.std.specs.Prelude.{◌≤◌, ◌<◌, Some, false, slice_get};
ghost use Rattle.std.specs.List.{AllByRecursion};
ghost use Rattle.std.specs.Option.{is_none};
ghost use Rattle.atomic_table.specs.Seated.{TableId};
ghost use Rattle.command_tables.specs.Calls.{ReplyContent, call_content};
ghost use Rattle.stream_log.specs.Log.{SeenView, last_time};
ghost use Rattle.trace_format.specs.Content.{BeginEvent, Begin, Return};
ghost use Rattle.session_parts.specs.declared.parts.SessionParts.{SessionParts};
ghost use Rattle.shard_model.specs.Replays.{Tells, told_by};
ghost use Rattle.device_shard.specs.declared.lane.Lane.{Lane};
ghost use Rattle.device_shard.specs.Shards.{IsShard, ShardKept, ShardName};
ghost use Rattle.device_shard.specs.Steps.{AreResults, IsReplied, IsToldOf};
ghost use Rattle.device_shard.specs.Turns.{CanBegin, CanReturn, HasBegun, HasReturned, IsNextAt, begun_then, results_read, returned_then};

use shard_model::{a_begin_goes_on, a_return_goes_on, open_calls_are_of_threads};
use shard_room::{a_begin_has_room, a_return_has_room};
use shard_start::a_call_on_a_device_is_small;

/// What comes next for a thread is known by its token, since later entries aren't the thread's. Nor does it matter in which order the entries stand.
pub fn a_token_knows_what_comes_next()
    ensures past { (streams : List StreamPart) (thread : ℕ) (seen list : List Line) → IsPast thread seen list → next_event streams thread list ≡ next_event streams thread seen }
    ensures order { (streams : List StreamPart) (thread : ℕ) (entries : List Line) → next_event streams thread (reverse entries) ≡ next_event streams thread entries }
{}

/// The begin that comes next for a thread can enter at the thread's lane. When it has, what is kept is that of the log with its entry, what it
/// tells is what every trace says in which it may stand so, and that is the begin in other handles.
pub(crate) fn a_begin_is_a_step()
    ensures can { (n : ShardName) (counts : TableId) (x : ShardKept) (b : BeginEvent) (i : ℕ) (s : StreamPart) → IsShard n counts x → IsNextAt n x.owner.list b.thread (Begin b) i s → (l : Lane) × CanBegin x b i l }
    ensures stays { (n : ShardName) (counts : TableId) (x : ShardKept) (b : BeginEvent) (i : ℕ) (s : StreamPart) (l new : Lane) (y : SessionParts) (time : ℕ) → IsShard n counts x → IsNextAt n x.owner.list b.thread (Begin b) i s → HasBegun x b i l new y →
        last_time x.owner.list < time → IsShard n counts (begun_then x b i new y time) }
    ensures tells { (n : ShardName) (counts : TableId) (x : ShardKept) (b : BeginEvent) (i : ℕ) (s : StreamPart) (l new : Lane) (y : SessionParts) → IsShard n counts x → IsNextAt n x.owner.list b.thread (Begin b) i s → HasBegun x b i l new y →
        Tells n.start n.plan.streams (reverse x.owner.list) b new.verdict.skip (told_by y (call_content new.call) new.verdict.skip) }
    ensures told { (n : ShardName) (counts : TableId) (x : ShardKept) (b : BeginEvent) (i : ℕ) (s : StreamPart) (l new : Lane) (y : SessionParts) → IsShard n counts x → IsNextAt n x.owner.list b.thread (Begin b) i s → HasBegun x b i l new y →
        new.verdict.skip ≡ false → AllByRecursion (IsToldOf b) (told_by y (call_content new.call) new.verdict.skip) }
{
    a_begin_goes_on();
    a_begin_has_room();
    a_call_on_a_device_is_small();
}

/// The return that comes next for a thread can leave at the thread's lane with a reply that its driver may give. When it has, what is kept is that
/// of the log with its entry, which has the handles of the reply.
pub(crate) fn a_return_is_a_step()
    ensures can { (n : ShardName) (counts : TableId) (x : ShardKept) (thread : ℕ) (i : ℕ) (s : StreamPart) (seen : SeenView) (reply : ReplyContent) → IsShard n counts x → IsNextAt n x.owner.list thread (Return thread) i s →
        IsPast thread seen.list x.owner.list → seen.thread ≡ thread → IsReplied n seen reply → (l : Lane) × (b : BeginEvent) × CanReturn x s i l b reply }
    ensures stays { (n : ShardName) (counts : TableId) (x : ShardKept) (thread : ℕ) (i : ℕ) (s : StreamPart) (seen : SeenView) (reply : ReplyContent) (l : Lane) (b : BeginEvent) (y : SessionParts) (count time results : ℕ) → IsShard n counts x →
        IsNextAt n x.owner.list thread (Return thread) i s → IsPast thread seen.list x.owner.list → seen.thread ≡ thread → IsReplied n seen reply → CanReturn x s i l b reply → HasReturned x b i l y reply count → last_time x.owner.list < time →
        x.results ≤ results → IsShard n counts (returned_then x thread i l y reply time results) }
    ensures results { (n : ShardName) (counts : TableId) (x : ShardKept) (thread : ℕ) (i : ℕ) (s : StreamPart) (seen : SeenView) (reply : ReplyContent) (l : Lane) → IsShard n counts x → IsNextAt n x.owner.list thread (Return thread) i s →
        IsPast thread seen.list x.owner.list → seen.thread ≡ thread → slice_get x.lanes i ≡ Some l → AreResults n seen reply (results_read l.verdict.skip reply) }
{
    a_return_goes_on();
    a_begin_has_room();
    a_return_has_room();
    a_call_on_a_device_is_small();
    open_calls_are_of_threads();
}
