//! A call enters and leaves at the lane of its thread.
ghost use Rattle.std.specs.Prelude.{◌≡◌, ◌≤◌, ◌+◌, ◌<◌, ◌^◌, ℕ, vec_capacity};
ghost use Rattle.std.specs.Option.{is_none};
ghost use Rattle.command_tables.specs.Calls.{call_content};
ghost use Rattle.trace_format.specs.Content.{content};
ghost use Rattle.model_driver.specs.Driver.{call_shown, reply_shown};
ghost use Rattle.terminator.specs.Calls.{KeepsCallRoom};
ghost use Rattle.dispatch_chain.specs.Seats.{kinds_of};
ghost use Rattle.session_parts.specs.Entering.{CanEnterAt, EntersAt};
ghost use Rattle.session_parts.specs.Leaving.{CanLeaveAt, LeavesAt};
ghost use Rattle.session_parts.specs.Room.{HasRoomToEnterAt, HasRoomToLeaveAt, LosesNoRoom, TakesResultsAt};
ghost use Rattle.shard_model.specs.Replays.{told_by};
ghost use Rattle.device_shard.specs.Lanes.{EntersOne, replies_read};
ghost use Rattle.device_shard.specs.Steps.{IsDriverOf, told_as};
ghost use Rattle.device_shard.specs.Turns.{results_read};

use crate::lane::Lane;
use dispatch_chain::DispatchTable;
use model_driver::{DriverCall, DriverReply};
use session_parts::SessionParts;
use std::slice;
use trace_format::Event;

/// A begin enters. Where it isn't skipped, `out` becomes what its driver is told, and the answer is the driver. Takes no memory.
pub(crate) fn enter_lane(
    table: &DispatchTable,
    parts: &mut SessionParts,
    number: u64,
    event: &Event,
    lane: &mut Lane,
    out: &mut DriverCall,
) -> Option<u32>
    requires table { table.now.rows ≡ kinds_of parts.old.states.kept }
    requires can { CanEnterAt parts.old number (content event.now) }
    requires room { HasRoomToEnterAt parts.old number (content event.now) lane.old.call lane.old.held (vec_capacity lane.old.verdict.findings) }
    requires one { EntersOne parts.old number (content event.now) out.old.body }
    requires steps { lane.old.steps < 2 ^ 32 }
    ensures enters { EntersAt parts.old number (content event.now) (call_content lane.new.call) lane.new.held lane.new.verdict parts.new }
    ensures room { LosesNoRoom parts.old lane.old.call lane.old.held lane.old.verdict parts.new lane.new.call lane.new.held lane.new.verdict }
    ensures tells { told_as result (call_shown out.new) ≡ told_by parts.new (call_content lane.new.call) lane.new.verdict.skip }
    ensures driver { IsDriverOf result (call_shown out.new) }
    ensures skip { is_none result ≡ lane.new.verdict.skip }
    ensures out { KeepsCallRoom out.old.body out.new.body }
    ensures kinds { kinds_of parts.new.states.kept ≡ kinds_of parts.old.states.kept }
    ensures steps { lane.new.steps ≡ lane.old.steps + 1 }
{
    parts
        .enter(
            table,
            number,
            event,
            &mut lane.call,
            &mut lane.held,
            &mut lane.verdict,
        )
        .unwrap();
    lane.steps += 1;
    if lane.verdict.skip {
        return None;
    }
    parts.terminator.target_into(&lane.call, out);
    Some(out.driver)
}

/// The open call of a lane, that of this begin, leaves with the reply of its driver, which isn't read where the call was skipped. Takes no
/// memory.
pub(crate) fn leave_lane(
    table: &DispatchTable,
    parts: &mut SessionParts,
    begin: &Event,
    lane: &mut Lane,
    reply: &DriverReply,
    results: &mut Vec<u64>,
)
    requires table { table.now.rows ≡ kinds_of parts.old.states.kept }
    requires can { CanLeaveAt parts.old (content begin.now) (call_content lane.old.call) lane.old.held lane.old.verdict.skip (replies_read lane.old.verdict.skip (reply_shown reply.now)) }
    requires room { HasRoomToLeaveAt parts.old (content begin.now) (call_content lane.old.call) lane.old.verdict.skip (vec_capacity results.old) }
    requires steps { lane.old.steps < 2 ^ 32 }
    ensures leaves { (count : ℕ) × LeavesAt parts.old (content begin.now) (call_content lane.old.call) lane.old.held lane.old.verdict.skip (replies_read lane.old.verdict.skip (reply_shown reply.now)) parts.new count }
    ensures takes { TakesResultsAt parts.old (content begin.now) (call_content lane.old.call) lane.old.verdict.skip parts.new }
    ensures results { vec_capacity results.old ≤ vec_capacity results.new }
    ensures kinds { kinds_of parts.new.states.kept ≡ kinds_of parts.old.states.kept }
    ensures steps { lane.new ≡ record lane.old { steps = lane.old.steps + 1 } }
{
    let replies: &[DriverReply] = if lane.verdict.skip {
        &[]
    } else {
        slice::from_ref(reply)
    };
    let _born = parts
        .leave(
            table,
            begin,
            &lane.call,
            &lane.held,
            &lane.verdict,
            replies,
            results,
        )
        .unwrap();
    lane.steps += 1;
}

/// The results that a return's entry has: the handles of the reply, and none where the call was skipped.
pub(crate) fn handles_read(skipped: bool, reply: &DriverReply) -> &[u64]
    ensures { result.now ≡ results_read skipped (reply_shown reply.now) }
{
    if skipped { &[] } else { &reply.handles }
}
