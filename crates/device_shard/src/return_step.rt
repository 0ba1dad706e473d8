//! The return of a call at a device.
ghost use Rattle.std.specs.Prelude.{◌≡◌, ◌+◌, ◌-◌, ◌<◌, ℕ, List, [], ◌∷◌, ◌++◌, Some, false, reverse};
ghost use Rattle.stream_log.specs.Clock.{tick_view};
ghost use Rattle.stream_log.specs.Log.{IsPast, last_time, line, seen_view};
ghost use Rattle.trace_format.specs.Content.{Return};
ghost use Rattle.model_driver.specs.Driver.{reply_shown};
ghost use Rattle.dispatch_chain.specs.Seats.{kinds_of};
ghost use Rattle.shard_model.specs.Followed.{next_event};
ghost use Rattle.device_shard.specs.Plans.{plan_content};
ghost use Rattle.device_shard.specs.Shards.{OfShard};
ghost use Rattle.device_shard.specs.Steps.{AreResults, IsReplied};

use crate::draw::draw_time;
use crate::entering::{handles_read, leave_lane};
use crate::laws::a_return_is_a_step;
use crate::names::ShardNames;
use crate::place::{event_in, place_in};
use crate::plan::Plan;
use crate::shard::Shard;
use dispatch_chain::DispatchTable;
use model_driver::DriverReply;
use stream_log::{DeviceLog, Seen, StepClock, Tick};

impl<N: ShardNames, const K: usize> Shard<N, K> {
    /// The open call of the thread of a token returns, whose return the plan has next for it: its time, as at a begin, and the token anew. Its
    /// entry in the log has all handles of the reply. The return of a skipped call reads no reply and has no results. `table`, `plan`,
    /// `log` and `clock` are those of the begin. Takes no memory.
    pub fn return_step(
        &mut self,
        table: &DispatchTable,
        plan: &Plan,
        log: &DeviceLog,
        clock: &StepClock,
        tick: &mut Tick,
        seen: Seen,
        thread: u32,
        reply: &DriverReply,
    ) -> (u64, Seen)
        requires table { OfShard N.shards K (λ n. table.now.rows ≡ kinds_of n.start.parts.states.kept) }
        requires plan { OfShard N.shards K (λ n. plan_content plan.now ≡ n.plan) }
        requires log { OfShard N.shards K (λ n. log.now ≡ n.log) }
        requires clock { clock.now ≡ N.clock }
        requires tick { (tick.old.clock ≡ clock.now) × (0 < tick.old.left) }
        requires seen { (seen.log ≡ log.now) × (seen.thread ≡ thread) }
        requires next { OfShard N.shards K (λ n. next_event n.plan.streams thread seen.list ≡ Some (Return thread)) }
        requires reply { OfShard N.shards K (λ n. IsReplied n seen (reply_shown reply.now)) }
        ensures time { (last_time self.old < result.0) × (tick.old.seen < result.0) }
        ensures tick { tick.new ≡ tick_view clock.now (tick.old.left - 1) result.0 }
        ensures entry { (results : List ℕ) × (self.new ≡ self.old ++ line thread result.0 false results ∷ []) × OfShard N.shards K (λ n. AreResults n seen (reply_shown reply.now) results) }
        ensures past { IsPast seen.thread seen.list self.old }
        ensures token { result.1 ≡ seen_view log.now thread self.new }
    {
        a_return_is_a_step();
        self.owner.take(log, seen);
        let place = place_in(plan, thread);
        let lane = &mut self.lanes[place];
        let begin = event_in(plan, place, lane.steps - 1);
        leave_lane(
            table,
            &mut self.parts,
            begin,
            lane,
            reply,
            &mut self.results,
        );
        let handles = handles_read(lane.verdict.skip, reply);
        let time = draw_time(clock, tick, &mut self.tick);
        self.owner.append(log, thread, time, false, handles);
        let seen = self.owner.give(log, thread);
        (time, seen)
    }
}
