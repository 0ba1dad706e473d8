//! The begin of a call at a device.
ghost use Rattle.std.specs.Prelude.{◌≡◌, ◌+◌, ◌-◌, ◌<◌, [], ◌∷◌, ◌++◌, Some, false, true, reverse};
ghost use Rattle.std.specs.Option.{is_none};
ghost use Rattle.stream_log.specs.Clock.{tick_view};
ghost use Rattle.stream_log.specs.Log.{IsPast, last_time, line, seen_view};
ghost use Rattle.trace_format.specs.Content.{content};
ghost use Rattle.model_driver.specs.Driver.{call_shown};
ghost use Rattle.terminator.specs.Calls.{KeepsCallRoom};
ghost use Rattle.dispatch_chain.specs.Seats.{kinds_of};
ghost use Rattle.stream_model.specs.Order.{event_thread};
ghost use Rattle.shard_model.specs.Followed.{next_event};
ghost use Rattle.shard_model.specs.Replays.{Tells};
ghost use Rattle.device_shard.specs.Plans.{plan_content};
ghost use Rattle.device_shard.specs.Shards.{OfShard};
ghost use Rattle.device_shard.specs.Steps.{HasRoomForBegin, IsDriverOf, IsToldOf, OfBegin, told_as};

use crate::begun::Begun;
use crate::draw::draw_time;
use crate::entering::enter_lane;
use crate::laws::a_begin_is_a_step;
use crate::names::ShardNames;
use crate::place::{place_in, thread_at};
use crate::plan::Plan;
use crate::shard::Shard;
use dispatch_chain::DispatchTable;
use model_driver::DriverCall;
use stream_log::{DeviceLog, Seen, StepClock, Tick};
use trace_format::Event;

impl<N: ShardNames, const K: usize> Shard<N, K> {
    /// The begin that the plan has next for the thread of a token enters: its time, which is above the log's last and above all that the worker's
    /// tick had seen, is that of its entry in the log. The driver is the one to be told what then stands in `out`; none where the call is
    /// skipped. `table` is the session's; `plan`, `log` and `clock` are the shard's own. Takes no memory, and `out` loses no room.
    pub fn begin_step(
        &mut self,
        table: &DispatchTable,
        plan: &Plan,
        log: &DeviceLog,
        clock: &StepClock,
        tick: &mut Tick,
        seen: Seen,
        event: &Event,
        out: &mut DriverCall,
    ) -> Begun
        requires table { OfShard N.shards K (λ n. table.now.rows ≡ kinds_of n.start.parts.states.kept) }
        requires plan { OfShard N.shards K (λ n. plan_content plan.now ≡ n.plan) }
        requires log { OfShard N.shards K (λ n. log.now ≡ n.log) }
        requires clock { clock.now ≡ N.clock }
        requires tick { (tick.old.clock ≡ clock.now) × (0 < tick.old.left) }
        requires seen { (seen.log ≡ log.now) × (seen.thread ≡ event_thread (content event.now)) }
        requires next { OfShard N.shards K (λ n. next_event n.plan.streams seen.thread seen.list ≡ Some (content event.now)) }
        requires room { OfBegin (HasRoomForBegin out.old.body) (content event.now) }
        ensures time { (last_time self.old < result.time) × (tick.old.seen < result.time) }
        ensures tick { tick.new ≡ tick_view clock.now (tick.old.left - 1) result.time }
        ensures entry { self.new ≡ self.old ++ line seen.thread result.time true [] ∷ [] }
        ensures past { IsPast seen.thread seen.list self.old }
        ensures token { result.seen ≡ seen_view log.now seen.thread self.new }
        ensures out { KeepsCallRoom out.old.body out.new.body }
        ensures driver { IsDriverOf result.driver (call_shown out.new) }
        ensures told { is_none result.driver ≡ false → OfBegin (λ b. IsToldOf b (call_shown out.new)) (content event.now) }
        ensures tells { OfShard N.shards K (λ n. OfBegin (λ b. Tells n.start n.plan.streams (reverse self.old) b (is_none result.driver) (told_as result.driver (call_shown out.new))) (content event.now)) }
    {
        a_begin_is_a_step();
        let thread = thread_at(event);
        self.owner.take(log, seen);
        let place = place_in(plan, thread);
        self.calls += 1;
        let driver = enter_lane(
            table,
            &mut self.parts,
            self.calls,
            event,
            &mut self.lanes[place],
            out,
        );
        let time = draw_time(clock, tick, &mut self.tick);
        self.owner.append(log, thread, time, true, &[]);
        let seen = self.owner.give(log, thread);
        Begun { time, driver, seen }
    }
}
