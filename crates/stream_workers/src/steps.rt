//! The steps of a thread, each under the lock of a device.
ghost use Rattle.std.specs.Prelude.{◌≡◌, ◌-◌, ◌<◌, Some};
ghost use Rattle.stream_log.specs.Clock.{tick_view};
ghost use Rattle.trace_format.specs.Content.{Return, content};
ghost use Rattle.model_driver.specs.Driver.{call_shown, reply_shown};
ghost use Rattle.terminator.specs.Calls.{KeepsCallRoom};
ghost use Rattle.dispatch_chain.specs.Seats.{kinds_of};
ghost use Rattle.stream_model.specs.Order.{event_thread};
ghost use Rattle.shard_model.specs.Followed.{next_event};
ghost use Rattle.device_shard.specs.Plans.{plan_content};
ghost use Rattle.device_shard.specs.Refs.{number_at};
ghost use Rattle.device_shard.specs.Shards.{OfShard};
ghost use Rattle.device_shard.specs.Steps.{HasRoomForBegin, IsReplied, OfBegin};
ghost use Rattle.stream_workers.specs.Steps.{BeginsAt, ReturnsAt};

use crate::gate::Gate;
use device_shard::{Begun, Plan, Shard, ShardNames, ShardRef};
use dispatch_chain::DispatchTable;
use model_driver::{DriverCall, DriverReply};
use std::sync::{Mutex, Wait};
use stream_log::{DeviceLog, Seen, StepClock, Tick};
use trace_format::Event;

// The begin of a call at a device.
fn begin_at<N: ShardNames, const K: usize, H: Wait, G: Gate>(
    rt: &H,
    lock: &Mutex<Shard<N, K>>,
    gate: &G,
    table: &DispatchTable,
    plan: &Plan,
    log: &DeviceLog,
    clock: &StepClock,
    tick: &mut Tick,
    seen: Seen,
    thread: u32,
    event: &Event,
    out: &mut DriverCall,
) -> Begun
    requires table { OfShard N.shards K (λ n. table.now.rows ≡ kinds_of n.start.parts.states.kept) }
    requires plan { OfShard N.shards K (λ n. plan_content plan.now ≡ n.plan) }
    requires log { OfShard N.shards K (λ n. log.now ≡ n.log) }
    requires clock { clock.now ≡ N.clock }
    requires tick { (tick.old.clock ≡ clock.now) × (0 < tick.old.left) }
    requires seen { (seen.log ≡ log.now) × (seen.thread ≡ thread) × (thread ≡ event_thread (content event.now)) }
    requires next { OfShard N.shards K (λ n. next_event n.plan.streams seen.thread seen.list ≡ Some (content event.now)) }
    requires room { OfBegin (HasRoomForBegin out.old.body) (content event.now) }
    ensures tick { tick.new ≡ tick_view clock.now (tick.old.left - 1) result.time }
    ensures out { KeepsCallRoom out.old.body out.new.body }
    ensures begun { OfShard N.shards K (λ n. BeginsAt n seen (content event.now) (call_shown out.new) tick.old.seen result) }
{
    let mut shard = lock.lock(rt);
    let begun = shard.begin_step(table, plan, log, clock, tick, seen, event, out);
    gate.step(shard.locked_log(), thread, true);
    begun
}

// Its return.
fn return_at<N: ShardNames, const K: usize, H: Wait, G: Gate>(
    rt: &H,
    lock: &Mutex<Shard<N, K>>,
    gate: &G,
    table: &DispatchTable,
    plan: &Plan,
    log: &DeviceLog,
    clock: &StepClock,
    tick: &mut Tick,
    seen: Seen,
    thread: u32,
    reply: &DriverReply,
) -> (u64, Seen)
    requires table { OfShard N.shards K (λ n. table.now.rows ≡ kinds_of n.start.parts.states.kept) }
    requires plan { OfShard N.shards K (λ n. plan_content plan.now ≡ n.plan) }
    requires log { OfShard N.shards K (λ n. log.now ≡ n.log) }
    requires clock { clock.now ≡ N.clock }
    requires tick { (tick.old.clock ≡ clock.now) × (0 < tick.old.left) }
    requires seen { (seen.log ≡ log.now) × (seen.thread ≡ thread) }
    requires next { OfShard N.shards K (λ n. next_event n.plan.streams thread seen.list ≡ Some (Return thread)) }
    requires reply { OfShard N.shards K (λ n. IsReplied n seen (reply_shown reply.now)) }
    ensures tick { tick.new ≡ tick_view clock.now (tick.old.left - 1) result.0 }
    ensures returned { OfShard N.shards K (λ n. ReturnsAt n seen (reply_shown reply.now) tick.old.seen result.0 result.1) }
{
    let mut shard = lock.lock(rt);
    let returned = shard.return_step(table, plan, log, clock, tick, seen, thread, reply);
    gate.step(shard.locked_log(), thread, false);
    returned
}

/// The begin that comes next for a thread at a device, under the device's lock: as `Shard::begin_step`. `gate` is called behind it.
pub(crate) fn begin_on<N: ShardNames, H: Wait, G: Gate>(
    rt: &H,
    shard: ShardRef<'_, N>,
    gate: &G,
    table: &DispatchTable,
    plan: &Plan,
    log: &DeviceLog,
    clock: &StepClock,
    tick: &mut Tick,
    seen: Seen,
    thread: u32,
    event: &Event,
    out: &mut DriverCall,
) -> Begun
    requires table { OfShard N.shards (number_at shard) (λ n. table.now.rows ≡ kinds_of n.start.parts.states.kept) }
    requires plan { OfShard N.shards (number_at shard) (λ n. plan_content plan.now ≡ n.plan) }
    requires log { OfShard N.shards (number_at shard) (λ n. log.now ≡ n.log) }
    requires clock { clock.now ≡ N.clock }
    requires tick { (tick.old.clock ≡ clock.now) × (0 < tick.old.left) }
    requires seen { (seen.log ≡ log.now) × (seen.thread ≡ thread) × (thread ≡ event_thread (content event.now)) }
    requires next { OfShard N.shards (number_at shard) (λ n. next_event n.plan.streams seen.thread seen.list ≡ Some (content event.now)) }
    requires room { OfBegin (HasRoomForBegin out.old.body) (content event.now) }
    ensures tick { tick.new ≡ tick_view clock.now (tick.old.left - 1) result.time }
    ensures out { KeepsCallRoom out.old.body out.new.body }
    ensures begun { OfShard N.shards (number_at shard.entry) (λ n. BeginsAt n seen (content event.now) (call_shown out.new) tick.old.seen result) }
{
    match shard {
        ShardRef::P0(lock) => begin_at(
            rt, lock, gate, table, plan, log, clock, tick, seen, thread, event, out,
        ),
        ShardRef::P1(lock) => begin_at(
            rt, lock, gate, table, plan, log, clock, tick, seen, thread, event, out,
        ),
        ShardRef::P2(lock) => begin_at(
            rt, lock, gate, table, plan, log, clock, tick, seen, thread, event, out,
        ),
        ShardRef::P3(lock) => begin_at(
            rt, lock, gate, table, plan, log, clock, tick, seen, thread, event, out,
        ),
        ShardRef::P4(lock) => begin_at(
            rt, lock, gate, table, plan, log, clock, tick, seen, thread, event, out,
        ),
        ShardRef::P5(lock) => begin_at(
            rt, lock, gate, table, plan, log, clock, tick, seen, thread, event, out,
        ),
        ShardRef::P6(lock) => begin_at(
            rt, lock, gate, table, plan, log, clock, tick, seen, thread, event, out,
        ),
        ShardRef::P7(lock) => begin_at(
            rt, lock, gate, table, plan, log, clock, tick, seen, thread, event, out,
        ),
        ShardRef::P8(lock) => begin_at(
            rt, lock, gate, table, plan, log, clock, tick, seen, thread, event, out,
        ),
        ShardRef::P9(lock) => begin_at(
            rt, lock, gate, table, plan, log, clock, tick, seen, thread, event, out,
        ),
        ShardRef::P10(lock) => begin_at(
            rt, lock, gate, table, plan, log, clock, tick, seen, thread, event, out,
        ),
        ShardRef::P11(lock) => begin_at(
            rt, lock, gate, table, plan, log, clock, tick, seen, thread, event, out,
        ),
        ShardRef::P12(lock) => begin_at(
            rt, lock, gate, table, plan, log, clock, tick, seen, thread, event, out,
        ),
        ShardRef::P13(lock) => begin_at(
            rt, lock, gate, table, plan, log, clock, tick, seen, thread, event, out,
        ),
        ShardRef::P14(lock) => begin_at(
            rt, lock, gate, table, plan, log, clock, tick, seen, thread, event, out,
        ),
        ShardRef::P15(lock) => begin_at(
            rt, lock, gate, table, plan, log, clock, tick, seen, thread, event, out,
        ),
    }
}

/// Its return, as `Shard::return_step`.
pub(crate) fn return_on<N: ShardNames, H: Wait, G: Gate>(
    rt: &H,
    shard: ShardRef<'_, N>,
    gate: &G,
    table: &DispatchTable,
    plan: &Plan,
    log: &DeviceLog,
    clock: &StepClock,
    tick: &mut Tick,
    seen: Seen,
    thread: u32,
    reply: &DriverReply,
) -> (u64, Seen)
    requires table { OfShard N.shards (number_at shard) (λ n. table.now.rows ≡ kinds_of n.start.parts.states.kept) }
    requires plan { OfShard N.shards (number_at shard) (λ n. plan_content plan.now ≡ n.plan) }
    requires log { OfShard N.shards (number_at shard) (λ n. log.now ≡ n.log) }
    requires clock { clock.now ≡ N.clock }
    requires tick { (tick.old.clock ≡ clock.now) × (0 < tick.old.left) }
    requires seen { (seen.log ≡ log.now) × (seen.thread ≡ thread) }
    requires next { OfShard N.shards (number_at shard) (λ n. next_event n.plan.streams thread seen.list ≡ Some (Return thread)) }
    requires reply { OfShard N.shards (number_at shard) (λ n. IsReplied n seen (reply_shown reply.now)) }
    ensures tick { tick.new ≡ tick_view clock.now (tick.old.left - 1) result.0 }
    ensures returned { OfShard N.shards (number_at shard.entry) (λ n. ReturnsAt n seen (reply_shown reply.now) tick.old.seen result.0 result.1) }
{
    match shard {
        ShardRef::P0(lock) => return_at(
            rt, lock, gate, table, plan, log, clock, tick, seen, thread, reply,
        ),
        ShardRef::P1(lock) => return_at(
            rt, lock, gate, table, plan, log, clock, tick, seen, thread, reply,
        ),
        ShardRef::P2(lock) => return_at(
            rt, lock, gate, table, plan, log, clock, tick, seen, thread, reply,
        ),
        ShardRef::P3(lock) => return_at(
            rt, lock, gate, table, plan, log, clock, tick, seen, thread, reply,
        ),
        ShardRef::P4(lock) => return_at(
            rt, lock, gate, table, plan, log, clock, tick, seen, thread, reply,
        ),
        ShardRef::P5(lock) => return_at(
            rt, lock, gate, table, plan, log, clock, tick, seen, thread, reply,
        ),
        ShardRef::P6(lock) => return_at(
            rt, lock, gate, table, plan, log, clock, tick, seen, thread, reply,
        ),
        ShardRef::P7(lock) => return_at(
            rt, lock, gate, table, plan, log, clock, tick, seen, thread, reply,
        ),
        ShardRef::P8(lock) => return_at(
            rt, lock, gate, table, plan, log, clock, tick, seen, thread, reply,
        ),
        ShardRef::P9(lock) => return_at(
            rt, lock, gate, table, plan, log, clock, tick, seen, thread, reply,
        ),
        ShardRef::P10(lock) => return_at(
            rt, lock, gate, table, plan, log, clock, tick, seen, thread, reply,
        ),
        ShardRef::P11(lock) => return_at(
            rt, lock, gate, table, plan, log, clock, tick, seen, thread, reply,
        ),
        ShardRef::P12(lock) => return_at(
            rt, lock, gate, table, plan, log, clock, tick, seen, thread, reply,
        ),
        ShardRef::P13(lock) => return_at(
            rt, lock, gate, table, plan, log, clock, tick, seen, thread, reply,
        ),
        ShardRef::P14(lock) => return_at(
            rt, lock, gate, table, plan, log, clock, tick, seen, thread, reply,
        ),
        ShardRef::P15(lock) => return_at(
            rt, lock, gate, table, plan, log, clock, tick, seen, thread, reply,
        ),
    }
}
