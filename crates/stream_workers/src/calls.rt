//! The next call of a worker: its begin, what its driver is told and replies, and its return.
ghost use Rattle.std.specs.Prelude.{◌≡◌, ◌<◌, ℕ, Bool, List, None, Some, [], ◌∷◌, ◌++◌, length, map, slice_set, vec_len};
ghost use Rattle.stream_log.specs.Log.{SeenView};
ghost use Rattle.model_driver.specs.Seats.{SeatRoom};
ghost use Rattle.device_shard.specs.Plans.{plan_content};
ghost use Rattle.merge_model.specs.Planned.{PlannedCall};
ghost use Rattle.stream_workers.specs.Calls.{BegunCall};
ghost use Rattle.stream_workers.specs.Held.{token_at};
ghost use Rattle.stream_workers.specs.Opens.{HasBegun, HasReturned, HasSent, IsToReturn, IsToSend};
ghost use Rattle.stream_workers.specs.Work.{AreRowsOf, Course, IsCourse, IsReady, course};

use crate::gate::Gate;
use crate::steps::{begin_on, return_on};
use crate::worker::Worker;
use device_shard::{Plan, ShardNames, ShardSet, event_in};
use dispatch_chain::DispatchTable;
use model_driver::SharedDriver;
use std::sync::Wait;
use stream_log::{Seen, StepClock};

// The token in a slot, which is left empty.
fn token_from(slots: &mut Vec<Option<Seen>>, place: usize) -> Seen
    requires { (seen : SeenView) × (token_at slots.old.items place ≡ Some seen) }
    ensures token { token_at slots.old.items place ≡ Some result }
    ensures slots { slots.new.items ≡ slice_set slots.old.items place None }
    ensures len { vec_len slots.new ≡ vec_len slots.old }
{
    slots[place].take().unwrap()
}

/// The next call of a worker begins at the plan with its number: under the lock of the plan's device it is made a step of the worker's thread.
/// What its driver is to be told is left in `call`; `sent` has whether the call isn't skipped. `table`, `plans` and `clock` are those of the set.
/// `gate` is called behind the step. Takes no memory.
pub fn begin_call<N: ShardNames, H: Wait, S: Drop, G: Gate>(
    rt: &H,
    set: &ShardSet<N>,
    gate: &G,
    table: &DispatchTable,
    plans: &[Plan],
    clock: &StepClock,
    worker: &mut Worker<S>,
    place: usize,
)
    requires course { IsCourse (course N.shards N.clock (map plan_content plans.now)) × AreRowsOf table.now.rows N.shards × (clock.now ≡ N.clock) }
    requires ready { (room : S → SeatRoom) × (p : PlannedCall) × (rest : List PlannedCall) × IsReady room (course N.shards N.clock (map plan_content plans.now)) (p ∷ rest) worker.old × (p.place ≡ place) }
    ensures begun { (room : S → SeatRoom) (p : PlannedCall) (rest : List PlannedCall) → IsReady room (course N.shards N.clock (map plan_content plans.now)) (p ∷ rest) worker.old → p.place ≡ place →
        HasBegun room (course N.shards N.clock (map plan_content plans.now)) p rest worker.old worker.new }
    ensures seat { worker.new.seat ≡ worker.old.seat }
{
    let shard = set.lock_at(place).unwrap();
    let log = set.log_at(place).unwrap();
    let plan = &plans[place];
    let event = event_in(plan, worker.stream, worker.made[place]);
    let seen = token_from(&mut worker.tokens, place);
    let begun = begin_on(
        rt,
        shard,
        gate,
        table,
        plan,
        log,
        clock,
        &mut worker.tick,
        seen,
        worker.thread,
        event,
        &mut worker.call,
    );
    worker.tokens[place] = Some(begun.seen);
    worker.made[place] += 1;
    worker.sent.push_reserved(begun.driver.is_some());
}

// The last mark.
fn is_marked(marks: &[bool]) -> bool
    ensures { (front : List Bool) (mark : Bool) → marks.now ≡ front ++ mark ∷ [] → result ≡ mark }
{
    marks.last().copied().unwrap_or(false)
}

/// The driver is told the open call of a worker, unless it is skipped, and its reply is left in `reply`. Takes no memory.
pub fn send_call<D: SharedDriver>(driver: &D, worker: &mut Worker<D::Seat>)
    requires to_send { (c : Course) × (b : BegunCall) × (rest : List PlannedCall) × IsToSend D.room c b rest worker.old }
    ensures sent { (c : Course) (b : BegunCall) (rest : List PlannedCall) → IsToSend D.room c b rest worker.old → HasSent D.room D.log c b rest worker.old worker.new }
    ensures policy { D.answers_by worker.new.seat ≡ D.answers_by worker.old.seat }
{
    if is_marked(&worker.sent) {
        driver.call(&mut worker.seat, &worker.call, &mut worker.reply);
    }
}

/// The open call of a worker returns at the plan with its number, with the reply that stands in `reply`: a step as at its begin. Takes no memory.
pub fn end_call<N: ShardNames, H: Wait, S: Drop, G: Gate>(
    rt: &H,
    set: &ShardSet<N>,
    gate: &G,
    table: &DispatchTable,
    plans: &[Plan],
    clock: &StepClock,
    worker: &mut Worker<S>,
    place: usize,
)
    requires course { IsCourse (course N.shards N.clock (map plan_content plans.now)) × AreRowsOf table.now.rows N.shards × (clock.now ≡ N.clock) }
    requires replied { (room : S → SeatRoom) × (b : BegunCall) × (rest : List PlannedCall) × IsToReturn room (course N.shards N.clock (map plan_content plans.now)) b rest worker.old × (b.place ≡ place) }
    ensures returned { (room : S → SeatRoom) (b : BegunCall) (rest : List PlannedCall) → IsToReturn room (course N.shards N.clock (map plan_content plans.now)) b rest worker.old → b.place ≡ place →
        HasReturned room (course N.shards N.clock (map plan_content plans.now)) b rest worker.old worker.new }
    ensures seat { worker.new.seat ≡ worker.old.seat }
{
    let shard = set.lock_at(place).unwrap();
    let log = set.log_at(place).unwrap();
    let seen = token_from(&mut worker.tokens, place);
    let (_time, seen) = return_on(
        rt,
        shard,
        gate,
        table,
        &plans[place],
        log,
        clock,
        &mut worker.tick,
        seen,
        worker.thread,
        &worker.reply,
    );
    worker.tokens[place] = Some(seen);
    worker.made[place] += 1;
}
