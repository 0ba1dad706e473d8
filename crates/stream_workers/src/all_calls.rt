//! All calls of a worker.
ghost use Rattle.std.specs.Prelude.{◌≡◌, List, map};
ghost use Rattle.device_shard.specs.Plans.{plan_content};
ghost use Rattle.merge_model.specs.Planned.{PlannedCall};
ghost use Rattle.stream_workers.specs.Work.{AreRowsOf, HasDone, IsCourse, IsReadyFor, course};

use crate::calls::{begin_call, end_call, send_call};
use crate::gate::Gate;
use crate::worker::Worker;
use device_shard::{Plan, ShardNames, ShardSet};
use dispatch_chain::DispatchTable;
use model_driver::SharedDriver;
use std::sync::Wait;
use stream_log::StepClock;

/// All calls of a worker, one after the other: each begins, is sent unless it is skipped, and returns. `table`, `plans` and `clock` are those of the
/// set. Takes no memory.
pub fn work<N: ShardNames, H: Wait, D: SharedDriver, G: Gate>(
    rt: &H,
    set: &ShardSet<N>,
    gate: &G,
    table: &DispatchTable,
    plans: &[Plan],
    clock: &StepClock,
    driver: &D,
    worker: &mut Worker<D::Seat>,
)
    requires course { IsCourse (course N.shards N.clock (map plan_content plans.now)) × AreRowsOf table.now.rows N.shards × (clock.now ≡ N.clock) }
    requires ready { (planned : List PlannedCall) × IsReadyFor D.room (course N.shards N.clock (map plan_content plans.now)) planned worker.old }
    ensures done { (planned : List PlannedCall) → IsReadyFor D.room (course N.shards N.clock (map plan_content plans.now)) planned worker.old → HasDone D.room D.log (course N.shards N.clock (map plan_content plans.now)) planned worker.old worker.new }
    ensures policy { D.answers_by worker.new.seat ≡ D.answers_by worker.old.seat }
{
    let mut call = 0;
    while call < worker.places.len() {
        let place = worker.places[call];
        begin_call(rt, set, gate, table, plans, clock, worker, place);
        send_call(driver, worker);
        end_call(rt, set, gate, table, plans, clock, worker, place);
        call += 1;
    }
}
