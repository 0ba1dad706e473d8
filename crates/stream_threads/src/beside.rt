//! All workers beside each other.
ghost use Rattle.std.specs.Prelude.{◌≡◌, ◌<◌, ℕ, List, length, map, slice_index_or};
ghost use Rattle.std.specs.Thread.{IsSync};
ghost use Rattle.device_shard.specs.Plans.{plan_content};
ghost use Rattle.merge_model.specs.Planned.{PlannedCall};
ghost use Rattle.stream_workers.specs.Work.{AreRowsOf, HasDone, IsCourse, IsReadyFor, course};

use crate::sharing::each_with;
use device_shard::{Plan, ShardNames, ShardSet};
use dispatch_chain::DispatchTable;
use model_driver::SharedDriver;
use std::sync::Wait;
use std::thread::Threads;
use stream_log::StepClock;
use stream_workers::{Gate, Worker, work};

/// All workers beside each other, each in a thread of its own where one can be made: each makes all calls of its stream. `table`, `plans` and `clock`
/// are those of the set. Takes no memory.
pub fn run_all<N: ShardNames + Send + Sync, H: Threads + Wait + Sync, D: SharedDriver, G: Gate>(
    rt: &H,
    set: &ShardSet<N>,
    gate: &G,
    table: &DispatchTable,
    plans: &[Plan],
    clock: &StepClock,
    driver: &D,
    workers: &mut [Worker<D::Seat>],
)
    requires course { IsCourse (course N.shards N.clock (map plan_content plans.now)) × AreRowsOf table.now.rows N.shards × (clock.now ≡ N.clock) }
    requires ready { (i : ℕ) (d : _) → i < length workers.old → (planned : List PlannedCall) × IsReadyFor D.room (course N.shards N.clock (map plan_content plans.now)) planned (slice_index_or workers.old i d) }
    ensures len { length workers.new ≡ length workers.old }
    ensures done { (i : ℕ) (d : _) → i < length workers.old → (planned : List PlannedCall) → IsReadyFor D.room (course N.shards N.clock (map plan_content plans.now)) planned (slice_index_or workers.old i d) →
        HasDone D.room D.log (course N.shards N.clock (map plan_content plans.now)) planned (slice_index_or workers.old i d) (slice_index_or workers.new i d) }
    ensures policy { (i : ℕ) (d : _) → i < length workers.old → D.answers_by (slice_index_or workers.new i d).seat ≡ D.answers_by (slice_index_or workers.old i d).seat }
{
    each_with(
        rt,
        table,
        workers,
        &|rows: &DispatchTable, worker: &mut Worker<D::Seat>|
            requires sync { IsSync H.row × IsSync D.row × IsSync G.row }
            requires course { IsCourse (course N.shards N.clock (map plan_content plans.now)) × AreRowsOf rows.now.rows N.shards × (clock.now ≡ N.clock) }
            requires ready { (planned : List PlannedCall) × IsReadyFor D.room (course N.shards N.clock (map plan_content plans.now)) planned worker.now }
            ensures { ((planned : List PlannedCall) → IsReadyFor D.room (course N.shards N.clock (map plan_content plans.entry.now)) planned worker.entry.now →
                HasDone D.room D.log (course N.shards N.clock (map plan_content plans.entry.now)) planned worker.entry.now worker.exit.now)
                × (D.answers_by worker.exit.now.seat ≡ D.answers_by worker.entry.now.seat) }
        { work(rt, set, gate, rows, plans, clock, driver, worker) },
    );
}
