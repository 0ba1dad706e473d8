//! The shards of a session's plans.
ghost use Rattle.std.specs.Prelude.{◌≡◌, ◌≤◌, ◌+◌, IfOk, drop, is_some, length, map, nat_lt, reverse};
ghost use Rattle.std.specs.Option.{option_map};
ghost use Rattle.device_shard.specs.Gathering.{AreFresh};
ghost use Rattle.device_shard.specs.Making.{AreLogs, AreNamedBy, tokens_given};
ghost use Rattle.device_shard.specs.Plans.{plan_content};
ghost use Rattle.shard_start.specs.Cutting.{AreCutFrom};

use crate::fresh::{Fresh, shard_of};
use crate::gathering::{SetParts, gather_all};
use crate::names::ShardNames;
use crate::plan::Plan;
use crate::set::ShardSet;
use crate::shard::Shard;
use chain_session::Session;
use command_tables::NoMemory;
use shard_start::{a_cut_plan_can_start, few_objects_were_born};
use std::alloc::Global;
use std::sync::Mutex;
use stream_log::{DeviceLog, Owner, Seen, StepClock, Tick};
use trace_format::Name;

// The lock of the plan with the number `K`, where there is one: what lies behind it is the last of what is left.
fn lock_at<N: ShardNames, const K: usize>(shards: &mut Vec<Fresh>) -> Option<Mutex<Shard<N, K>>>
    requires { AreFresh N.clock (drop K N.shards) (reverse shards.old.items) }
    ensures rest { AreFresh N.clock (drop (K + 1) N.shards) (reverse shards.new.items) }
    ensures there { is_some result ≡ nat_lt K (length N.shards) }
{
    match shards.pop() {
        None => None,
        Some(fresh) => Some(Mutex::new(shard_of::<N, K>(fresh))),
    }
}

impl<N: ShardNames> ShardSet<N> {
    /// One locked shard for each plan, which starts from what the session keeps, with room for all that the plan makes and a tick that has nothing
    /// left; and the token of each thread of each plan, in the order of the plans and then of their streams. The plans are cut from a stream file
    /// for whose setup the session stands, and are 16 at most; each has an empty log, made for its threads, with room for its events and results,
    /// whose owner holds every token. After `NoMemory` the logs are gone.
    pub fn new(
        alloc: Global,
        session: &Session,
        plans: &[Plan],
        logs: Vec<(DeviceLog, Owner)>,
        clock: &StepClock,
        tick: &mut Tick,
    ) -> Result<(ShardSet<N>, Vec<(Name, Seen)>), NoMemory>
        requires few { length plans.now ≤ 16 }
        requires file { AreCutFrom (option_map (λ x. x.value.kept) session.now.started) (map plan_content plans.now) }
        requires names { AreNamedBy (option_map (λ x. x.value.kept) session.now.started) (map plan_content plans.now) N.shards }
        requires logs { AreLogs N.shards logs.items }
        requires clock { N.clock ≡ clock.now }
        requires tick { (tick.old.clock ≡ clock.now) × (tick.old.seen ≡ 0) }
        ensures tokens { IfOk result (λ r. r.1.items ≡ tokens_given N.shards) }
        ensures tick { tick.new ≡ tick.old }
    {
        a_cut_plan_can_start();
        few_objects_were_born();
        let held = session.held();
        let gathered = gather_all::<N>(alloc, session, plans, logs, held, clock, tick)?;
        let SetParts {
            devices,
            logs,
            tokens,
            mut shards,
        } = gathered;
        shards.reverse();
        let set = ShardSet {
            devices,
            logs,
            p0: lock_at::<N, 0>(&mut shards),
            p1: lock_at::<N, 1>(&mut shards),
            p2: lock_at::<N, 2>(&mut shards),
            p3: lock_at::<N, 3>(&mut shards),
            p4: lock_at::<N, 4>(&mut shards),
            p5: lock_at::<N, 5>(&mut shards),
            p6: lock_at::<N, 6>(&mut shards),
            p7: lock_at::<N, 7>(&mut shards),
            p8: lock_at::<N, 8>(&mut shards),
            p9: lock_at::<N, 9>(&mut shards),
            p10: lock_at::<N, 10>(&mut shards),
            p11: lock_at::<N, 11>(&mut shards),
            p12: lock_at::<N, 12>(&mut shards),
            p13: lock_at::<N, 13>(&mut shards),
            p14: lock_at::<N, 14>(&mut shards),
            p15: lock_at::<N, 15>(&mut shards),
        };
        Ok((set, tokens))
    }
}
