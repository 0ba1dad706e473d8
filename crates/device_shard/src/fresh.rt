//! What lies behind a lock at first.
ghost use Rattle.std.specs.Prelude.{◌≡◌, Some, IfOk, slice_get};
ghost use Rattle.std.specs.Option.{option_map};
ghost use Rattle.shard_start.specs.Starting.{CanStart};
ghost use Rattle.device_shard.specs.Gathering.{IsFresh, fresh_kept};
ghost use Rattle.device_shard.specs.Making.{IsOwnerFor, IsStartOf};
ghost use Rattle.device_shard.specs.Plans.{plan_content};
ghost use Rattle.device_shard.specs.Rooms.{IsIdle};
ghost use Rattle.device_shard.specs.Shards.{IsShard, ShardName};

use crate::lane::Lane;
use crate::names::ShardNames;
use crate::plan::Plan;
use crate::room::room_for;
use crate::shard::Shard;
use chain_session::Session;
use command_tables::NoMemory;
use session_parts::SessionParts;
use shard_model::a_start_is_a_replay;
use std::alloc::Global;
use std::marker::PhantomData;
use stream_log::{Owner, StepClock, Tick};

/// A shard of which nothing says yet which one it is.
#[derive(Drop)]
pub(crate) struct Fresh {
    owner: Owner,
    tick: Tick,
    parts: SessionParts,
    lanes: Vec<Lane>,
    calls: u64,
    results: Vec<u64>,
}

/// The shard of a plan with an empty log, whose owner this is: it starts from what the session keeps, whose parts had so many objects at most.
pub(crate) fn fresh_of(
    alloc: Global,
    session: &Session,
    plan: &Plan,
    owner: Owner,
    held: usize,
    clock: &StepClock,
    tick: &mut Tick,
) -> Result<Fresh, NoMemory>
    requires idle { IsIdle (option_map (λ x. x.value.kept) session.now.started) held }
    requires tick { tick.old.clock ≡ clock.now }
    ensures fresh { IfOk result (λ fresh. (n : ShardName) → n.plan ≡ plan_content plan.now → IsStartOf (option_map (λ x. x.value.kept) session.now.started) n.start → CanStart n.start n.plan.streams → IsOwnerFor n owner → IsFresh clock.now n fresh) }
    ensures tick { tick.new ≡ tick.old }
{
    a_start_is_a_replay();
    let room = room_for(alloc, session, &plan.streams, held)?;
    let calls = session.tally().calls;
    Ok(Fresh {
        owner,
        tick: tick.split(clock, 0),
        parts: room.parts,
        lanes: room.lanes,
        calls,
        results: room.results,
    })
}

/// It is the one with this number.
pub(crate) fn shard_of<N: ShardNames, const K: usize>(fresh: Fresh) -> Shard<N, K>
    requires { (n : ShardName) × (slice_get N.shards K ≡ Some n) × IsFresh N.clock n fresh }
    ensures { result ≡ fresh.owner.list }
{
    let Fresh {
        owner,
        tick,
        parts,
        lanes,
        calls,
        results,
    } = fresh;
    Shard {
        owner,
        tick,
        parts,
        lanes,
        calls,
        results,
        names: PhantomData,
    }
}
