//! The value behind a device's lock.
use crate::lane::Lane;
use crate::names::ShardNames;
use session_parts::SessionParts;
use std::marker::{Model, PhantomData};
use stream_log::{Owner, Tick};

/// What a device's events have come to. Contracts see the list of its log. The type says that all that is kept is the replay of this log along
/// the plan, from the start that `N` names for the plan with the number `K`, that the shard's tick has seen the log's last time, and that there
/// is room for the rest of the plan.
#[derive(Drop)]
pub struct Shard<N: ShardNames, const K: usize> {
    pub(crate) owner: Owner,
    pub(crate) tick: Tick,
    pub(crate) parts: SessionParts,
    pub(crate) lanes: Vec<Lane>,
    pub(crate) calls: u64,
    pub(crate) results: Vec<u64>,
    pub(crate) names: PhantomData<N>,
}

impl<N: ShardNames, const K: usize> Model for Shard<N, K> {
    ghost use Rattle.std.specs.Prelude.{◌≡◌, List, Some, slice_get, vec_capacity};
    ghost use Rattle.stream_log.specs.declared.line.Line.{Line};
    ghost use Rattle.device_shard.specs.Shards.{IsShard, ShardName};

    ghost Value = { List Line };

    ghost view = { λ s. s.owner.list };

    ghost invariant = { λ s. (n : ShardName) × (slice_get N.shards K ≡ Some n) × IsShard n N.clock (record {
      owner = s.owner;
      tick = s.tick;
      parts = s.parts;
      lanes = s.lanes.items;
      calls = s.calls;
      results = vec_capacity s.results;
      plan = n.plan;
    }) };
}
