//! What the shards of a set are made from, for contracts alone.
use std::marker::Brand;

/// Names the shards: for each plan, in order, its log, the plan and what its shard starts from; and the clock.
pub trait ShardNames {
    ghost use Rattle.std.specs.Prelude.{List};
    ghost use Rattle.atomic_table.specs.Seated.{TableId};
    ghost use Rattle.device_shard.specs.Shards.{ShardName};

    ghost shards: { List ShardName };

    ghost clock: { TableId };
}

impl ShardNames for Brand {
    ghost use Rattle.std.specs.Prelude.{[]};
    ghost use Rattle.device_shard.specs.Shards.{no_table};

    ghost shards = { [] };

    ghost clock = { no_table };
}
