//! One of the locks of a set.
use crate::names::ShardNames;
use crate::shard::Shard;
use std::sync::Mutex;

/// The lock of the plan with a number.
#[derive(Drop)]
pub enum ShardRef<'s, N: ShardNames> {
    P0(&'s Mutex<Shard<N, 0>>),
    P1(&'s Mutex<Shard<N, 1>>),
    P2(&'s Mutex<Shard<N, 2>>),
    P3(&'s Mutex<Shard<N, 3>>),
    P4(&'s Mutex<Shard<N, 4>>),
    P5(&'s Mutex<Shard<N, 5>>),
    P6(&'s Mutex<Shard<N, 6>>),
    P7(&'s Mutex<Shard<N, 7>>),
    P8(&'s Mutex<Shard<N, 8>>),
    P9(&'s Mutex<Shard<N, 9>>),
    P10(&'s Mutex<Shard<N, 10>>),
    P11(&'s Mutex<Shard<N, 11>>),
    P12(&'s Mutex<Shard<N, 12>>),
    P13(&'s Mutex<Shard<N, 13>>),
    P14(&'s Mutex<Shard<N, 14>>),
    P15(&'s Mutex<Shard<N, 15>>),
}
