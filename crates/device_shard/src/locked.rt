//! The log of a device, as it is seen under the device's lock.
ghost use Rattle.std.specs.Prelude.{◌≡◌};

use crate::names::ShardNames;
use crate::shard::Shard;
use std::marker::Model;
use stream_log::Owner;

/// The log of a device whose lock is held. The value behind the lock alone lends it, so it ends before the lock is given back. Contracts see the
/// number of the device's plan and the list of the log.
#[derive(Drop)]
pub struct LockedLog<'a> {
    owner: &'a Owner,
    place: usize,
}

impl<'a> Model for LockedLog<'a> {
    ghost use Rattle.device_shard.specs.Locked.{LockedView};

    ghost Value = { LockedView };

    ghost view = { λ l. record { place = l.place; list = l.owner.now.list } };
}

impl<'a> LockedLog<'a> {
    /// The number of the device's plan, from 0.
    pub fn place(&self) -> usize
        ensures { result ≡ self.now.place }
    {
        self.place
    }
}

impl<N: ShardNames, const K: usize> Shard<N, K> {
    /// The log, for as long as the lock is held.
    pub fn locked_log(&self) -> LockedLog<'_>
        ensures place { result.place ≡ K }
        ensures list { result.list ≡ self.now }
    {
        LockedLog {
            owner: &self.owner,
            place: K,
        }
    }
}
