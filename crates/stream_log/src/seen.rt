//! The token of one thread at one log.

use crate::place::Place;
use atomic_table::Seat;
use std::marker::Model;

/// A thread's token. Contracts see the log, the thread, and the list as it was when the token was given. A token that is dropped
/// keeps its thread from appending for good.
#[derive(Drop)]
pub struct Seen {
    pub(crate) seat: Seat<(), Place>,
}

impl Model for Seen {
    ghost use Rattle.stream_log.specs.Log.{SeenView};

    ghost Value = { SeenView };

    ghost use Rattle.stream_log.specs.LogOwner.{seen_of, IsToken};

    ghost view = { seen_of };

    ghost invariant = { IsToken };
}
