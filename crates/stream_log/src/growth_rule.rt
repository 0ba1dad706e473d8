//! The rule of a log's words, and what each kind of step on them tells. None of these types has a value.

use crate::log_key::LogKey;
use crate::place::Place;
use atomic_table::{Join, Play, Split, TableRule};
use std::marker::{Brand, PhantomData};

/// The words hold the owner's list, and each token knows a beginning of it.
pub(crate) struct Growing;

impl TableRule<(), Place, LogKey> for Growing {
    ghost use Rattle.stream_log.specs.LogRule.{IsLog, newcomer};

    ghost holds = { λ key. IsLog key.size };

    ghost first = { λ key. newcomer key.threads.items };
}

/// The owner stores a word of an entry that isn't whole yet.
pub(crate) struct Writes;

impl Play<(), Place> for Writes {
    ghost use Rattle.stream_log.specs.LogRule.{Written};

    ghost then = { Written };
}

/// The owner stores the last word of an entry, and the list grows by it.
pub(crate) struct Grows;

impl Play<(), Place> for Grows {
    ghost use Rattle.stream_log.specs.LogRule.{Grown};

    ghost then = { Grown };
}

/// Whose token is given. Each call picks it.
pub(crate) trait Whose {
    ghost use Rattle.std.specs.Prelude.{ℕ};

    ghost thread: { ℕ };
}

impl Whose for Brand {
    ghost thread = { 0 };
}

/// The owner gives the token of a thread.
pub(crate) struct Gives<M> {
    whose: PhantomData<M>,
}

impl<M: Whose> Split<Place> for Gives<M> {
    ghost use Rattle.stream_log.specs.LogRule.{less, token_of};

    ghost left = { less M.thread };

    ghost right = { token_of M.thread };
}

/// The owner takes a token back, and keeps what it knew.
pub(crate) struct Takes;

impl Join<Place> for Takes {
    ghost use Rattle.stream_log.specs.LogRule.{more, spent};

    ghost both = { more };

    ghost spent = { spent };
}

/// The owner compares what a token knew with its list, and keeps it no longer.
pub(crate) struct Compares;

impl Play<(), Place> for Compares {
    ghost use Rattle.stream_log.specs.LogRule.{Compared};

    ghost then = { Compared };
}
