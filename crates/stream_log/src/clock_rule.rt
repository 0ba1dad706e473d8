//! The rule of a clock's one word, and what each kind of step on it tells. None of these types has a value.

use crate::ticks::Ticks;
use atomic_table::{Join, Play, Split, TableRule};
use std::marker::{Brand, PhantomData};

/// The word and what is left to draw add up to the greatest word, and no tick has seen more than the word.
pub(crate) struct Counting;

impl TableRule<(), Ticks, ()> for Counting {
    ghost use Rattle.std.specs.Prelude.{◌-◌, ◌^◌};
    ghost use Rattle.stream_log.specs.ClockRule.{IsClock, ticks};

    ghost holds = { λ _. IsClock };

    ghost first = { λ _. ticks (2 ^ 64 - 1) 0 };
}

/// A tick adds 1 to the word.
pub(crate) struct Draws;

impl Play<(), Ticks> for Draws {
    ghost use Rattle.stream_log.specs.ClockRule.{Drawn};

    ghost then = { Drawn };
}

/// How many draws a split hands over. Each call picks it.
pub(crate) trait Share {
    ghost use Rattle.std.specs.Prelude.{ℕ};

    ghost amount: { ℕ };
}

impl Share for Brand {
    ghost amount = { 0 };
}

/// A tick shares out what is left.
pub(crate) struct Shares<M> {
    share: PhantomData<M>,
}

impl<M: Share> Split<Ticks> for Shares<M> {
    ghost use Rattle.stream_log.specs.ClockRule.{kept_of, given_of};

    ghost left = { kept_of M.amount };

    ghost right = { given_of M.amount };
}

/// A tick takes in another.
pub(crate) struct Pools;

impl Join<Ticks> for Pools {
    ghost use Rattle.stream_log.specs.ClockRule.{pooled, ticks};

    ghost both = { pooled };

    ghost spent = { ticks 0 0 };
}
