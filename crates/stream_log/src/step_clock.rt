//! A clock that numbers steps.
ghost use Rattle.std.specs.Prelude.{◌≡◌, IfOk};
ghost use Rattle.stream_log.specs.Clock.{tick_view};

use crate::clock_rule::Counting;
use crate::memory::NoMemory;
use crate::tick::{Tick, share_of};
use crate::ticks::Ticks;
use atomic_table::Table;
use std::alloc::Global;
use std::marker::{Brand, Model};

/// A number that threads share and that only grows. Contracts see which clock it is.
#[derive(Drop)]
pub struct StepClock {
    pub(crate) table: Table<(), Ticks, (), Counting, Global>,
}

impl Model for StepClock {
    ghost use Rattle.std.specs.Prelude.{◌≡◌};
    ghost use Rattle.atomic_table.specs.Seated.{TableId, table_id_coded};

    ghost Value = { TableId };

    ghost coded = { table_id_coded };

    ghost view = { λ c. c.table.shared.table_id };

    ghost invariant = { λ c. c.table.shared.table_id.words ≡ 1 };
}

impl StepClock {
    /// A clock at 0, and a tick that may draw `ticks` times. `NoMemory` comes where the clock's word can't be had.
    pub fn new(alloc: Global, ticks: u64) -> Result<(StepClock, Tick), NoMemory>
        ensures { IfOk result (λ r. r.1 ≡ tick_view r.0 ticks 0) }
    {
        let Ok((table, mut seat)) = Table::of_words(alloc, &[0], &()) else {
            return Err(NoMemory);
        };
        let clock = StepClock { table };
        let tick = share_of::<Brand>(&clock, &mut seat, ticks);
        Ok((clock, tick))
    }
}
