//! The right to draw times from a clock.
ghost use Rattle.std.specs.Prelude.{◌≡◌, ◌+◌, ◌-◌, ◌<◌, ◌≤◌, max};
ghost use Rattle.stream_log.specs.Clock.{TickView, tick_view};

use crate::clock_rule::{Draws, Pools, Share, Shares};
use crate::step_clock::StepClock;
use crate::ticks::Ticks;
use atomic_table::Seat;
use std::marker::{Brand, Model};

/// Some draws from a clock. Contracts see the clock, how many draws are left, and the latest time that was seen. A tick that is
/// dropped takes its draws with it.
#[derive(Drop)]
pub struct Tick {
    seat: Seat<(), Ticks>,
}

impl Model for Tick {
    ghost use Rattle.std.specs.Prelude.{◌≡◌, []};
    ghost use Rattle.stream_log.specs.Clock.{TickView, tick_code};

    ghost Value = { TickView };

    ghost coded = { tick_code };

    ghost view = { λ t. record { clock = t.seat.table_id; left = t.seat.me.0.left; seen = t.seat.me.0.seen } };

    ghost invariant = { λ t. t.seat.me.1 ≡ [] };
}

// `left` of what a seat has left, as a tick of its own.
pub(crate) fn share_of<M: Share>(clock: &StepClock, seat: &mut Seat<(), Ticks>, left: u64) -> Tick
    requires { (seat.old.table_id ≡ clock.now) × (M.amount ≡ left) × (left ≤ seat.old.me.0.left) }
    ensures given { result ≡ tick_view clock.now left seat.old.me.0.seen }
    ensures kept { (seat.new.table_id ≡ seat.old.table_id) × (seat.new.id ≡ seat.old.id) × (seat.new.me.1 ≡ seat.old.me.1) × (seat.new.me.0.left + left ≡ seat.old.me.0.left) × (seat.new.me.0.seen ≡ seat.old.me.0.seen) }
{
    let seat = clock.table.shared.split_seat::<Shares<M>>(seat);
    Tick { seat }
}

impl Tick {
    /// A tick with `left` of the draws that are left. Both ticks have seen the same. It takes no memory.
    pub fn split(&mut self, clock: &StepClock, left: u64) -> Tick
        requires { (self.old.clock ≡ clock.now) × (left ≤ self.old.left) }
        ensures given { result ≡ tick_view clock.now left self.old.seen }
        ensures kept { self.new ≡ tick_view clock.now (self.old.left - left) self.old.seen }
    {
        share_of::<Brand>(clock, &mut self.seat, left)
    }

    /// Takes in another tick of the clock: its draws are added, and the greater of the two times is seen. It takes no memory.
    pub fn join(&mut self, clock: &StepClock, other: Tick)
        requires { (self.old.clock ≡ clock.now) × (other.clock ≡ clock.now) }
        ensures { self.new ≡ tick_view clock.now (self.old.left + other.left) (max self.old.seen other.seen) }
    {
        let Tick { seat } = other;
        clock.table.shared.join_seat::<Pools>(&mut self.seat, seat);
    }

    /// A time above all that the tick had seen, which is then seen. It takes no memory.
    pub fn draw(&mut self, clock: &StepClock) -> u64
        requires { (self.old.clock ≡ clock.now) × (0 < self.old.left) }
        ensures time { self.old.seen < result }
        ensures kept { self.new ≡ tick_view clock.now (self.old.left - 1) result }
    {
        let found = clock.table.shared.fetch_add::<Draws>(&mut self.seat, 0, 1);
        found + 1
    }
}
