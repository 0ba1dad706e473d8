//! How a step gets its time.
ghost use Rattle.std.specs.Prelude.{◌≡◌, ◌<◌, ◌-◌};
ghost use Rattle.stream_log.specs.Clock.{tick_view};

use std::mem;
use stream_log::{StepClock, Tick};

/// A time above all that either tick had seen, which both have seen then. It is drawn from the first; the other has no draws.
pub(crate) fn draw_time(clock: &StepClock, tick: &mut Tick, own: &mut Tick) -> u64
    requires tick { (tick.old.clock ≡ clock.now) × (0 < tick.old.left) }
    requires own { (own.old.clock ≡ clock.now) × (own.old.left ≡ 0) }
    ensures time { (tick.old.seen < result) × (own.old.seen < result) }
    ensures tick { tick.new ≡ tick_view clock.now (tick.old.left - 1) result }
    ensures own { own.new ≡ tick_view clock.now 0 result }
{
    let fresh = tick.split(clock, 0);
    let seen = mem::replace(own, fresh);
    tick.join(clock, seen);
    let time = tick.draw(clock);
    *own = tick.split(clock, 0);
    time
}
