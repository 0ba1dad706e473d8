//! Ticks of one clock that never meet.
ghost use Rattle.std.specs.Prelude.{◌≡◌};

use std::process::Abort;
use std::sync::Wait;
use std::test::Fail;
use std::thread::{self, Threads};
use stream_log::{StepClock, Tick};

fn draw_two(clock: &StepClock, tick: Tick) -> [u64; 2]
    requires { (tick.clock ≡ clock.now) × (tick.left ≡ 2) }
{
    let mut tick = tick;
    let first = tick.draw(clock);
    [first, tick.draw(clock)]
}

// Two threads draw beside each other.
fn draw_both<R: Threads + Wait + Sync>(
    rt: &R,
    clock: &StepClock,
    one: Tick,
    two: Tick,
) -> ([u64; 2], [u64; 2])
    requires one { (one.clock ≡ clock.now) × (one.left ≡ 2) }
    requires two { (two.clock ≡ clock.now) × (two.left ≡ 2) }
{
    thread::join(
        rt,
        move || -> [u64; 2]
            requires { (one.clock ≡ clock.now) × (one.left ≡ 2) }
        { draw_two(clock, one) },
        move || -> [u64; 2]
            requires { (two.clock ≡ clock.now) × (two.left ≡ 2) }
        { draw_two(clock, two) },
    )
}

fn draw_four<R: Abort + Threads + Wait + Sync>(rt: &R, clock: &StepClock, tick: Tick)
    requires { (tick.clock ≡ clock.now) × (tick.left ≡ 4) }
{
    let mut tick = tick;
    let other = tick.split(clock, 2);
    let (first, second) = draw_both(rt, clock, tick, other);
    for time in 1..5u64 {
        assert!(rt; first.contains(&time) != second.contains(&time), "{time}");
    }
}

#[test]
fn no_two_ticks_draw_one_time(rt: HostRuntime) -> Result<(), Fail> {
    for _ in 0..20 {
        let Ok((clock, tick)) = StepClock::new(rt.alloc(), 4) else {
            return Err("no memory".into());
        };
        draw_four(&rt, &clock, tick);
    }
    Ok(())
}
