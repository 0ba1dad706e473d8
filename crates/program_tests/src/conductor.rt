//! A driver and a gate that make one order of the steps of two threads. Each thread first makes a call on a device of its own, whose
//! driver keeps it until its turn has come. Whoever waits gives up after some time, so that each test ends.
use command_tables::{CommandId, NoMemory};
use device_shard::LockedLog;
use model_driver::{DriverCall, DriverReply, Policy, SharedDriver};
use std::alloc::Global;
use std::hint::spin_loop;
use std::sync::atomic::{AtomicU64, Ordering};
use stream_workers::Gate;

const MOST_TURNS: u64 = 100_000_000;

// The plan of the device that both threads use: the streams name the first thread's own device before it.
const SHARED_PLACE: usize = 1;

/// A step on the shared device.
#[derive(Clone, Copy, Debug, PartialEq, Eq)]
pub(crate) enum Step {
    FirstBegins,
    FirstReturns,
    SecondBegins,
    SecondReturns,
}

/// How many calls of `vkDestroySampler` the driver keeps until all have come: one of each stream that a file may have.
pub(crate) const CROWD: u64 = 64;

/// How many steps there were on the shared device, how many begins on the others, how many calls came to the driver, how many of those
/// that it keeps together, and how many gave up waiting.
#[derive(Drop)]
pub(crate) struct Conductor {
    pub order: [Step; 4],
    pub turn: AtomicU64,
    pub apart: AtomicU64,
    pub calls: AtomicU64,
    pub crowd: AtomicU64,
    pub gave_up: AtomicU64,
}

// The step that comes once this call returns from its driver.
fn step_behind(call: &DriverCall) -> Option<Step> {
    match call.body.cmd {
        CommandId::DeviceWaitIdle => Some(Step::FirstBegins),
        CommandId::CreateFence => Some(Step::SecondBegins),
        CommandId::QueueSubmit => Some(Step::FirstReturns),
        CommandId::QueueWaitIdle => Some(Step::SecondReturns),
        _ => None,
    }
}

fn has_come(count: &AtomicU64, most: u64) -> bool {
    count.load(Ordering::SeqCst) >= most
}

impl Conductor {
    pub(crate) fn new(order: [Step; 4]) -> Conductor {
        Conductor {
            order,
            turn: AtomicU64::new(0),
            apart: AtomicU64::new(0),
            calls: AtomicU64::new(0),
            crowd: AtomicU64::new(0),
            gave_up: AtomicU64::new(0),
        }
    }

    // Until a count has come to so many.
    fn await_count(&self, count: &AtomicU64, most: u64) {
        for _ in 0..MOST_TURNS {
            if has_come(count, most) {
                return;
            }
            spin_loop();
        }
        self.gave_up.fetch_add(1, Ordering::SeqCst);
    }

    // Until all of the calls that are kept together have come.
    fn await_crowd(&self) {
        self.crowd.fetch_add(1, Ordering::SeqCst);
        self.await_count(&self.crowd, CROWD);
    }

    fn await_turn(&self, step: Step) {
        match self.order.iter().position(|other| *other == step) {
            Some(before) => self.await_count(&self.turn, before as u64),
            None => {}
        }
    }
}

/// The driver: each call comes back once its turn has come.
#[derive(Drop)]
pub(crate) struct Conducted<'a, D> {
    pub inner: D,
    pub by: &'a Conductor,
}

impl<'a, D: SharedDriver> SharedDriver for Conducted<'a, D> {
    type Seat = D::Seat;

    ghost log = { λ s. D.log s };

    ghost answers_by = { λ s. D.answers_by s };

    ghost room = { λ s. D.room s };

    ghost seat_gives = { λ d policy seat. D.seat_gives d.inner policy seat };

    ghost extend_gives = { λ d before behind. D.extend_gives d.inner before behind };

    ghost call_gives = { λ d before call reply behind. D.call_gives d.inner before call reply behind };

    fn seat(
        &self,
        alloc: Global,
        policy: Policy,
        calls: u32,
        handles: u32,
        bytes: usize,
    ) -> Result<D::Seat, NoMemory> {
        self.inner.seat(alloc, policy, calls, handles, bytes)
    }

    fn extend(
        &self,
        seat: &mut D::Seat,
        calls: u32,
        handles: u32,
        bytes: usize,
    ) -> Result<(), NoMemory> {
        self.inner.extend(seat, calls, handles, bytes)
    }

    fn call(&self, seat: &mut D::Seat, call: &DriverCall, reply: &mut DriverReply) {
        self.by.calls.fetch_add(1, Ordering::SeqCst);
        self.inner.call(seat, call, reply);
        if let Some(step) = step_behind(call) {
            self.by.await_turn(step);
        }
        if call.body.cmd == CommandId::DestroySampler {
            self.by.await_crowd();
        }
    }
}

// A begin on a thread's own device stays there, under the device's lock, until the other thread's has come too.
impl Gate for Conductor {
    fn step(&self, log: LockedLog<'_>, _thread: u32, begins: bool) {
        if log.place() == SHARED_PLACE {
            self.turn.fetch_add(1, Ordering::SeqCst);
        } else if begins {
            self.apart.fetch_add(1, Ordering::SeqCst);
            self.await_count(&self.apart, 2);
        }
    }
}
