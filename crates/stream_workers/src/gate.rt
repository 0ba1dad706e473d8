//! What may happen after each step.
ghost use Rattle.device_shard.specs.Locked.{IsLastStep};

use device_shard::LockedLog;

/// Something that is called once after each step of a worker, while the worker holds the device's lock: it is lent the device's log, which
/// whoever holds that lock alone can lend, and told the thread, and whether the step is a begin. It returns and takes no memory.
pub trait Gate: Sync {
    fn step(&self, log: LockedLog<'_>, thread: u32, begins: bool)
        requires { IsLastStep thread begins log.list };
}

/// A gate that does nothing.
pub struct NoGate;

impl Gate for NoGate {
    fn step(&self, _log: LockedLog<'_>, _thread: u32, _begins: bool) {}
}
