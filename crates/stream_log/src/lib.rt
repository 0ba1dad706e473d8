//! A log that threads share and that only grows, one for each device, and a clock that numbers the steps of all threads.
//! Promises that a thread's token knows a beginning of the log with no later entry of its thread, and that drawn times rise.
//! Leaves to others what an entry stands for, which lock the owner lies behind and how logs are merged.
#![tactic(auto)]

mod clock_rule;
mod desk;
mod device_log;
mod entry;
mod growth_rule;
mod line;
mod log_key;
mod memory;
mod owner;
mod place;
mod seen;
mod step_clock;
mod tick;
mod ticket;
mod ticks;

pub use device_log::DeviceLog;
pub use entry::Entry;
pub use line::Line;
pub use memory::NoMemory;
pub use owner::Owner;
pub use seen::Seen;
pub use step_clock::StepClock;
pub use tick::Tick;
