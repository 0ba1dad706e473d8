//! A thread of a stream file: it makes the calls of its own stream, through the locks of the devices.
//! Promises what a worker has made, in which order and at which times, and what the logs have gained by it. Takes no memory.
//! Leaves to others the plans, the logs and the driver, the threads, and the merge of the logs.
#![tactic(auto)]

mod all_calls;
mod calls;
mod gate;
mod steps;
mod worker;

pub use all_calls::work;
pub use calls::{begin_call, end_call, send_call};
pub use gate::{Gate, NoGate};
pub use worker::Worker;
