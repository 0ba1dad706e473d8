//! All workers of a file beside each other, each in a thread of its own where one can be made.
//! Promises that each has made all calls of its stream.
//! Leaves to others what a worker is and does.
#![tactic(auto)]

mod beside;
mod sharing;

pub use beside::run_all;
