//! What `vkreplay_mt` does, over a tree, a stream file, two sinks and a driver with seats that are lent to it: its public call `threads_main` has the
//! promises of the program. What a stream file is, how it is replayed and how a chain is built is left to the crates below.
#![tactic(auto)]

mod finish;
mod printing;
mod process;
mod reading;
mod top;
mod words;

pub use process::threads_status;
pub use top::{Ended, threads_main};
