//! What `vkreplay` does, over a tree, a trace, two sinks and a driver that are lent to it: its public call `replay_main` has the
//! promises of the program, and `exit_status` those of its process. What a trace means, how it is replayed and how a chain is built
//! is left to the crates below.
#![tactic(auto)]

mod blocks;
mod chain;
mod environment;
mod finish;
mod laws;
mod process;
mod run;
mod saying;
mod soak;
mod top;

pub use blocks::BlockSink;
pub use environment::variables_of;
pub use finish::{Finished, status_at_end};
pub use laws::what_is_shown_is_what_is_judged;
pub use process::{Invocation, exit_status};
pub use saying::{put_two, say, say_fault, say_kind, say_limit, say_limit_of};
pub use top::replay_main;
