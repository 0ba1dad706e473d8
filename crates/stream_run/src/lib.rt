//! All streams of a file, each in a thread of its own where one can be made, and what they did in one order.
//! Promises that this order is a merge of the streams, and that of each device it has what the device's log says.
//! Leaves to others how a file is read, and the text of a merge.
#![tactic(auto)]

mod laws;
mod merged;
mod prepare;
mod run;
mod spent;

pub use merged::Merged;
pub use run::run_streams;
