//! The entries of several logs in one order.
//! Promises that each log's entries are there in their order, that there are no others, and that all stand by time and then by thread.
//! Leaves to others what a log is, and what its entries mean.
#![tactic(auto)]

mod merging;

pub use merging::merge_logs;
