//! An entry of a log, as contracts see it.

use std::collections::LinkedList;

/// What an `Entry` says, with its results as a list. Contracts alone speak of it: no value of it is made.
pub struct Line {
    /// The thread that made the step.
    pub thread: u32,
    /// The number that a clock gave the step.
    pub time: u64,
    /// Whether a call begins; else it returns.
    pub begins: bool,
    /// The driver's values of the handles that the step brought.
    pub results: LinkedList<u64>,
}
