//! An entry of a log, as it is given back.

/// One step of a thread at a device: the begin or the return of a call. Contracts see it by `line_of` as a `Line`.
#[derive(Drop)]
pub struct Entry {
    /// The thread that made the step.
    pub thread: u32,
    /// The number that a clock gave the step, 1 or more.
    pub time: u64,
    /// Whether a call begins; else it returns.
    pub begins: bool,
    /// The driver's values of the handles that the step brought, in the order of the reply.
    pub results: Vec<u64>,
}
