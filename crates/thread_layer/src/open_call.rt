// What is kept of one open call.

/// A call that has begun and not returned, with how many uses are kept of it.
#[derive(Clone, Copy)]
pub struct OpenCall {
    /// The number of the call in its trace.
    pub number: u64,
    pub thread: u32,
    pub count: usize,
}
