//! What is fixed when a log is made.

/// How many words a log has, and its threads.
#[derive(Drop)]
pub(crate) struct LogKey {
    pub size: usize,
    pub threads: Vec<u32>,
}
