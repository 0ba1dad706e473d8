//! How far a stream is.

/// How many of a stream's events and calls were passed, and where the reply of its open call stands, if that was sent.
#[derive(Clone, Copy)]
pub struct Cursor {
    pub events: usize,
    pub calls: usize,
    pub waiting: Option<usize>,
}
