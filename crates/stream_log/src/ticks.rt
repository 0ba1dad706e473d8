//! What a seat at a clock's word knows.

/// How many draws are left, and the latest time that was seen. No value of it is made.
pub(crate) struct Ticks {
    pub left: u64,
    pub seen: u64,
}
