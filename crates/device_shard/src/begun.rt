//! What a begin comes to.
use stream_log::Seen;

/// What a begin comes to: its time, the driver that is told the call, from 0, or none where the call is skipped, and the thread's token.
#[derive(Drop)]
pub struct Begun {
    pub time: u64,
    pub driver: Option<u32>,
    pub seen: Seen,
}
