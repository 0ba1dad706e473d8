//! What a thread needs for the calls of its stream.
use model_driver::{DriverCall, DriverReply};
use stream_log::{Seen, Tick};

/// A worker makes the calls of one stream: those of its thread. `stream` is the stream's number in each plan, from 0. `places` has of each call
/// the number of its plan, from 0, in the order of the calls. `tokens` and `made` have for each plan the thread's token of the log, and how many
/// steps it has made there. `seat` is the thread's own at the driver. `call` and `reply` are what the driver is told and what it answers. `sent`
/// has of each call so far whether it was sent.
#[derive(Drop)]
pub struct Worker<S: Drop> {
    pub thread: u32,
    pub stream: usize,
    pub places: Vec<usize>,
    pub tokens: Vec<Option<Seen>>,
    pub made: Vec<usize>,
    pub tick: Tick,
    pub seat: S,
    pub call: DriverCall,
    pub reply: DriverReply,
    pub sent: Vec<bool>,
}
