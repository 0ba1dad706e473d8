//! The replay of a stream file: its setup, its streams beside each other, what they did in one order, and its teardown.
//! Promises a session that stands for setup, a merge of the streams and teardown, their lines, and that each seat was told just the driver calls of
//! its part. Leaves to others how a file is read, and what is printed.
#![tactic(auto)]

mod counting;
mod following;
mod laws;
mod limits;
mod one_seat;
mod played;
mod replaying;
mod seats;
mod section;

pub use laws::{
    a_file_that_was_read_is_whole, no_call_of_a_stream_makes_a_chain,
    the_events_of_a_whole_file_are_of_the_grammar,
};
pub use limits::is_within;
pub use replaying::{Replayed, replay_streams};
