//! What a stream file is: setup, the streams of several threads and teardown, which one after the other are a trace.
//! Promises which lines a file may have, where it is refused and why, and shows it of small files by computation; and that what the threads
//! do on one device, in whatever order they take turns there, may come behind setup.
//! Leaves to others how a line of an event is spelled, which events may follow others, and all reading.
#![tactic(auto)]

mod heading;
mod laws;
mod limits;
mod refusal;
mod samples;

pub use heading::Heading;
pub use laws::{
    a_device_follows_the_setup, a_stream_file_is_a_trace, a_stream_file_is_within_its_limits,
    a_stream_is_of_one_thread, what_was_read_is_a_stream_file, what_was_read_is_of_the_grammar,
};
pub use limits::{
    HEADER, MOST_DEVICES, MOST_EVENTS, MOST_NAMES, MOST_STREAMS, the_limits_of_stream_files,
};
pub use refusal::Refusal;
