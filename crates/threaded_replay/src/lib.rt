//! The streams of several threads, which are read from one file.
//! Promises of a file that is read which lines it had, or the first line that is refused and why.
//! Leaves to others what a stream file is, how a line is spelled, which events may follow others, and what a call does.
#![tactic(auto)]

mod device_list;
pub mod devices;
mod draft;
mod error;
mod file_state;
mod heading;
mod intake;
mod lines;
mod order;
mod origin;
mod origins;
mod read;
mod sections;
mod stream_file;
mod stream_rules;
mod thread;

pub use error::StreamError;
pub use stream_file::StreamFile;
