//! Replays the events of a trace through a chain of layers to its drivers, and writes a line for each result.
//! Every answer of a run has its cause, and the drivers are told just the calls of the events so far that weren't skipped.
//! What the program's words mean and what is said of a failure is left to the program.
#![tactic(auto)]

mod error;
mod lines;
mod play;
mod player;
mod put;
mod run;
mod status;

pub use chain_session::Session;
pub use error::ReplayError;
pub use put::{put_end, text_of_notes};
pub use report_text::Tally;
pub use run::replay;
pub use status::Status;
