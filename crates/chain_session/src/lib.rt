//! The session: what is kept of the events of a trace so far, over any chain of layers and any number of drivers.
//! Promises that each begin and each return is judged, told to the drivers and written as the trace says, whatever the drivers answer.
//! Leaves to others how events are read and in which order they may come, and where the lines go.
#![tactic(auto)]

mod beginning;
mod call;
mod counting;
mod creation;
mod error;
mod finishing;
mod judging;
mod kept;
mod names;
mod no_chain;
mod open_calls;
mod opening;
mod raising;
mod reporting;
mod room;
mod sending;
mod session;
mod standing;
mod started;
mod starting;
mod telling;

pub use error::SessionError;
pub use session::Session;
pub use standing::parts_follow_a_trace;
