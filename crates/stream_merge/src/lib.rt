//! What the logs of all devices say in one order: the events of the threads, and what their drivers replied.
//! Promises that each entry stands for its thread's next event, and that each call that was sent has its reply, in the order of the begins.
//! Leaves to others who makes the logs, and in which order they come.
#![tactic(auto)]

pub mod copies;
mod cursor;
mod events;
mod places;
mod replies;

pub use events::gather_events;
pub use replies::gather_replies;
