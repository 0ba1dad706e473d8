//! Replaying events that are there as a list.
//! Promises that the session comes to stand for them, that its drivers were told just their calls, and that their lines were written.
//! Leaves to others where the events come from, and what a session makes of one.
#![tactic(auto)]

mod replaying;

pub use replaying::replay_events;
