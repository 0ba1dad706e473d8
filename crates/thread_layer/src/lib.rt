//! The part of a layer that checks thread safety: which uses of objects overlap between calls that are open on several threads.
//! Promises that it finds at each call what the history of its calls says, and skips none.
//! Leaves to others what is kept of objects, how findings are written, and how calls reach it.
#![tactic(auto)]

mod conflicts;
mod gathering;
mod object_use;
mod open_call;
mod open_uses;
mod state;
mod uses;

pub use state::UseState;
