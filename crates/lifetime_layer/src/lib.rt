//! The part of a layer that checks object lifetimes: which rules on parameters, parents and children fail at a call.
//! Promises that its findings are the failures of the history that it was given, and that it stands for the history with the call or its results.
//! Leaves to others what is kept of objects, how findings are written, and what becomes of a call that is skipped.
#![tactic(auto)]

mod checks;
mod finding;
mod rules;
mod state;
mod verdict;

pub use finding::Finding;
pub use state::LifeState;
pub use verdict::Verdict;
