//! A part of a layer that gives the layers above it handles of its own, as the Khronos unique-objects layer does.
//! Promises that a call goes on, and results come up, exactly as the machine of a chain says of such a part.
//! Leaves to others in which order the parts of a chain are walked, and which calls reach this one.
#![tactic(auto)]

mod chain;
mod entry;
mod issued_values;
mod kept;
mod key;
mod reading;
mod state;
mod value;
mod wrapped;

pub use state::UniqueState;
