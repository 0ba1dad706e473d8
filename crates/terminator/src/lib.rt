//! The end of a chain of layers: it issues ids for dispatchable handles and surfaces, and knows each driver's values for them.
//! Promises that the drivers of a call are told it in their own values, and that replies become results, as the machine of a chain says.
//! Leaves to others how the drivers are called, and what of a reply is passed on.
#![tactic(auto)]

mod answers;
mod bare;
mod chain;
mod entry;
mod issued;
mod kept;
mod key;
mod laws;
mod reading;
mod receivers;
mod table;
mod telling;
mod terminator;
mod value;
mod values;

pub use laws::{what_is_told_has_its_shape, what_was_issued_stays};
pub use terminator::Terminator;
