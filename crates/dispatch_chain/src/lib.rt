//! The stored dispatch tables of a chain of layers, and the walk of a call down its parts and of its results up.
//! Promises that walking a stored row is walking all parts of the chain, exactly as the machine of a chain says.
//! Leaves to others what stands below the last part, and what a trace makes of calls and results.
#![tactic(auto)]

mod entry;
mod example;
mod held;
mod kit;
mod laws;
mod part;
mod states;
mod table;
mod walks;

pub use entry::Entry;
pub use example::count_parts;
pub use held::Held;
pub use kit::{Kit, LifeEnter, LifeLeave, UniqueEnter, UniqueLeave, UseEnter, UseLeave};
pub use laws::results_are_once;
pub use states::LayerStates;
pub use table::{DispatchTable, no_rows};
pub use terminator::Terminator;
pub use walks::{walk_enter, walk_leave};
