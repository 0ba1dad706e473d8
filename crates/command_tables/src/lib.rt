//! The table of the Vulkan commands that a trace can hold, and the calls that pass down a chain of layers.
//! Promises that each row, name, number and code is that of the table, and that a call's arguments are a list of lists.
//! Leaves to others what a call does to objects, which rules it breaks, and how a trace spells it.
#![tactic(auto)]

mod args;
mod call;
mod codes;
mod effects;
mod lookup;
mod memory;
mod table;
mod types;

pub use args::HandleArgs;
pub use call::LayerCall;
pub use codes::{CODES, codes_in_order};
pub use lookup::{COMMANDS, facts_of_the_table, find};
pub use memory::NoMemory;
pub use table::row;
pub use types::{
    Code, CommandId, Effect, Implied, ObjectType, OwnerMark, OwnerOf, Param, Row, Rule,
};
