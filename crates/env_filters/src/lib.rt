//! The environment variables of a run, and what the loader reads out of their values: lists of paths and filters by name.
//! Promises that the last value of a name counts, which entries a list has, and which names a glob and a filter list match.
//! Leaves to others which variables there are, what they decide, and where the folders and layers come from.
#![tactic(auto)]

mod entries;
mod filters;
mod glob;
mod memory;
mod variables;

pub use entries::{split_layer_names, split_paths};
pub use filters::{FilterList, LayerKindBit};
pub use glob::Glob;
pub use memory::NoMemory;
pub use variables::EnvList;
