//! Builds the chain of layers between an application and the drivers, as the loader does at vkCreateInstance.
//! Promises that the answer is one filtered list of what the setup, the variables and the application name, with parts guarded.
//! Leaves to others how manifests are found and read (`layer_search`), what the parts do, and how a chain is printed.
#![tactic(auto)]

mod answers;
mod builder;
mod by_name;
mod chains;
mod copies;
mod expanded;
mod expanding;
mod expansions;
mod laws;
mod listed;
mod override_layer;
mod parts;
mod pieces;
mod setup;
mod switches;

pub use answers::{Chain, ChainAnswer, ChainError, ChainNote, MOST_LAYERS};
pub use chains::build;
pub use expansions::expand;
pub use laws::the_limits_of_a_chain;
pub use listed::MOST_LEVELS;
pub use object_model::PartKind;
pub use override_layer::read_setup;
pub use setup::Setup;
pub use switches::implicit_on;
