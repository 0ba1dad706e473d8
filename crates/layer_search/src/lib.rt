//! Finds the manifests of Vulkan drivers and layers: the folders and files of a search, their order, and which entries stay.
//! Promises that, where the tree tells its files, an answer is one list made of all paths; an error comes by its cause alone.
//! Leaves to others what a manifest says (`manifest_reader`), which layers are on, and the chain that is built of them.
#![tactic(auto)]

mod drivers;
mod errors;
mod files;
mod firsts;
mod folder_list;
mod found;
mod gathered;
mod kinds;
mod laws;
mod layers;
mod path_list;
mod paths;
mod places;
mod rows;

pub use drivers::find_drivers;
pub use errors::SearchError;
pub use files::MOST_BYTES;
pub use folder_list::folders;
pub use found::{Drivers, FoundDriver, FoundLayer, LayerList, Note, NoteKind};
pub use kinds::SearchKind;
pub use laws::the_limits_of_a_search;
pub use layers::find_layers;
pub use path_list::MOST_PATHS;
