//! Reads the JSON manifests in which Vulkan drivers and layers are announced to the loader.
//! Promises that an answer is a function of the file's bytes: the entry, or the first fault; only want of memory is free.
//! Leaves to others where manifests are searched for, which layers are on, and what a library's path is joined to.
#![tactic(auto)]

mod checks;
mod driver_manifest;
mod entries;
mod faults;
mod files;
mod keys;
mod layer_manifest;
mod rows;
mod texts;
mod values;

pub use driver_manifest::read_driver;
pub use entries::{DriverEntry, EnvPair, LayerEntry, LayerKind, Layers};
pub use faults::ManifestFault;
pub use keys::Key;
pub use layer_manifest::read_layers;
