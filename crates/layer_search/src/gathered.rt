//! What a search for layers has found so far.
ghost use Rattle.layer_search.specs.Contents.{AllOfFiles};

use crate::{FoundLayer, Note};
use std::collections::BTreeSet;

/// Layers, of each name the first, all names that were met, and notes.
#[derive(Drop)]
pub(crate) struct Gathered {
    pub(crate) seen: BTreeSet<String>,
    pub(crate) list: Vec<FoundLayer>,
    pub(crate) notes: Vec<Note>,
    ghost reasons: { AllOfFiles notes.items },
}
