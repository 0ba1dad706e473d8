//! Layers by name, of each name the first.
ghost use Rattle.std.specs.Prelude.{◌≡◌, map};
ghost use Rattle.chain_build.specs.Expanding.{name_of};
ghost use Rattle.chain_build.specs.Holding.{listed_layer, texts_of};

use crate::listed::Listed;
use env_filters::LayerKindBit;
use indexmap::IndexSet;
use layer_search::FoundLayer;
use std::alloc::{AllocError, Global};

/// Layers in the order in which they came, of each name the first, and their names at the same places.
#[derive(Drop)]
pub(crate) struct ByName<'a> {
    pub(crate) names: IndexSet<&'a str>,
    pub(crate) layers: Vec<Listed<'a>>,
    ghost paired: { texts_of names.keys ≡ map name_of (map listed_layer layers.items) },
}

impl<'a> ByName<'a> {
    ghost use Rattle.std.specs.Prelude.{ℕ, [], ◌∷◌, ◌++◌, ◌<◌, List, IfOk, IfSome, option_and_then, slice_get, vec_len};
    ghost use Rattle.chain_build.specs.Expanding.{ListedLayer, listed, found};
    ghost use Rattle.layer_search.specs.Contents.{found_layer};
    ghost use Rattle.layer_search.specs.Order.{firsts};

    pub(crate) fn new(alloc: Global) -> ByName<'a>
        ensures { map listed_layer result.layers.items ≡ [] }
    {
        ByName {
            names: IndexSet::new(alloc),
            layers: Vec::new(alloc),
        }
    }

    /// Adds a layer, where none has its name.
    pub(crate) fn add(self, listed: Listed<'a>) -> Result<ByName<'a>, AllocError>
        ensures { IfOk result (λ new. (met : List ListedLayer) → map listed_layer self.entry.layers.items ≡ firsts name_of met
            → map listed_layer new.layers.items ≡ firsts name_of (met ++ listed_layer listed.entry ∷ [])) }
    {
        let ByName {
            mut names,
            mut layers,
        } = self;
        if names.insert(listed.layer.entry.name.as_str())? {
            layers.push(listed)?;
        }
        Ok(ByName { names, layers })
    }

    /// The place of the layer of a name.
    pub(crate) fn place_of(&self, name: &str) -> Option<usize>
        ensures place { found (map listed_layer self.now.layers.items) name.now ≡ option_and_then (slice_get (map listed_layer self.now.layers.items)) result }
        ensures within { IfSome result (λ place. place < vec_len self.now.layers) }
    {
        self.names.get_index_of(name)
    }
}
