//! The plain layers of a name in a setup.
//! Source: Khronos Vulkan-Loader, LoaderLayerInterface.md, meta-layers.
ghost use Rattle.std.specs.Prelude.{◌≡◌, ◌++◌, IfOk, List, map, option_map, string_bytes};
ghost use Rattle.chain_build.specs.Expanding as spec;
ghost use Rattle.chain_build.specs.Expanding.{ListedLayer, listed, name_of, known_layers};
ghost use Rattle.chain_build.specs.Holding.{listed_layer, texts_of, names_content};
ghost use Rattle.chain_build.specs.Knowing.{Knows};
ghost use Rattle.chain_build.specs.Setup.{setup_content};
ghost use Rattle.layer_search.specs.Contents.{found_layer};
ghost use Rattle.layer_search.specs.Order.{firsts};

use crate::Setup;
use crate::by_name::ByName;
use crate::expanded::Expanded;
use crate::expanding::{expand_layer, last_row};
use crate::listed::Listed;
use env_filters::{LayerKindBit, NoMemory};
use layer_search::FoundLayer;
use std::alloc::{AllocError, Global};

// Adds layers of a kind, where none has their name.
fn add_all<'a>(
    mut known: ByName<'a>,
    kind: LayerKindBit,
    layers: &'a [FoundLayer],
) -> Result<ByName<'a>, AllocError>
    ensures { IfOk result (λ new. (met : List ListedLayer) → map listed_layer known.entry.layers.items ≡ firsts name_of met
        → map listed_layer new.layers.items ≡ firsts name_of (met ++ map (listed kind) (map found_layer layers.now))) }
{
    for layer in layers {
        known = known.add(Listed { kind, layer })?;
    }
    Ok(known)
}

// The layers that names are looked up among.
#[tactic(auto, unfolding(crate::specs::Expanding::known_layers))]
fn known(alloc: Global, setup: &Setup) -> Result<ByName<'_>, AllocError>
    ensures { IfOk result (λ known. map listed_layer known.layers.items ≡ known_layers (setup_content setup.now)) }
{
    let explicit = add_all(
        ByName::new(alloc),
        LayerKindBit::Explicit,
        &setup.explicit.list,
    )?;
    let all = add_all(explicit, LayerKindBit::Implicit, &setup.implicit.list)?;
    Ok(all)
}

/// The layers of a setup by name, with what each stands for.
pub(crate) fn expanded(alloc: Global, setup: &Setup) -> Result<Expanded<'_>, AllocError>
    ensures { IfOk result (λ names. Knows names (known_layers (setup_content setup.now))) }
{
    let known = known(alloc, setup)?;
    let row = last_row(alloc, &known)?;
    Ok(Expanded { known, row })
}

/// What a name stands for.
pub(crate) fn expand_name<'a>(
    alloc: Global,
    names: &Expanded<'a>,
    name: &str,
) -> Result<Option<Vec<&'a str>>, AllocError>
    ensures { IfOk result (λ plain. (layers : List ListedLayer) → Knows names.now layers → names_content plain ≡ spec.expand layers name.now) }
{
    match names.known.place_of(name) {
        Some(place) => {
            let layer = names.known.layers[place].layer;
            let plain = expand_layer(alloc, &names.known, &names.row, layer)?;
            Ok(plain)
        }
        None => Ok(None),
    }
}

// Names that are owned.
fn owned(alloc: Global, names: &[&str]) -> Result<Vec<String>, AllocError>
    ensures { IfOk result (λ owned. map string_bytes owned.items ≡ texts_of names.now) }
{
    let mut owned = Vec::new(alloc);
    for name in names {
        owned.push(String::from_str(alloc, *name)?)?;
    }
    Ok(owned)
}

/// The names of the plain layers that a name stands for, in order, each once, before those that are off are dropped. `None`
/// comes exactly where no layer has the name, or its layer can't be used: a meta-layer can't where a component is missing or
/// can't be used, where it holds itself at any depth, or where it is nested more than 8 deep. A name is looked up among the
/// explicit layers first.
pub fn expand(alloc: Global, setup: &Setup, name: &str) -> Result<Option<Vec<String>>, NoMemory>
    ensures { IfOk result (λ names. option_map (λ v. map string_bytes v.items) names ≡ spec.expand (known_layers (setup_content setup.now)) name.now) }
{
    let names = expanded(alloc, setup)?;
    match expand_name(alloc, &names, name)? {
        Some(plain) => Ok(Some(owned(alloc, &plain)?)),
        None => Ok(None),
    }
}
