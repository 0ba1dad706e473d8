//! The setup that files and variables come to, with the override layer.
//! Source: Khronos Vulkan-Loader, LoaderLayerInterface.md, the override meta-layer.
ghost use Rattle.std.specs.Prelude.{◌≡◌, ◌≤◌, None, IfOk, OnOk, IfErr, filter, length, map, option_map, string_bytes, vec_len};
ghost use Rattle.chain_build.specs.Causes.{MeetsTooMany};
ghost use Rattle.chain_build.specs.Holding.{filter_set};
ghost use Rattle.chain_build.specs.Override as spec;
ghost use Rattle.chain_build.specs.Setup.{setup_content};
ghost use Rattle.layer_search.specs.Causes.{WhereTold, HasSearchCause, MeetsLimit};
ghost use Rattle.layer_search.specs.Contents.{AllOfFiles, found_layer, layers_content};
ghost use Rattle.layer_search.specs.Found.{layers_found};
ghost use Rattle.layer_search.specs.Paths.{most_paths};
ghost use Rattle.manifest_reader.specs.Contents.{layer_content};
ghost use Rattle.manifest_reader.specs.declared.entries.LayerKind.TheVariants.{Explicit};

use crate::Setup;
use crate::copies::copy_layer;
use crate::pieces::{holds, is_override};
use crate::switches::{Filters, filters_of, is_on};
use env_filters::EnvList;
use layer_search::{FoundLayer, LayerList, SearchError, find_drivers, find_layers};
use manifest_reader::{LayerEntry, LayerKind};
use replay_base::Tree;
use std::alloc::{AllocError, Global};

// Whether an override is for an executable.
fn is_for(layer: &LayerEntry, exe: &str) -> bool
    ensures { result ≡ spec.is_for (layer_content layer.now) exe.now }
{
    layer.app_keys.is_empty() || holds(&layer.app_keys, exe)
}

// Whether an override is active.
fn is_active(filters: &Filters, env: &EnvList, exe: &str, layer: &FoundLayer) -> bool
    ensures { result ≡ spec.is_active (filter_set filters.now) env.now exe.now (found_layer layer.now) }
{
    is_on(filters, env, &layer.entry) && is_for(&layer.entry, exe)
}

// The override that is active.
fn active_override(
    alloc: Global,
    filters: &Filters,
    env: &EnvList,
    exe: &str,
    layers: &[FoundLayer],
) -> Result<Option<FoundLayer>, AllocError>
    ensures { IfOk result (λ over. option_map found_layer over ≡ spec.active_override (filter_set filters.now) env.now exe.now (map found_layer layers.now)) }
{
    for layer in layers {
        if is_override(layer) && is_active(filters, env, exe, layer) {
            return Ok(Some(copy_layer(alloc, layer)?));
        }
    }
    Ok(None)
}

// Whether an implicit layer stays.
fn remains(filters: &Filters, env: &EnvList, exe: &str, layer: &FoundLayer) -> bool
    ensures { result ≡ spec.remains (filter_set filters.now) env.now exe.now (found_layer layer.now) }
{
    !is_override(layer) || is_active(filters, env, exe, layer)
}

// Leaves the implicit layers that stay.
fn keep(filters: &Filters, env: &EnvList, exe: &str, layers: &mut Vec<FoundLayer>)
    ensures { map found_layer layers.new.items ≡ filter (spec.remains (filter_set filters.now) env.now exe.now) (map found_layer layers.old.items) }
{
    layers.retain(|layer| remains(filters, env, exe, layer));
}

// Whether a layer has another name than the override.
fn is_other(layer: &FoundLayer) -> bool
    ensures { result ≡ spec.is_other (found_layer layer.now) }
{
    layer.entry.name.as_str() != "VK_LAYER_LUNARG_override"
}

// Leaves the layers of other names than the override's.
fn drop_override(layers: &mut Vec<FoundLayer>)
    ensures { map found_layer layers.new.items ≡ filter spec.is_other (map found_layer layers.old.items) }
{
    layers.retain(|layer| is_other(layer));
}

// The folders of an override in which explicit layers are searched again.
fn folders_again(over: &Option<FoundLayer>) -> &[String]
    ensures { map string_bytes result.now ≡ spec.folders_again (option_map found_layer over.now) }
{
    match over {
        Some(layer) => &layer.entry.override_paths,
        None => &[],
    }
}

// The explicit layers: those of the folders, where there are some, and else those that were found first.
fn explicit_layers<T: Tree>(
    alloc: Global,
    tree: &mut T,
    env: &EnvList,
    root: &str,
    folders: &[String],
    first: LayerList,
) -> Result<LayerList, SearchError>
    ensures found { WhereTold (T.files tree.old) (λ files. IfOk result (λ layers. layers_content first ≡ layers_found files env.now root.now Explicit None
        → layers_content layers ≡ spec.explicit_layers files env.now root.now (map string_bytes folders.now))) }
    ensures too_many { WhereTold (T.files tree.old) (λ files. IfErr result (MeetsLimit (spec.paths_again files env.now root.now (map string_bytes folders.now)))) }
    ensures within { WhereTold (T.files tree.old) (λ files. OnOk result (length (spec.paths_again files env.now root.now (map string_bytes folders.now)) ≤ most_paths)) }
    ensures reasons { IfOk result (λ layers. AllOfFiles first.notes.items → AllOfFiles layers.notes.items) }
    ensures same { T.files tree.new ≡ T.files tree.old }
    ensures cause { HasSearchCause (T.faults tree.old) (T.faults tree.new) result }
{
    if folders.is_empty() {
        return Ok(first);
    }
    let mut again = find_layers(alloc, tree, env, root, LayerKind::Explicit, Some(folders))?;
    drop_override(&mut again.list);
    Ok(again)
}

/// Reads what a chain is built of: the drivers, the explicit and the implicit layers, and the override. An override that isn't
/// active is left out of the implicit layers; one that is and has `override_paths` has the explicit layers searched again in
/// these folders alone, and the first search's layers and notes are dropped. An override is active where it is on and its
/// `app_keys` has just the executable's path, or none.
///
/// Each search counts its manifest files alone: `TooMany` comes at the 4,097th of one of them.
#[tactic(auto, unfolding(crate::specs::Override::setup_of, crate::specs::Override::most_met))]
pub fn read_setup<T: Tree>(
    alloc: Global,
    tree: &mut T,
    env: &EnvList,
    root: &str,
    exe: &str,
) -> Result<Setup, SearchError>
    ensures setup { WhereTold (T.files tree.old) (λ files. IfOk result (λ setup. setup_content setup ≡ spec.setup_of files env.now root.now exe.now)) }
    ensures too_many { WhereTold (T.files tree.old) (λ files. IfErr result (MeetsTooMany (spec.most_met files env.now root.now exe.now))) }
    ensures within { WhereTold (T.files tree.old) (λ files. OnOk result (spec.most_met files env.now root.now exe.now ≤ most_paths)) }
    ensures few { IfOk result (λ setup. vec_len setup.drivers.list ≤ most_paths) }
    ensures driver_notes { IfOk result (λ setup. AllOfFiles setup.drivers.notes.items) }
    ensures explicit_notes { IfOk result (λ setup. AllOfFiles setup.explicit.notes.items) }
    ensures implicit_notes { IfOk result (λ setup. AllOfFiles setup.implicit.notes.items) }
    ensures same { T.files tree.new ≡ T.files tree.old }
    ensures cause { HasSearchCause (T.faults tree.old) (T.faults tree.new) result }
{
    let filters = filters_of(alloc, env)?;
    let drivers = find_drivers(alloc, tree, env, root)?;
    let first = find_layers(alloc, tree, env, root, LayerKind::Explicit, None)?;
    let mut implicit = find_layers(alloc, tree, env, root, LayerKind::Implicit, None)?;
    let over = active_override(alloc, &filters, env, exe, &implicit.list)?;
    keep(&filters, env, exe, &mut implicit.list);
    let folders = folders_again(&over);
    let explicit = explicit_layers(alloc, tree, env, root, folders, first)?;
    let env = env.clone()?;
    let exe = String::from_str(alloc, exe)?;
    Ok(Setup {
        drivers,
        explicit,
        implicit,
        over,
        env,
        exe,
    })
}
