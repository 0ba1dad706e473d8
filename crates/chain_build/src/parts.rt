//! The checking and wrapping parts of layers.
//! Source: this project, after the names of the Khronos validation layers' libraries.

ghost use Rattle.std.specs.Prelude.{◌≡◌, ◌≤◌, ◌++◌, IfOk, OnOk, length, map, option_map, string_bytes};
ghost use Rattle.std.specs.List.{list_any};
ghost use Rattle.chain_build.specs.Parts as spec;
ghost use Rattle.layer_search.specs.Contents.{found_layer};

use crate::answers::MOST_LAYERS;
use layer_search::FoundLayer;
use object_model::PartKind;
use std::alloc::{AllocError, Global};

static ALL: [PartKind; 3] = [PartKind::Threads, PartKind::Lifetimes, PartKind::Unique];

static THREADS: [PartKind; 1] = [PartKind::Threads];

static LIFETIMES: [PartKind; 1] = [PartKind::Lifetimes];

static UNIQUE: [PartKind; 1] = [PartKind::Unique];

// The parts of a library, from the application down.
#[tactic(auto, unfolding(crate::specs::Parts::library_parts))]
fn library_parts(file: &str) -> &'static [PartKind]
    ensures { result.now ≡ spec.library_parts file.now }
{
    if file == "libVkLayer_khronos_validation.so" {
        &ALL
    } else if file == "libVkLayer_thread_safety.so" {
        &THREADS
    } else if file == "libVkLayer_object_lifetimes.so" {
        &LIFETIMES
    } else if file == "libVkLayer_unique_objects.so" {
        &UNIQUE
    } else {
        &[]
    }
}

// The last component of a path.
fn last_component(path: &str) -> &str
    ensures { result.now ≡ spec.last_component path.now }
{
    match path.rsplit_once('/') {
        Some((_, name)) => name,
        None => path,
    }
}

// The parts of a layer: those of its library.
fn layer_parts(layer: &FoundLayer) -> &'static [PartKind]
    ensures { result.now ≡ spec.layer_parts (found_layer layer.now) }
{
    match &layer.entry.library {
        Some(library) => library_parts(last_component(library.as_str())),
        None => library_parts(last_component("")),
    }
}

fn is_unique(part: PartKind) -> bool
    ensures { result ≡ spec.is_unique part }
{
    matches!(part, PartKind::Unique)
}

fn has_unique(parts: &[PartKind]) -> bool
    ensures { result ≡ list_any spec.is_unique parts.now }
{
    parts.iter().any(|part| is_unique(*part))
}

// Whether a layer has a unique part.
fn wraps(layer: &FoundLayer) -> bool
    ensures { result ≡ list_any spec.is_unique (spec.layer_parts (found_layer layer.now)) }
{
    has_unique(layer_parts(layer))
}

// Whether one of some layers has a unique part.
fn one_wraps(layers: &[FoundLayer]) -> bool
    ensures { result ≡ list_any (λ l. list_any spec.is_unique (spec.layer_parts (found_layer l))) layers.now }
{
    layers.iter().any(|layer| wraps(layer))
}

// Whether there is a unique part in some layers.
fn is_unique_below(layers: &[FoundLayer]) -> bool
    ensures { result ≡ list_any spec.is_unique (spec.parts_in (map found_layer layers.now)) }
{
    one_wraps(layers)
}

// Whether each checking part has a unique part nearer the driver, among the parts below it and in the layers that follow.
fn are_guarded(parts: &[PartKind], nearer: &[FoundLayer]) -> bool
    ensures { result ≡ spec.are_guarded parts.now (spec.parts_in (map found_layer nearer.now)) }
{
    let below = is_unique_below(nearer);
    for (place, part) in parts.iter().enumerate() {
        if !(is_unique(*part) || has_unique(&parts[place + 1..]) || below) {
            return false;
        }
    }
    true
}

/// The first layer that has a checking part without a unique part nearer the driver.
pub(crate) fn first_unguarded(layers: &[FoundLayer]) -> Option<&FoundLayer>
    ensures { option_map (λ l. string_bytes l.now.entry.name) result ≡ spec.first_unguarded (map found_layer layers.now) }
{
    for (place, layer) in layers.iter().enumerate() {
        if !are_guarded(layer_parts(layer), &layers[place + 1..]) {
            return Some(layer);
        }
    }
    None
}

// Adds parts with their layer's place.
fn add_parts(
    placed: &mut Vec<(PartKind, u32)>,
    parts: &[PartKind],
    place: u32,
) -> Result<(), AllocError>
    ensures { OnOk result (placed.new.items ≡ placed.old.items ++ map (λ part. (part, place)) parts.now) }
{
    for part in parts {
        placed.push((*part, place))?;
    }
    Ok(())
}

/// The parts of layers, from the application down, with their layers' places from 1.
pub(crate) fn placed_parts(
    alloc: Global,
    layers: &[FoundLayer],
) -> Result<Vec<(PartKind, u32)>, AllocError>
    requires { length layers.now ≤ MOST_LAYERS }
    ensures { IfOk result (λ placed. placed.items ≡ spec.placed_parts 1 (map found_layer layers.now)) }
{
    let mut placed = Vec::new(alloc);
    let mut place = 1;
    for layer in layers {
        add_parts(&mut placed, layer_parts(layer), place)?;
        place += 1;
    }
    Ok(placed)
}
