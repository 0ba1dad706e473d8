//! The places that a search goes through.
//! Source: Khronos Vulkan-Loader, LoaderDriverInterface.md and LoaderLayerInterface.md, the variables that replace the folders
//! or stand in front of them.
ghost use Rattle.std.specs.Prelude.{◌≡◌, ◌++◌, IfOk, OnOk, map, option_map, string_bytes};
ghost use Rattle.layer_search.specs.Places as spec;
ghost use Rattle.layer_search.specs.Places.{AllIn, place_content, named_in, replacing, adding, places_of, is_json};

use crate::SearchKind;
use crate::folder_list::{folders, set_value, value_or};
use env_filters::{EnvList, NoMemory, split_paths};
use std::alloc::Global;

/// A place where manifests are searched.
#[derive(Drop)]
pub(crate) enum Place {
    /// A folder with its manifests.
    Folder(String),
    /// One manifest file.
    File(String),
}

/// Whether a name is that of a manifest file.
#[tactic(auto, using(std::proofs::lemmas::Str::Pattern::ends_text))]
pub(crate) fn is_json(name: &str) -> bool
    ensures { result ≡ is_json name.now }
{
    name.ends_with(".json")
}

// An entry of a variable: a file where it ends in `.json`, and else a folder.
fn place_of(entry: String) -> Place
    ensures { place_content result ≡ spec.place_of (string_bytes entry) }
{
    if is_json(entry.as_str()) {
        Place::File(entry)
    } else {
        Place::Folder(entry)
    }
}

// Adds the places that a value names.
fn add_named(alloc: Global, value: &str, places: &mut Vec<Place>) -> Result<(), NoMemory>
    ensures { OnOk result (map place_content places.new.items ≡ map place_content places.old.items ++ named_in value.now) }
{
    let entries = split_paths(alloc, value)?;
    for entry in entries {
        places.push(place_of(entry))?;
    }
    Ok(())
}

// Adds folders.
fn add_folders(folders: Vec<String>, places: &mut Vec<Place>) -> Result<(), NoMemory>
    ensures { OnOk result (map place_content places.new.items ≡ map place_content places.old.items ++ map AllIn (map string_bytes folders.items)) }
{
    for folder in folders {
        places.push(Place::Folder(folder))?;
    }
    Ok(())
}

// The value that replaces the folders.
#[tactic(auto, unfolding(crate::specs::Places::replacing))]
fn replacing(env: &EnvList, kind: SearchKind) -> Option<&str>
    ensures { option_map (λ value. value.now) result ≡ replacing kind env.now }
{
    match kind {
        SearchKind::Driver => set_value(env, "VK_DRIVER_FILES").or(set_value(
            env,
            "VK_ICD_FILENAMES",
        )),
        SearchKind::Explicit => set_value(env, "VK_LAYER_PATH"),
        SearchKind::Implicit => None,
    }
}

// The value whose places stand in front of the folders.
#[tactic(auto, unfolding(crate::specs::Places::adding))]
fn adding(env: &EnvList, kind: SearchKind) -> &str
    ensures { result.now ≡ adding kind env.now }
{
    match kind {
        SearchKind::Driver => value_or(env, "VK_ADD_DRIVER_FILES", ""),
        SearchKind::Explicit => value_or(env, "VK_ADD_LAYER_PATH", ""),
        SearchKind::Implicit => "",
    }
}

/// The places of a search by the variables.
pub(crate) fn places_of(
    alloc: Global,
    env: &EnvList,
    kind: SearchKind,
) -> Result<Vec<Place>, NoMemory>
    ensures { IfOk result (λ places. map place_content places.items ≡ places_of None kind env.now) }
{
    let mut places = Vec::new(alloc);
    match replacing(env, kind) {
        Some(value) => add_named(alloc, value, &mut places)?,
        None => {
            add_named(alloc, adding(env, kind), &mut places)?;
            add_folders(folders(alloc, env, kind)?, &mut places)?;
        }
    }
    Ok(places)
}

/// The given folders as places.
pub(crate) fn only_folders(alloc: Global, folders: &[String]) -> Result<Vec<Place>, NoMemory>
    ensures { IfOk result (λ places. map place_content places.items ≡ map AllIn (map string_bytes folders.now)) }
{
    let mut places = Vec::new(alloc);
    for folder in folders {
        places.push(Place::Folder(folder.clone()?))?;
    }
    Ok(places)
}
