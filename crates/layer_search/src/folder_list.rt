//! The folders in which manifests are searched.
//! Source: the XDG Base Directory Specification, its variables and their defaults; Khronos Vulkan-Loader,
//! LoaderDriverInterface.md and LoaderLayerInterface.md, discovery on Linux.
ghost use Rattle.std.specs.Prelude.{◌≡◌, ◌++◌, IfOk, OnOk, map, option_map, string_bytes};
ghost use Rattle.env_filters.specs.Entries.{paths_of};
ghost use Rattle.layer_search.specs.Folders.{set_value, value_or, home_value, config_folders, data_folders, suffix_of, folders_of};

use crate::SearchKind;
use env_filters::{EnvList, NoMemory, split_paths};
use std::alloc::{AllocError, Global};

/// The value of a variable; an empty one counts as not set.
pub(crate) fn set_value<'a>(env: &'a EnvList, name: &str) -> Option<&'a str>
    ensures { option_map (λ value. value.now) result ≡ set_value env.now name.now }
{
    let value = env.get(name)?;
    if value.is_empty() { None } else { Some(value) }
}

/// The value of a variable, or else a default.
pub(crate) fn value_or<'a>(env: &'a EnvList, name: &str, default: &'a str) -> &'a str
    ensures { result.now ≡ value_or env.now name.now default.now }
{
    match set_value(env, name) {
        Some(value) => value,
        None => default,
    }
}

/// A text with another behind it.
pub(crate) fn joined(alloc: Global, front: &str, rest: &str) -> Result<String, AllocError>
    ensures { IfOk result (λ text. string_bytes text ≡ front.now ++ rest.now) }
{
    let mut text = String::from_str(alloc, front)?;
    text.push_str(rest)?;
    Ok(text)
}

// The value of a variable, or else that of `HOME` with a folder behind it, or else nothing.
fn home_value(alloc: Global, env: &EnvList, name: &str, folder: &str) -> Result<String, NoMemory>
    ensures { IfOk result (λ value. string_bytes value ≡ home_value env.now name.now folder.now) }
{
    if let Some(value) = set_value(env, name) {
        return Ok(String::from_str(alloc, value)?);
    }
    match set_value(env, "HOME") {
        Some(home) => Ok(joined(alloc, home, folder)?),
        None => Ok(String::new(alloc)),
    }
}

// Adds the paths that a value names.
fn add_paths(alloc: Global, value: &str, paths: &mut Vec<String>) -> Result<(), NoMemory>
    ensures { OnOk result (map string_bytes paths.new.items ≡ map string_bytes paths.old.items ++ paths_of value.now) }
{
    let mut named = split_paths(alloc, value)?;
    paths.append(&mut named)?;
    Ok(())
}

// Adds the folders of configuration: the user's, the system's, and `/etc`.
#[tactic(auto, unfolding(crate::specs::Folders::config_folders))]
fn add_config(alloc: Global, env: &EnvList, paths: &mut Vec<String>) -> Result<(), NoMemory>
    ensures { OnOk result (map string_bytes paths.new.items ≡ map string_bytes paths.old.items ++ config_folders env.now) }
{
    let home = home_value(alloc, env, "XDG_CONFIG_HOME", "/.config")?;
    add_paths(alloc, home.as_str(), paths)?;
    add_paths(alloc, value_or(env, "XDG_CONFIG_DIRS", "/etc/xdg"), paths)?;
    paths.push(String::from_str(alloc, "/etc")?)?;
    Ok(())
}

// Adds the folders of data: the user's and the system's.
#[tactic(auto, unfolding(crate::specs::Folders::data_folders))]
fn add_data(alloc: Global, env: &EnvList, paths: &mut Vec<String>) -> Result<(), NoMemory>
    ensures { OnOk result (map string_bytes paths.new.items ≡ map string_bytes paths.old.items ++ data_folders env.now) }
{
    let home = home_value(alloc, env, "XDG_DATA_HOME", "/.local/share")?;
    add_paths(alloc, home.as_str(), paths)?;
    let system = value_or(env, "XDG_DATA_DIRS", "/usr/local/share:/usr/share");
    add_paths(alloc, system, paths)?;
    Ok(())
}

// Where below a folder the manifests of a kind are.
#[tactic(auto, unfolding(crate::specs::Folders::suffix_of))]
fn suffix_of(kind: SearchKind) -> &'static str
    ensures { result.now ≡ suffix_of kind }
{
    match kind {
        SearchKind::Driver => "/vulkan/icd.d",
        SearchKind::Explicit => "/vulkan/explicit_layer.d",
        SearchKind::Implicit => "/vulkan/implicit_layer.d",
    }
}

/// The folders in which manifests of a kind are searched, in order, where no other variable replaces them. A value is split
/// at `:`, also that of `HOME`; empty values count as not set.
#[tactic(auto, unfolding(crate::specs::Folders::folders_of))]
pub fn folders(alloc: Global, env: &EnvList, kind: SearchKind) -> Result<Vec<String>, NoMemory>
    ensures { IfOk result (λ folders. map string_bytes folders.items ≡ folders_of kind env.now) }
{
    let mut bases = Vec::new(alloc);
    add_config(alloc, env, &mut bases)?;
    add_data(alloc, env, &mut bases)?;
    let mut folders = Vec::new(alloc);
    for base in &bases {
        folders.push(joined(alloc, base, suffix_of(kind))?)?;
    }
    Ok(folders)
}
