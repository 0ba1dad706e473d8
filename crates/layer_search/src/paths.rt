//! The paths of a search's manifest files.
//! Source: Khronos Vulkan-Loader, LoaderDriverInterface.md and LoaderLayerInterface.md, discovery on Linux; the byte order of a
//! folder's names and the limit are this project's choices.
ghost use Rattle.std.specs.Prelude.{◌≡◌, ◌≤◌, [], ◌∷◌, ◌++◌, List, ℕ, IfOk, OnOk, IfErr, map, filter, string_bytes, vec_len};
ghost use Rattle.std.specs.List.{flat_map};
ghost use Rattle.replay_base.specs.Files.{path_in};
ghost use Rattle.layer_search.specs.Causes.{WhereTold, HasSearchCause, IsOwnError, IsNoLimit, MeetsLimit};
ghost use Rattle.layer_search.specs.Collecting.{Collects};
ghost use Rattle.layer_search.specs.Order.{in_order, firsts};
ghost use Rattle.layer_search.specs.Paths.{rooted, json_names, paths_at, paths_of, most_paths};
ghost use Rattle.layer_search.specs.Places.{AllIn, place_content, is_json};

use crate::SearchError;
use crate::firsts::is_new;
use crate::folder_list::joined;
use crate::path_list::{MOST_PATHS, PathList};
use crate::places::{Place, is_json};
use replay_base::Tree;
use std::alloc::{AllocError, Global};
use std::collections::BTreeSet;

/// The path that a tree is asked for: below the root where it begins with `/`, and else as written.
pub(crate) fn rooted(alloc: Global, root: &str, path: &str) -> Result<String, AllocError>
    ensures { IfOk result (λ text. string_bytes text ≡ rooted root.now path.now) }
{
    if path.as_bytes().first() == Some(&b'/') {
        joined(alloc, root, path)
    } else {
        String::from_str(alloc, path)
    }
}

// The path of a name in a folder.
fn path_in(alloc: Global, folder: &str, name: &str) -> Result<String, AllocError>
    ensures { IfOk result (λ text. string_bytes text ≡ path_in folder.now name.now) }
{
    let mut path = joined(alloc, folder, "/")?;
    path.push_str(name)?;
    Ok(path)
}

// Puts names in byte order.
fn sort(names: &mut Vec<String>) -> Result<(), AllocError>
    ensures { OnOk result (map string_bytes names.new.items ≡ in_order (map string_bytes names.old.items)) }
{
    names.sort()?;
    Ok(())
}

// Leaves the names of manifest files.
fn keep_manifests(names: &mut Vec<String>)
    ensures { map string_bytes names.new.items ≡ filter is_json (map string_bytes names.old.items) }
{
    names.retain(|name| is_json(name.as_str()));
}

// Leaves the names of manifest files, in byte order.
fn put_in_order(names: &mut Vec<String>) -> Result<(), AllocError>
    ensures { OnOk result (map string_bytes names.new.items ≡ filter is_json (in_order (map string_bytes names.old.items))) }
{
    sort(names)?;
    keep_manifests(names);
    Ok(())
}

// A folder's names of manifest files, in byte order.
fn json_names<T: Tree>(
    alloc: Global,
    tree: &mut T,
    root: &str,
    folder: &str,
) -> Result<Vec<String>, SearchError>
    ensures names { WhereTold (T.files tree.old) (λ files. IfOk result (λ names. map string_bytes names.items ≡ json_names files root.now folder.now)) }
    ensures limit { IfErr result IsNoLimit }
    ensures same { T.files tree.new ≡ T.files tree.old }
    ensures cause { HasSearchCause (T.faults tree.old) (T.faults tree.new) result }
{
    let at = rooted(alloc, root, folder)?;
    let mut names = Vec::new(alloc);
    tree.list(at.as_str(), &mut names)?;
    put_in_order(&mut names)?;
    Ok(names)
}

impl PathList {
    fn new(alloc: Global) -> PathList
        ensures { Collects result [] }
    {
        PathList {
            seen: BTreeSet::new(alloc),
            list: Vec::new(alloc),
        }
    }

    // Adds a path, where it wasn't met before.
    fn add(&mut self, alloc: Global, path: String) -> Result<(), SearchError>
        ensures added { OnOk result ((met : List (List ℕ)) → Collects self.old met → Collects self.new (met ++ string_bytes path ∷ [])) }
        ensures limit { IfErr result (λ e. (met : List (List ℕ)) → Collects self.old met → MeetsLimit (firsts (λ p. p) (met ++ string_bytes path ∷ [])) e) }
        ensures own { IfErr result IsOwnError }
    {
        if !is_new(alloc, &mut self.seen, path.as_str())? {
            return Ok(());
        }
        if self.list.len() >= MOST_PATHS {
            return Err(SearchError::TooMany {
                count: MOST_PATHS as u32 + 1,
            });
        }
        self.list.push(path)?;
        Ok(())
    }

    // Adds the paths of names in a folder.
    fn add_names(
        &mut self,
        alloc: Global,
        folder: &str,
        names: &[String],
    ) -> Result<(), SearchError>
        ensures added { OnOk result ((met : List (List ℕ)) → Collects self.old met → Collects self.new (met ++ map (path_in folder.now) (map string_bytes names.now))) }
        ensures limit { IfErr result (λ e. (met : List (List ℕ)) → Collects self.old met → MeetsLimit (firsts (λ p. p) (met ++ map (path_in folder.now) (map string_bytes names.now))) e) }
        ensures own { IfErr result IsOwnError }
    {
        for name in names {
            self.add(alloc, path_in(alloc, folder, name)?)?;
        }
        Ok(())
    }

    // Adds the paths at a place.
    #[tactic(auto, using(crate::proofs::Limits::no_limit))]
    fn add_place<T: Tree>(
        &mut self,
        alloc: Global,
        tree: &mut T,
        root: &str,
        place: &Place,
    ) -> Result<(), SearchError>
        ensures added { WhereTold (T.files tree.old) (λ files. OnOk result ((met : List (List ℕ)) → Collects self.old met
            → Collects self.new (met ++ paths_at files root.now (place_content place.now)))) }
        ensures limit { WhereTold (T.files tree.old) (λ files. IfErr result (λ e. (met : List (List ℕ)) → Collects self.old met
            → MeetsLimit (firsts (λ p. p) (met ++ paths_at files root.now (place_content place.now))) e)) }
        ensures same { T.files tree.new ≡ T.files tree.old }
        ensures cause { HasSearchCause (T.faults tree.old) (T.faults tree.new) result }
    {
        match place {
            Place::Folder(folder) => {
                let names = json_names(alloc, tree, root, folder)?;
                self.add_names(alloc, folder, &names)?;
            }
            Place::File(path) => self.add(alloc, path.clone()?)?,
        }
        Ok(())
    }
}

/// The paths of the manifest files at some places, each once.
#[tactic(auto, using(crate::proofs::Joins::pieces_more))]
pub(crate) fn paths_of<T: Tree>(
    alloc: Global,
    tree: &mut T,
    root: &str,
    places: &[Place],
) -> Result<Vec<String>, SearchError>
    ensures paths { WhereTold (T.files tree.old) (λ files. IfOk result (λ paths. map string_bytes paths.items ≡ paths_of files root.now (map place_content places.now))) }
    ensures limit { WhereTold (T.files tree.old) (λ files. IfErr result (MeetsLimit (paths_of files root.now (map place_content places.now)))) }
    ensures few { IfOk result (λ paths. vec_len paths ≤ most_paths) }
    ensures same { T.files tree.new ≡ T.files tree.old }
    ensures cause { HasSearchCause (T.faults tree.old) (T.faults tree.new) result }
{
    let mut paths = PathList::new(alloc);
    for place in places {
        paths.add_place(alloc, tree, root, place)?;
    }
    Ok(paths.list)
}
