//! The search for drivers.
//! Source: Khronos Vulkan-Loader, LoaderDriverInterface.md, discovery on Linux and the variables that select and disable drivers.
ghost use Rattle.std.specs.Prelude.{◌≡◌, ◌+◌, ◌≤◌, ◌==◌, ◌++◌, IfOk, OnOk, IfErr, map, filter, length, not, string_bytes, vec_len};
ghost use Rattle.env_filters.specs.Filters.{filter_of};
ghost use Rattle.layer_search.specs.Causes.{WhereTold, HasSearchCause, IsNoLimit, MeetsLimit};
ghost use Rattle.layer_search.specs.Contents.{IsOfFile, AllOfFiles, drivers_content, found_driver, note_content};
ghost use Rattle.layer_search.specs.Found.{content_by, noted, driver_at, path_drivers, driver_notes, drivers_at, file_name, selecting, is_selected, stays, is_kept, driver_paths, drivers_of};
ghost use Rattle.layer_search.specs.Paths.{most_paths};
ghost use Rattle.manifest_reader.specs.Contents.{driver_content};
ghost use Rattle.manifest_reader.specs.Reading.{driver_of};

use crate::files::bytes_of;
use crate::folder_list::value_or;
use crate::paths::paths_of;
use crate::places::places_of;
use crate::{Drivers, FoundDriver, Note, NoteKind, SearchError, SearchKind};
use env_filters::{EnvList, FilterList, NoMemory};
use manifest_reader::{DriverEntry, ManifestFault, read_driver};
use replay_base::Tree;
use std::alloc::{AllocError, Global};

// The driver that bytes give, or the reason of its note.
fn read(alloc: Global, bytes: &[u8]) -> Result<Result<DriverEntry, NoteKind>, AllocError>
    ensures driver { IfOk result (λ read. content_by driver_content read ≡ noted (driver_of bytes.now)) }
    ensures reason { IfOk result (λ read. IfErr read IsOfFile) }
{
    match read_driver(alloc, bytes) {
        Ok(entry) => Ok(Ok(entry)),
        Err(ManifestFault::NoMemory) => Err(AllocError),
        Err(fault) => Ok(Err(NoteKind::Manifest(fault))),
    }
}

// The driver that a path gives, or the reason of its note.
#[tactic(auto, unfolding(crate::specs::Found::driver_at))]
fn driver_at<T: Tree>(
    alloc: Global,
    tree: &mut T,
    root: &str,
    path: &str,
) -> Result<Result<DriverEntry, NoteKind>, SearchError>
    ensures driver { WhereTold (T.files tree.old) (λ files. IfOk result (λ read. content_by driver_content read ≡ driver_at files root.now path.now)) }
    ensures reason { IfOk result (λ read. IfErr read IsOfFile) }
    ensures limit { IfErr result IsNoLimit }
    ensures same { T.files tree.new ≡ T.files tree.old }
    ensures cause { HasSearchCause (T.faults tree.old) (T.faults tree.new) result }
{
    match bytes_of(alloc, tree, root, path)? {
        Ok(bytes) => Ok(read(alloc, &bytes)?),
        Err(kind) => Ok(Err(kind)),
    }
}

// Adds what a path gave.
fn add(
    alloc: Global,
    path: &str,
    read: Result<DriverEntry, NoteKind>,
    drivers: &mut Drivers,
) -> Result<(), AllocError>
    ensures list { OnOk result (map found_driver drivers.new.list.items ≡ map found_driver drivers.old.list.items ++ path_drivers path.now (content_by driver_content read)) }
    ensures notes { OnOk result (map note_content drivers.new.notes.items ≡ map note_content drivers.old.notes.items ++ driver_notes path.now (content_by driver_content read)) }
    ensures few { OnOk result (vec_len drivers.new.list ≤ vec_len drivers.old.list + 1) }
    ensures reasons { OnOk result (IfErr read IsOfFile → AllOfFiles drivers.old.notes.items → AllOfFiles drivers.new.notes.items) }
{
    let path = String::from_str(alloc, path)?;
    match read {
        Ok(entry) => drivers.list.push(FoundDriver { path, entry })?,
        Err(kind) => drivers.notes.push(Note { kind, path })?,
    }
    Ok(())
}

// What the paths give.
fn drivers_at<T: Tree>(
    alloc: Global,
    tree: &mut T,
    root: &str,
    paths: &[String],
) -> Result<Drivers, SearchError>
    ensures drivers { WhereTold (T.files tree.old) (λ files. IfOk result (λ drivers. drivers_content drivers ≡ drivers_at files root.now (map string_bytes paths.now))) }
    ensures limit { IfErr result IsNoLimit }
    ensures few { IfOk result (λ drivers. vec_len drivers.list ≤ length paths.now) }
    ensures reasons { IfOk result (λ drivers. AllOfFiles drivers.notes.items) }
    ensures same { T.files tree.new ≡ T.files tree.old }
    ensures cause { HasSearchCause (T.faults tree.old) (T.faults tree.new) result }
{
    let mut drivers = Drivers {
        list: Vec::new(alloc),
        notes: Vec::new(alloc),
    };
    for path in paths {
        let read = driver_at(alloc, tree, root, path)?;
        add(alloc, path, read, &mut drivers)?;
    }
    Ok(drivers)
}

// The name of a file: what stands behind the last slash of its path.
fn file_name(path: &str) -> &str
    ensures { result.now ≡ file_name path.now }
{
    match path.rsplit_once('/') {
        Some((_, name)) => name,
        None => path,
    }
}

// Whether a list has a glob.
fn has_globs(list: &str) -> bool
    ensures { result ≡ not (length (filter_of list.now) == 0) }
{
    list.split(',').any(|entry| !entry.is_empty())
}

// The globs that select drivers, where there are any.
#[tactic(auto, unfolding(crate::specs::Found::selecting))]
fn selecting(alloc: Global, env: &EnvList) -> Result<Option<FilterList>, NoMemory>
    ensures { IfOk result (λ globs. globs ≡ selecting env.now) }
{
    let list = value_or(env, "VK_LOADER_DRIVERS_SELECT", "");
    if has_globs(list) {
        Ok(Some(FilterList::parse(alloc, list)?))
    } else {
        Ok(None)
    }
}

// Whether a name is selected.
fn is_selected(globs: &Option<FilterList>, name: &str) -> bool
    ensures { result ≡ is_selected globs.now name.now }
{
    match globs {
        Some(globs) => globs.hits(name),
        None => true,
    }
}

// Whether a driver stays, by the globs that select and those that disable.
fn stays(selected: &Option<FilterList>, disabled: &FilterList, driver: &FoundDriver) -> bool
    ensures { result ≡ stays selected.now disabled.now (found_driver driver.now) }
{
    let name = file_name(driver.path.as_str());
    is_selected(selected, name) && !disabled.hits(name)
}

// Leaves the drivers that stay, by the globs that select and those that disable.
fn retain(drivers: &mut Vec<FoundDriver>, selected: &Option<FilterList>, disabled: &FilterList)
    ensures kept { map found_driver drivers.new.items ≡ filter (stays selected.now disabled.now) (map found_driver drivers.old.items) }
    ensures few { vec_len drivers.new ≤ vec_len drivers.old }
{
    drivers.retain(|driver| stays(selected, disabled, driver));
}

// Leaves the drivers that the variables keep.
#[tactic(auto, unfolding(crate::specs::Found::is_kept))]
fn keep(alloc: Global, env: &EnvList, drivers: &mut Vec<FoundDriver>) -> Result<(), NoMemory>
    ensures kept { OnOk result (map found_driver drivers.new.items ≡ filter (is_kept env.now) (map found_driver drivers.old.items)) }
    ensures few { OnOk result (vec_len drivers.new ≤ vec_len drivers.old) }
{
    let selected = selecting(alloc, env)?;
    let disabled = FilterList::parse(alloc, value_or(env, "VK_LOADER_DRIVERS_DISABLE", ""))?;
    retain(drivers, &selected, &disabled);
    Ok(())
}

/// Finds the drivers: in the folders and files that the variables say, without those that `VK_LOADER_DRIVERS_SELECT` doesn't
/// select or `VK_LOADER_DRIVERS_DISABLE` disables. These filters remove no notes.
///
/// A path that begins with `/` is asked of the tree below `root`; the paths of the answer are without it.
/// `TooMany` comes at the 4,097th manifest file, before any filter.
#[tactic(auto, using(crate::proofs::Limits::no_limit), unfolding(crate::specs::Found::driver_paths, crate::specs::Found::drivers_of))]
pub fn find_drivers<T: Tree>(
    alloc: Global,
    tree: &mut T,
    env: &EnvList,
    root: &str,
) -> Result<Drivers, SearchError>
    ensures found { WhereTold (T.files tree.old) (λ files. IfOk result (λ drivers. drivers_content drivers ≡ drivers_of files env.now root.now)) }
    ensures too_many { WhereTold (T.files tree.old) (λ files. IfErr result (MeetsLimit (driver_paths files env.now root.now))) }
    ensures within { WhereTold (T.files tree.old) (λ files. OnOk result (length (driver_paths files env.now root.now) ≤ most_paths)) }
    ensures few { IfOk result (λ drivers. vec_len drivers.list ≤ most_paths) }
    ensures reasons { IfOk result (λ drivers. AllOfFiles drivers.notes.items) }
    ensures same { T.files tree.new ≡ T.files tree.old }
    ensures cause { HasSearchCause (T.faults tree.old) (T.faults tree.new) result }
{
    let places = places_of(alloc, env, SearchKind::Driver)?;
    let paths = paths_of(alloc, tree, root, &places)?;
    let mut drivers = drivers_at(alloc, tree, root, &paths)?;
    keep(alloc, env, &mut drivers.list)?;
    Ok(drivers)
}
