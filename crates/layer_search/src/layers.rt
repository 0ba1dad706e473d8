//! The search for layers.
//! Source: Khronos Vulkan-Loader, LoaderLayerInterface.md, discovery on Linux and the variables that name layers' folders; that
//! of layers of one kind with one name the first counts is this project's choice.
ghost use Rattle.std.specs.Prelude.{◌≡◌, ◌≤◌, [], ◌∷◌, ◌++◌, List, IfOk, OnOk, IfErr, map, length, option_map, replicate, string_bytes};
ghost use Rattle.layer_search.specs.Causes.{WhereTold, HasSearchCause, IsNoLimit, MeetsLimit};
ghost use Rattle.layer_search.specs.Collecting.{Gathers};
ghost use Rattle.layer_search.specs.Contents as contents;
ghost use Rattle.layer_search.specs.Contents.{IsOfFile, AllOfFiles, LayerFound, NoteContent, note_content};
ghost use Rattle.layer_search.specs.Found.{content_by, noted, layers_at, layer_at, path_layers, layer_notes, layer_paths, layers_found, found_layers};
ghost use Rattle.layer_search.specs.Kinds.{search_of};
ghost use Rattle.layer_search.specs.Paths.{most_paths};
ghost use Rattle.layer_search.specs.Places as spec;
ghost use Rattle.layer_search.specs.Places.{place_content};
ghost use Rattle.layer_search.specs.declared.found.NoteKind.TheVariants.{DeviceType};
ghost use Rattle.manifest_reader.specs.Contents.{layers_content, layer_content};
ghost use Rattle.manifest_reader.specs.Reading.{layers_of};

use crate::files::bytes_of;
use crate::firsts::is_new;
use crate::gathered::Gathered;
use crate::paths::paths_of;
use crate::places::{Place, only_folders, places_of};
use crate::{FoundLayer, LayerList, Note, NoteKind, SearchError, SearchKind};
use env_filters::{EnvList, NoMemory};
use manifest_reader::{LayerEntry, LayerKind, Layers, ManifestFault, read_layers};
use replay_base::Tree;
use std::alloc::{AllocError, Global};
use std::collections::BTreeSet;

// The layers that bytes give, or the reason of their note.
fn read(
    alloc: Global,
    bytes: &[u8],
    kind: LayerKind,
) -> Result<Result<Layers, NoteKind>, AllocError>
    ensures layers { IfOk result (λ read. content_by layers_content read ≡ noted (layers_of kind bytes.now)) }
    ensures reason { IfOk result (λ read. IfErr read IsOfFile) }
{
    match read_layers(alloc, bytes, kind) {
        Ok(layers) => Ok(Ok(layers)),
        Err(ManifestFault::NoMemory) => Err(AllocError),
        Err(fault) => Ok(Err(NoteKind::Manifest(fault))),
    }
}

// The layers that a path gives, or the reason of its note.
#[tactic(auto, unfolding(crate::specs::Found::layers_at))]
fn layers_at<T: Tree>(
    alloc: Global,
    tree: &mut T,
    root: &str,
    kind: LayerKind,
    path: &str,
) -> Result<Result<Layers, NoteKind>, SearchError>
    ensures layers { WhereTold (T.files tree.old) (λ files. IfOk result (λ read. content_by layers_content read ≡ layers_at kind files root.now path.now)) }
    ensures reason { IfOk result (λ read. IfErr read IsOfFile) }
    ensures limit { IfErr result IsNoLimit }
    ensures same { T.files tree.new ≡ T.files tree.old }
    ensures cause { HasSearchCause (T.faults tree.old) (T.faults tree.new) result }
{
    match bytes_of(alloc, tree, root, path)? {
        Ok(bytes) => Ok(read(alloc, &bytes, kind)?),
        Err(kind) => Ok(Err(kind)),
    }
}

impl Gathered {
    fn new(alloc: Global) -> Gathered
        ensures { Gathers result [] [] }
    {
        Gathered {
            seen: BTreeSet::new(alloc),
            list: Vec::new(alloc),
            notes: Vec::new(alloc),
        }
    }

    // Adds a layer, where its name wasn't met before.
    fn add_entry(&mut self, alloc: Global, path: &str, entry: LayerEntry) -> Result<(), AllocError>
        ensures { OnOk result ((met : List LayerFound) → (notes : List NoteContent) → Gathers self.old met notes
            → Gathers self.new (met ++ layer_at path.now (layer_content entry) ∷ []) notes) }
    {
        if is_new(alloc, &mut self.seen, entry.name.as_str())? {
            let path = String::from_str(alloc, path)?;
            self.list.push(FoundLayer { path, entry })?;
        }
        Ok(())
    }

    // Adds the layers of a path.
    fn add_entries(
        &mut self,
        alloc: Global,
        path: &str,
        entries: Vec<LayerEntry>,
    ) -> Result<(), AllocError>
        ensures { OnOk result ((met : List LayerFound) → (notes : List NoteContent) → Gathers self.old met notes
            → Gathers self.new (met ++ map (layer_at path.now) (map layer_content entries.items)) notes) }
    {
        for entry in entries {
            self.add_entry(alloc, path, entry)?;
        }
        Ok(())
    }

    // Adds a note.
    fn add_note(&mut self, alloc: Global, path: &str, kind: NoteKind) -> Result<(), AllocError>
        requires { IsOfFile kind }
        ensures { OnOk result ((met : List LayerFound) → (notes : List NoteContent) → Gathers self.old met notes
            → Gathers self.new met (notes ++ record { kind = kind; path = path.now } ∷ [])) }
    {
        let path = String::from_str(alloc, path)?;
        self.notes.push(Note { kind, path })?;
        Ok(())
    }

    // Adds a note for each of some entries of type `DEVICE`.
    fn add_devices(&mut self, alloc: Global, path: &str, count: u64) -> Result<(), AllocError>
        ensures { OnOk result ((met : List LayerFound) → (notes : List NoteContent) → Gathers self.old met notes
            → Gathers self.new met (notes ++ replicate count (record { kind = DeviceType; path = path.now }))) }
    {
        for _device in 0..count {
            self.add_note(alloc, path, NoteKind::DeviceType)?;
        }
        Ok(())
    }

    // Adds what a path gave.
    fn add(
        &mut self,
        alloc: Global,
        path: &str,
        read: Result<Layers, NoteKind>,
    ) -> Result<(), AllocError>
        requires { IfErr read IsOfFile }
        ensures { OnOk result ((met : List LayerFound) → (notes : List NoteContent) → Gathers self.old met notes
            → Gathers self.new (met ++ path_layers path.now (content_by layers_content read)) (notes ++ layer_notes path.now (content_by layers_content read))) }
    {
        match read {
            Ok(layers) => {
                self.add_entries(alloc, path, layers.entries)?;
                self.add_devices(alloc, path, layers.device_type)?;
            }
            Err(kind) => self.add_note(alloc, path, kind)?,
        }
        Ok(())
    }
}

// What the paths give.
fn found_layers<T: Tree>(
    alloc: Global,
    tree: &mut T,
    root: &str,
    kind: LayerKind,
    paths: &[String],
) -> Result<LayerList, SearchError>
    ensures layers { WhereTold (T.files tree.old) (λ files. IfOk result (λ layers. contents.layers_content layers ≡ found_layers kind files root.now (map string_bytes paths.now))) }
    ensures reasons { IfOk result (λ layers. AllOfFiles layers.notes.items) }
    ensures limit { IfErr result IsNoLimit }
    ensures same { T.files tree.new ≡ T.files tree.old }
    ensures cause { HasSearchCause (T.faults tree.old) (T.faults tree.new) result }
{
    let mut gathered = Gathered::new(alloc);
    for path in paths {
        let read = layers_at(alloc, tree, root, kind, path)?;
        gathered.add(alloc, path, read)?;
    }
    Ok(LayerList {
        list: gathered.list,
        notes: gathered.notes,
    })
}

// The places of a search for layers: the given folders alone, or as the variables say.
fn layer_places(
    alloc: Global,
    env: &EnvList,
    kind: LayerKind,
    only: Option<&[String]>,
) -> Result<Vec<Place>, NoMemory>
    ensures { IfOk result (λ places. map place_content places.items
        ≡ spec.places_of (option_map (λ folders. map string_bytes folders.now) only.entry) (search_of kind) env.now) }
{
    match only {
        Some(folders) => only_folders(alloc, folders),
        None => places_of(alloc, env, SearchKind::from(kind)),
    }
}

/// Finds the layers of a kind: in the given folders alone, and else in the folders and files that the variables say. Of
/// layers with one name the first is found.
///
/// A path that begins with `/` is asked of the tree below `root`; the paths of the answer are without it.
/// `TooMany` comes at the 4,097th manifest file.
#[tactic(auto, using(crate::proofs::Limits::no_limit), unfolding(crate::specs::Found::layer_paths, crate::specs::Found::layers_found))]
pub fn find_layers<T: Tree>(
    alloc: Global,
    tree: &mut T,
    env: &EnvList,
    root: &str,
    kind: LayerKind,
    only: Option<&[String]>,
) -> Result<LayerList, SearchError>
    ensures found { WhereTold (T.files tree.old) (λ files. IfOk result (λ layers. contents.layers_content layers
        ≡ layers_found files env.now root.now kind (option_map (λ folders. map string_bytes folders.now) only.entry))) }
    ensures too_many { WhereTold (T.files tree.old) (λ files. IfErr result (MeetsLimit
        (layer_paths files env.now root.now kind (option_map (λ folders. map string_bytes folders.now) only.entry)))) }
    ensures within { WhereTold (T.files tree.old) (λ files. OnOk result
        (length (layer_paths files env.now root.now kind (option_map (λ folders. map string_bytes folders.now) only.entry)) ≤ most_paths)) }
    ensures reasons { IfOk result (λ layers. AllOfFiles layers.notes.items) }
    ensures same { T.files tree.new ≡ T.files tree.old }
    ensures cause { HasSearchCause (T.faults tree.old) (T.faults tree.new) result }
{
    let places = layer_places(alloc, env, kind, only)?;
    let paths = paths_of(alloc, tree, root, &places)?;
    let layers = found_layers(alloc, tree, root, kind, &paths)?;
    Ok(layers)
}
