//! A manifest of layers.
//! Source: Khronos Vulkan-Loader, LoaderLayerInterface.md, the table of manifest fields.
ghost use Rattle.std.specs.Prelude.{◌≡◌, ◌≢◌, Ok, Err, IfOk, IfErr, map, not, option_map, string_bytes};
ghost use Rattle.serde_json.specs.Find.{as_str};
ghost use Rattle.serde_json.specs.View.{view};
ghost use Rattle.manifest_reader.specs.Contents.{variable_content, layer_content, layers_content};
ghost use Rattle.manifest_reader.specs.Reading as reading;
ghost use Rattle.manifest_reader.specs.Values as values;

use crate::checks::{first_fault, holds, is_device};
use crate::entries::{EnvPair, LayerEntry, LayerKind, Layers};
use crate::faults::ManifestFault;
use crate::files::{read_file, version_fault};
use crate::keys::Key;
use crate::rows::{Manifest, When, layer_file_rows, layer_rows};
use crate::values::{at, elements, first_member, text_at};
use serde_json::Value;
use std::alloc::{AllocError, Global};
use std::slice;

/// The entries of a file: those of `layers`, else that of `layer`.
#[tactic(auto, unfolding(crate::specs::Reading::entries_of))]
fn entries_of(file: &Value) -> &[Value]
    ensures { map view result.now ≡ reading.entries_of (view file.now) }
{
    match at(file, Key::Layers) {
        Some(layers) => elements(layers),
        None => match at(file, Key::Layer) {
            Some(layer) => slice::from_ref(layer),
            None => &[],
        },
    }
}

/// The first fault of some entries, in their order.
fn entries_fault(kind: LayerKind, entries: &[Value]) -> Option<ManifestFault>
    ensures { result ≡ reading.entries_fault kind (map view entries.now) }
{
    for entry in entries {
        let fault = first_fault(Manifest::Layer(kind), entry, layer_rows());
        if fault.is_some() {
            return fault;
        }
    }
    None
}

#[tactic(auto, unfolding(crate::specs::Reading::layers_fault))]
fn layers_fault(kind: LayerKind, file: &Value) -> Option<ManifestFault>
    ensures { result ≡ reading.layers_fault kind (view file.now) }
{
    version_fault(file)
        .or(first_fault(Manifest::Layer(kind), file, layer_file_rows()))
        .or(entries_fault(kind, entries_of(file)))
}

/// The value at a key that is read under a condition.
#[tactic(auto, unfolding(crate::specs::Reading::at_when))]
fn at_when(kind: LayerKind, when: When, key: Key, entry: &Value) -> Option<&Value>
    ensures { option_map (λ v. view v.now) result ≡ reading.at_when kind when key (view entry.now) }
{
    if holds(Manifest::Layer(kind), entry, when) {
        at(entry, key)
    } else {
        None
    }
}

#[tactic(auto, unfolding(crate::specs::Reading::text_of))]
fn copy_text(alloc: Global, value: &Value) -> Result<String, AllocError>
    ensures { IfOk result (λ text. string_bytes text ≡ reading.text_of (view value.now)) }
{
    String::from_str(alloc, value.as_str().unwrap_or(""))
}

fn copy_texts(alloc: Global, values: &[Value]) -> Result<Vec<String>, AllocError>
    ensures { IfOk result (λ texts. map string_bytes texts.items
        ≡ map reading.text_of (map view values.now)) }
{
    let mut texts = Vec::new(alloc);
    for value in values {
        texts.push(copy_text(alloc, value)?)?;
    }
    Ok(texts)
}

/// The texts of an array, and none where there is no array.
#[tactic(auto, unfolding(crate::specs::Reading::texts_of))]
fn texts_of(alloc: Global, value: Option<&Value>) -> Result<Vec<String>, AllocError>
    ensures { IfOk result (λ texts. map string_bytes texts.items
        ≡ reading.texts_of (option_map (λ v. view v.now) value.entry)) }
{
    match value {
        Some(value) => copy_texts(alloc, elements(value)),
        None => Ok(Vec::new(alloc)),
    }
}

fn library_of(alloc: Global, entry: &Value) -> Result<Option<String>, AllocError>
    ensures { IfOk result (λ library. option_map string_bytes library
        ≡ values.text_at Key.LibraryPath (view entry.now)) }
{
    match text_at(entry, Key::LibraryPath) {
        Some(path) => Ok(Some(String::from_str(alloc, path)?)),
        None => Ok(None),
    }
}

/// The first member of an object as a variable and its value.
#[tactic(auto, unfolding(crate::specs::Reading::variable_of))]
fn variable_of(alloc: Global, value: Option<&Value>) -> Result<Option<EnvPair>, AllocError>
    ensures { IfOk result (λ variable. option_map variable_content variable
        ≡ reading.variable_of (option_map (λ v. view v.now) value.entry)) }
{
    let Some(value) = value else { return Ok(None) };
    match first_member(value) {
        Some((name, text)) => Ok(Some(EnvPair {
            name: String::from_str(alloc, name.as_str())?,
            value: copy_text(alloc, text)?,
        })),
        None => Ok(None),
    }
}

#[tactic(auto, unfolding(crate::specs::Reading::layer_at))]
fn layer_at(alloc: Global, kind: LayerKind, entry: &Value) -> Result<LayerEntry, AllocError>
    ensures { IfOk result (λ layer. layer_content layer ≡ reading.layer_at kind (view entry.now)) }
{
    let enable = at_when(kind, When::Implicit, Key::EnableEnvironment, entry);
    let blacklist = at_when(kind, When::Override, Key::BlacklistedLayers, entry);
    let app_keys = at_when(kind, When::Override, Key::AppKeys, entry);
    let override_paths = at_when(kind, When::Override, Key::OverridePaths, entry);
    Ok(LayerEntry {
        name: String::from_str(alloc, text_at(entry, Key::Name).unwrap_or(""))?,
        library: library_of(alloc, entry)?,
        components: texts_of(alloc, at(entry, Key::ComponentLayers))?,
        disable: variable_of(alloc, at(entry, Key::DisableEnvironment))?,
        enable: variable_of(alloc, enable)?,
        blacklist: texts_of(alloc, blacklist)?,
        app_keys: texts_of(alloc, app_keys)?,
        override_paths: texts_of(alloc, override_paths)?,
    })
}

#[tactic(auto, unfolding(crate::specs::Reading::layers_at))]
fn layers_at(alloc: Global, kind: LayerKind, entries: &[Value]) -> Result<Layers, AllocError>
    ensures { IfOk result (λ layers. layers_content layers
        ≡ reading.layers_at kind (map view entries.now)) }
{
    let mut layers = Vec::new(alloc);
    let mut device_type = 0u64;
    for entry in entries {
        if is_device(entry) {
            device_type += 1;
        } else {
            layers.push(layer_at(alloc, kind, entry)?)?;
        }
    }
    Ok(Layers {
        entries: layers,
        device_type,
    })
}

/// Reads a manifest of layers.
///
/// The first fault in the order of the entries, and in each of the keys, is the answer. An entry of type `DEVICE` is counted and
/// left out; only its name and type are looked at. `NoMemory` comes where an allocation was refused, whatever the bytes are.
#[tactic(auto, using(crate::proofs::Memory::layers_of_is_of_bytes), unfolding(crate::specs::Reading::layers_of, crate::specs::Reading::layers_in))]
pub fn read_layers(alloc: Global, bytes: &[u8], kind: LayerKind) -> Result<Layers, ManifestFault>
    ensures ok { IfOk result (λ layers. reading.layers_of kind bytes.now ≡ Ok (layers_content layers)) }
    ensures err { IfErr result (λ fault. fault ≢ ManifestFault.NoMemory
        → reading.layers_of kind bytes.now ≡ Err fault) }
    ensures of_bytes { reading.layers_of kind bytes.now ≢ Err ManifestFault.NoMemory }
{
    let file = read_file(alloc, bytes)?;
    if let Some(fault) = layers_fault(kind, &file) {
        return Err(fault);
    }
    Ok(layers_at(alloc, kind, entries_of(&file))?)
}
