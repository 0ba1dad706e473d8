//! Copies of what was found.
ghost use Rattle.std.specs.Prelude.{◌≡◌, IfOk, map, option_map, string_bytes};
ghost use Rattle.layer_search.specs.Contents.{found_driver, found_layer};
ghost use Rattle.manifest_reader.specs.Contents.{driver_content, layer_content, variable_content};

use layer_search::{FoundDriver, FoundLayer};
use manifest_reader::{DriverEntry, EnvPair, LayerEntry};
use std::alloc::{AllocError, Global};

fn copy_text(alloc: Global, text: &String) -> Result<String, AllocError>
    ensures { IfOk result (λ copy. string_bytes copy ≡ string_bytes text.now) }
{
    String::from_str(alloc, text.as_str())
}

fn copy_texts(alloc: Global, texts: &[String]) -> Result<Vec<String>, AllocError>
    ensures { IfOk result (λ copies. map string_bytes copies.items ≡ map string_bytes texts.now) }
{
    let mut copies = Vec::new(alloc);
    for text in texts {
        copies.push(copy_text(alloc, text)?)?;
    }
    Ok(copies)
}

fn copy_library(alloc: Global, library: &Option<String>) -> Result<Option<String>, AllocError>
    ensures { IfOk result (λ copy. option_map string_bytes copy ≡ option_map string_bytes library.now) }
{
    match library {
        Some(library) => Ok(Some(copy_text(alloc, library)?)),
        None => Ok(None),
    }
}

fn copy_variable(alloc: Global, variable: &Option<EnvPair>) -> Result<Option<EnvPair>, AllocError>
    ensures { IfOk result (λ copy. option_map variable_content copy ≡ option_map variable_content variable.now) }
{
    match variable {
        Some(variable) => Ok(Some(EnvPair {
            name: copy_text(alloc, &variable.name)?,
            value: copy_text(alloc, &variable.value)?,
        })),
        None => Ok(None),
    }
}

fn copy_entry(alloc: Global, entry: &LayerEntry) -> Result<LayerEntry, AllocError>
    ensures { IfOk result (λ copy. layer_content copy ≡ layer_content entry.now) }
{
    Ok(LayerEntry {
        name: copy_text(alloc, &entry.name)?,
        library: copy_library(alloc, &entry.library)?,
        components: copy_texts(alloc, &entry.components)?,
        disable: copy_variable(alloc, &entry.disable)?,
        enable: copy_variable(alloc, &entry.enable)?,
        blacklist: copy_texts(alloc, &entry.blacklist)?,
        app_keys: copy_texts(alloc, &entry.app_keys)?,
        override_paths: copy_texts(alloc, &entry.override_paths)?,
    })
}

pub(crate) fn copy_layer(alloc: Global, layer: &FoundLayer) -> Result<FoundLayer, AllocError>
    ensures { IfOk result (λ copy. found_layer copy ≡ found_layer layer.now) }
{
    Ok(FoundLayer {
        path: copy_text(alloc, &layer.path)?,
        entry: copy_entry(alloc, &layer.entry)?,
    })
}

fn copy_driver(alloc: Global, driver: &FoundDriver) -> Result<FoundDriver, AllocError>
    ensures { IfOk result (λ copy. found_driver copy ≡ found_driver driver.now) }
{
    Ok(FoundDriver {
        path: copy_text(alloc, &driver.path)?,
        entry: DriverEntry {
            library: copy_text(alloc, &driver.entry.library)?,
            portability: driver.entry.portability,
        },
    })
}

pub(crate) fn copy_drivers(
    alloc: Global,
    drivers: &[FoundDriver],
) -> Result<Vec<FoundDriver>, AllocError>
    ensures { IfOk result (λ copies. map found_driver copies.items ≡ map found_driver drivers.now) }
{
    let mut copies = Vec::new(alloc);
    for driver in drivers {
        copies.push(copy_driver(alloc, driver)?)?;
    }
    Ok(copies)
}
