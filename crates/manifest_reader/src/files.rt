//! The file of a manifest: one JSON object with the version of its format.
//! Source: RFC 8259, as `serde_json` reads it; Khronos Vulkan-Loader, LoaderDriverInterface.md and LoaderLayerInterface.md.
ghost use Rattle.std.specs.Prelude.{◌≡◌, ◌⊎◌, Some, None, IfOk, IfErr};
ghost use Rattle.serde_json.specs.View.{view};
ghost use Rattle.manifest_reader.specs.Reading as reading;

use crate::checks::is_text;
use crate::faults::ManifestFault;
use crate::rows::Form;
use serde_json::Value;
use std::alloc::Global;

/// Reads the object that the bytes are.
#[tactic(auto, unfolding(crate::specs::Reading::file_of))]
pub(crate) fn read_file(alloc: Global, bytes: &[u8]) -> Result<Value, ManifestFault>
    ensures ok { IfOk result (λ file. reading.file_of bytes.now ≡ Some (view file)) }
    ensures err { IfErr result (λ fault. (fault ≡ ManifestFault.NoMemory)
        ⊎ ((fault ≡ ManifestFault.NotJson) × (reading.file_of bytes.now ≡ None))) }
{
    match Value::from_slice(alloc, bytes) {
        Ok(value) if value.is_object() => Ok(value),
        Ok(_) => Err(ManifestFault::NotJson),
        Err(error) if error.is_memory() => Err(ManifestFault::NoMemory),
        Err(_) => Err(ManifestFault::NotJson),
    }
}

/// The fault of a file's format version.
#[tactic(auto, unfolding(crate::specs::Reading::version_fault, crate::specs::Reading::format_fault))]
pub(crate) fn version_fault(file: &Value) -> Option<ManifestFault>
    ensures { result ≡ reading.version_fault (view file.now) }
{
    match file.get("file_format_version") {
        None => Some(ManifestFault::NoVersion),
        Some(version) if is_text(Form::Version, version) => None,
        Some(_) => Some(ManifestFault::BadVersion),
    }
}
