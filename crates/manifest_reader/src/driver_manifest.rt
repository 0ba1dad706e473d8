//! A driver's manifest.
//! Source: Khronos Vulkan-Loader, LoaderDriverInterface.md, the table of manifest fields.
ghost use Rattle.std.specs.Prelude.{◌≡◌, ◌≢◌, Ok, Err, IfOk, IfErr, false, option_map, option_and_then, unwrap_or};
ghost use Rattle.serde_json.specs.Find.{as_bool};
ghost use Rattle.serde_json.specs.View.{view};
ghost use Rattle.manifest_reader.specs.Contents.{driver_content};
ghost use Rattle.manifest_reader.specs.Reading as reading;
ghost use Rattle.manifest_reader.specs.Values as values;

use crate::checks::first_fault;
use crate::entries::DriverEntry;
use crate::faults::ManifestFault;
use crate::files::{read_file, version_fault};
use crate::keys::Key;
use crate::rows::{Manifest, driver_file_rows, driver_rows};
use crate::values::{at, says, text_at};
use serde_json::Value;
use std::alloc::{AllocError, Global};

#[tactic(auto, unfolding(crate::specs::Reading::arch_fault))]
fn arch_fault(icd: &Value) -> Option<ManifestFault>
    ensures { result ≡ reading.arch_fault (view icd.now) }
{
    if says(icd, Key::LibraryArch, "32") {
        Some(ManifestFault::OtherArch)
    } else {
        None
    }
}

#[tactic(auto, unfolding(crate::specs::Reading::icd_fault))]
fn icd_fault(icd: Option<&Value>) -> Option<ManifestFault>
    ensures { result ≡ reading.icd_fault (option_map (λ v. view v.now) icd.entry) }
{
    match icd {
        Some(icd) => first_fault(Manifest::Driver, icd, driver_rows()).or(arch_fault(icd)),
        None => None,
    }
}

#[tactic(auto, unfolding(crate::specs::Reading::driver_fault))]
fn driver_fault(file: &Value) -> Option<ManifestFault>
    ensures { result ≡ reading.driver_fault (view file.now) }
{
    version_fault(file)
        .or(first_fault(Manifest::Driver, file, driver_file_rows()))
        .or(icd_fault(at(file, Key::Icd)))
}

fn flag_at(object: &Value, key: Key) -> bool
    ensures { result ≡ unwrap_or (option_and_then as_bool (values.at key (view object.now))) false }
{
    match at(object, key) {
        Some(flag) => flag.as_bool().unwrap_or(false),
        None => false,
    }
}

#[tactic(auto, unfolding(crate::specs::Reading::driver_at))]
fn driver_at(alloc: Global, icd: Option<&Value>) -> Result<DriverEntry, AllocError>
    ensures { IfOk result (λ entry. driver_content entry
        ≡ reading.driver_at (option_map (λ v. view v.now) icd.entry)) }
{
    let (library, portability) = match icd {
        Some(icd) => (
            text_at(icd, Key::LibraryPath).unwrap_or(""),
            flag_at(icd, Key::IsPortabilityDriver),
        ),
        None => ("", false),
    };
    Ok(DriverEntry {
        library: String::from_str(alloc, library)?,
        portability,
    })
}

/// Reads a driver's manifest.
///
/// The first fault in the order of the keys is the answer. A driver for 32 bits is `OtherArch` where it has no other fault.
/// `NoMemory` comes where an allocation was refused, whatever the bytes are.
#[tactic(auto, using(crate::proofs::Memory::driver_of_is_of_bytes), unfolding(crate::specs::Reading::driver_of, crate::specs::Reading::driver_in))]
pub fn read_driver(alloc: Global, bytes: &[u8]) -> Result<DriverEntry, ManifestFault>
    ensures ok { IfOk result (λ entry. reading.driver_of bytes.now ≡ Ok (driver_content entry)) }
    ensures err { IfErr result (λ fault. fault ≢ ManifestFault.NoMemory
        → reading.driver_of bytes.now ≡ Err fault) }
    ensures of_bytes { reading.driver_of bytes.now ≢ Err ManifestFault.NoMemory }
{
    let file = read_file(alloc, bytes)?;
    if let Some(fault) = driver_fault(&file) {
        return Err(fault);
    }
    Ok(driver_at(alloc, at(&file, Key::Icd))?)
}
