//! Why a manifest is refused.
//! Source: Khronos Vulkan-Loader, LoaderDriverInterface.md and LoaderLayerInterface.md, the tables of manifest fields.
ghost use Rattle.manifest_reader.specs.declared.faults.ManifestFault.TheVariants.{NoMemory};
ghost use Rattle.std.specs.Prelude.{◌≡◌};

use crate::keys::Key;
use std::alloc::AllocError;
use thiserror::Error;

/// The first fault of a manifest.
#[derive(Clone, Copy, Debug, PartialEq, Eq, Error)]
pub enum ManifestFault {
    /// The bytes are no JSON text (RFC 8259), or its value is no object.
    #[error("no JSON object")]
    NotJson,
    /// There is no `file_format_version`.
    #[error("no file format version")]
    NoVersion,
    /// The `file_format_version` is no version.
    #[error("bad file format version")]
    BadVersion,
    /// A needed key isn't there.
    #[error("`{key}` is missing")]
    Missing { key: Key },
    /// The value at a key is none that may stand there.
    #[error("`{key}` has a wrong value")]
    WrongKind { key: Key },
    /// The driver is built for 32 bits, and has no other fault.
    #[error("another architecture")]
    OtherArch,
    /// An allocation was refused.
    #[error("out of memory")]
    NoMemory,
}

impl From<AllocError> for ManifestFault {
    ghost from_gives = { λ _ fault. fault ≡ NoMemory };

    fn from(_refused: AllocError) -> ManifestFault {
        ManifestFault::NoMemory
    }
}
