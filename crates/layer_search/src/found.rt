//! What a search finds.
//! Source: Khronos Vulkan-Loader, LoaderDriverInterface.md and LoaderLayerInterface.md; the notes are this project's own.
use manifest_reader::{DriverEntry, LayerEntry, ManifestFault};

/// Why something was left out.
#[derive(Clone, Copy, Debug, PartialEq, Eq)]
pub enum NoteKind {
    /// The manifest has a fault, which is never `NoMemory`.
    Manifest(ManifestFault),
    /// There is no file at the path.
    Absent,
    /// The file has more than 1,048,576 bytes.
    TooLarge,
    /// An entry is a layer of type `DEVICE`.
    DeviceType,
}

/// That something was left out, and in which file. The path is without the root.
#[derive(Debug, PartialEq, Eq)]
pub struct Note {
    pub kind: NoteKind,
    pub path: String,
}

impl Drop for Note {
    fn drop(self) {
        let Note {
            kind: _kind,
            path: _path,
        } = self;
    }
}

/// A driver, and the path of its manifest without the root.
#[derive(Debug, PartialEq, Eq)]
pub struct FoundDriver {
    pub path: String,
    pub entry: DriverEntry,
}

impl Drop for FoundDriver {
    fn drop(self) {
        let FoundDriver {
            path: _path,
            entry: _entry,
        } = self;
    }
}

/// A layer, and the path of its manifest without the root.
#[derive(Debug, PartialEq, Eq)]
pub struct FoundLayer {
    pub path: String,
    pub entry: LayerEntry,
}

impl Drop for FoundLayer {
    fn drop(self) {
        let FoundLayer {
            path: _path,
            entry: _entry,
        } = self;
    }
}

/// The drivers of a search, and what was left out, each in search order.
#[derive(Debug, PartialEq, Eq)]
pub struct Drivers {
    pub list: Vec<FoundDriver>,
    pub notes: Vec<Note>,
}

impl Drop for Drivers {
    fn drop(self) {
        let Drivers {
            list: _list,
            notes: _notes,
        } = self;
    }
}

/// The layers of a search, and what was left out, each in search order.
#[derive(Debug, PartialEq, Eq)]
pub struct LayerList {
    pub list: Vec<FoundLayer>,
    pub notes: Vec<Note>,
}

impl Drop for LayerList {
    fn drop(self) {
        let LayerList {
            list: _list,
            notes: _notes,
        } = self;
    }
}
