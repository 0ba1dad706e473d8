//! What manifests ask, key by key, in the order in which the keys are tried.
//! Source: Khronos Vulkan-Loader, LoaderDriverInterface.md and LoaderLayerInterface.md, the tables of manifest fields.
ghost use Rattle.std.specs.Prelude.{◌≡◌};
ghost use Rattle.manifest_reader.specs.Rows as tables;

use crate::entries::LayerKind;
use crate::keys::Key;
use Kind::{Boolean, Components, Object, Objects, Text, Texts, Variable};
use When::{Always, Implicit, Never, Override, UnlessDevice, Without};

/// What an object is part of.
#[derive(Clone, Copy)]
pub(crate) enum Manifest {
    Driver,
    Layer(LayerKind),
}

/// When a key is read, or needed.
#[derive(Clone, Copy)]
pub(crate) enum When {
    Always,
    Never,
    /// Where the object doesn't have this key.
    Without(Key),
    /// In an entry of another type than `DEVICE`.
    UnlessDevice,
    /// In an implicit layer's entry of another type than `DEVICE`.
    Implicit,
    /// In the override's entry: that of an implicit meta-layer named `VK_LAYER_LUNARG_override`.
    Override,
}

/// What a text has to be.
#[derive(Clone, Copy)]
pub(crate) enum Form {
    Any,
    Plain,
    Filled,
    Version,
    Name,
    LayerType,
    Architecture,
}

/// What the value at a key has to be.
#[derive(Clone, Copy)]
pub(crate) enum Kind {
    Boolean,
    Object,
    Objects,
    Text(Form),
    Texts,
    /// Texts, in an entry that has no library.
    Components,
    /// An object whose first member by the byte order of keys is a text.
    Variable,
}

/// One line of a table.
#[derive(Clone, Copy)]
pub(crate) struct Row {
    pub key: Key,
    pub read: When,
    /// When the key has to be there, where it is read.
    pub needed: When,
    pub kind: Kind,
}

// One line of a table on one line of the text.
macro_rules! row {
    ($key:ident, $read:expr, $needed:expr, $kind:expr) => {
        Row {
            key: Key::$key,
            read: $read,
            needed: $needed,
            kind: $kind,
        }
    };
}

static DRIVER_FILE_ROWS: [Row; 1] = [row!(Icd, Always, Always, Object)];

static DRIVER_ROWS: [Row; 4] = [
    row!(LibraryPath, Always, Always, Text(Form::Filled)),
    row!(ApiVersion, Always, Always, Text(Form::Version)),
    row!(LibraryArch, Always, Never, Text(Form::Architecture)),
    row!(IsPortabilityDriver, Always, Never, Boolean),
];

static LAYER_FILE_ROWS: [Row; 2] = [
    row!(Layers, Always, Never, Objects),
    row!(Layer, Without(Key::Layers), Always, Object),
];

static LAYER_ROWS: [Row; 12] = [
    row!(Name, Always, Always, Text(Form::Name)),
    row!(LayerType, Always, Always, Text(Form::LayerType)),
    row!(
        LibraryPath,
        UnlessDevice,
        Without(Key::ComponentLayers),
        Text(Form::Filled)
    ),
    row!(ComponentLayers, UnlessDevice, Never, Components),
    row!(ApiVersion, UnlessDevice, Always, Text(Form::Version)),
    row!(
        ImplementationVersion,
        UnlessDevice,
        Always,
        Text(Form::Plain)
    ),
    row!(Description, UnlessDevice, Always, Text(Form::Any)),
    row!(DisableEnvironment, UnlessDevice, Implicit, Variable),
    row!(EnableEnvironment, Implicit, Never, Variable),
    row!(BlacklistedLayers, Override, Never, Texts),
    row!(AppKeys, Override, Never, Texts),
    row!(OverridePaths, Override, Never, Texts),
];

/// What the file of a driver has to hold.
#[tactic(auto, unfolding(crate::specs::Rows::driver_file_rows))]
pub(crate) fn driver_file_rows() -> &'static [Row]
    ensures { result.now ≡ tables.driver_file_rows }
{
    &DRIVER_FILE_ROWS
}

/// What the `ICD` of that file has to hold.
#[tactic(auto, unfolding(crate::specs::Rows::driver_rows))]
pub(crate) fn driver_rows() -> &'static [Row]
    ensures { result.now ≡ tables.driver_rows }
{
    &DRIVER_ROWS
}

/// What the file of layers has to hold.
#[tactic(auto, unfolding(crate::specs::Rows::layer_file_rows))]
pub(crate) fn layer_file_rows() -> &'static [Row]
    ensures { result.now ≡ tables.layer_file_rows }
{
    &LAYER_FILE_ROWS
}

/// What an entry of that file has to hold.
#[tactic(auto, unfolding(crate::specs::Rows::layer_rows))]
pub(crate) fn layer_rows() -> &'static [Row]
    ensures { result.now ≡ tables.layer_rows }
{
    &LAYER_ROWS
}
