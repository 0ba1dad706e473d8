//! What manifests say, once they are read.
//! Source: Khronos Vulkan-Loader, LoaderDriverInterface.md and LoaderLayerInterface.md, the tables of manifest fields.

/// A variable of the environment and a value.
#[derive(Debug, PartialEq, Eq)]
pub struct EnvPair {
    pub name: String,
    pub value: String,
}

impl Drop for EnvPair {
    fn drop(self) {
        let EnvPair {
            name: _name,
            value: _value,
        } = self;
    }
}

/// A driver.
#[derive(Debug, PartialEq, Eq)]
pub struct DriverEntry {
    /// Where the shared library is, as the manifest spells it.
    pub library: String,
    /// Whether the driver says that it has the portability subset alone.
    pub portability: bool,
}

impl Drop for DriverEntry {
    fn drop(self) {
        let DriverEntry {
            library: _library,
            portability: _portability,
        } = self;
    }
}

/// A layer.
#[derive(Debug, PartialEq, Eq)]
pub struct LayerEntry {
    pub name: String,
    /// Where the shared library is, as the manifest spells it; a meta-layer has none.
    pub library: Option<String>,
    /// The names of a meta-layer's components.
    pub components: Vec<String>,
    /// The variable that turns the layer off; an implicit layer has one.
    pub disable: Option<EnvPair>,
    /// The variable and value that turn an implicit layer on.
    pub enable: Option<EnvPair>,
    /// The names of layers that the override layer turns off.
    pub blacklist: Vec<String>,
    /// The executables for which the override layer is in force; for all where there are none.
    pub app_keys: Vec<String>,
    /// The folders in which the override layer has explicit layers searched.
    pub override_paths: Vec<String>,
}

impl Drop for LayerEntry {
    fn drop(self) {
        let LayerEntry {
            name: _name,
            library: _library,
            components: _components,
            disable: _disable,
            enable: _enable,
            blacklist: _blacklist,
            app_keys: _app_keys,
            override_paths: _override_paths,
        } = self;
    }
}

/// The layers of one manifest.
#[derive(Debug, Drop, PartialEq, Eq)]
pub struct Layers {
    pub entries: Vec<LayerEntry>,
    /// How many entries of type `DEVICE` were skipped.
    pub device_type: u64,
}

/// How a layer comes into a chain: by its name, or by itself.
#[derive(Clone, Copy, Debug, PartialEq, Eq)]
pub enum LayerKind {
    Explicit,
    Implicit,
}
