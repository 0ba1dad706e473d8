//! The keys that are read in manifests.
//! Source: Khronos Vulkan-Loader, LoaderDriverInterface.md and LoaderLayerInterface.md, the tables of manifest fields.
ghost use Rattle.std.specs.Prelude.{◌≡◌};
ghost use Rattle.manifest_reader.specs.Keys.{spelled};

use std::fmt;

/// A key of a driver's or a layer's manifest.
#[derive(Clone, Copy, Debug, PartialEq, Eq)]
pub enum Key {
    Icd,
    LibraryPath,
    ApiVersion,
    LibraryArch,
    IsPortabilityDriver,
    Layers,
    Layer,
    Name,
    LayerType,
    ComponentLayers,
    ImplementationVersion,
    Description,
    DisableEnvironment,
    EnableEnvironment,
    BlacklistedLayers,
    AppKeys,
    OverridePaths,
}

impl Key {
    /// The key as manifests spell it.
    #[tactic(auto, unfolding(crate::specs::Keys::spelled))]
    pub fn as_str(self) -> &'static str
        ensures { result.now ≡ spelled self }
    {
        match self {
            Key::Icd => "ICD",
            Key::LibraryPath => "library_path",
            Key::ApiVersion => "api_version",
            Key::LibraryArch => "library_arch",
            Key::IsPortabilityDriver => "is_portability_driver",
            Key::Layers => "layers",
            Key::Layer => "layer",
            Key::Name => "name",
            Key::LayerType => "type",
            Key::ComponentLayers => "component_layers",
            Key::ImplementationVersion => "implementation_version",
            Key::Description => "description",
            Key::DisableEnvironment => "disable_environment",
            Key::EnableEnvironment => "enable_environment",
            Key::BlacklistedLayers => "blacklisted_layers",
            Key::AppKeys => "app_keys",
            Key::OverridePaths => "override_paths",
        }
    }
}

impl fmt::Display for Key {
    ghost use Rattle.std.specs.Prelude.{Some};

    ghost output = { λ key. Some (spelled key) };

    fn fmt<W: fmt::Write>(&self, f: &mut fmt::Formatter<W>) -> fmt::Result {
        f.write_str(self.as_str())
    }
}
