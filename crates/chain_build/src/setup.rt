//! What a chain is built of.
//! Source: Khronos Vulkan-Loader, LoaderLayerInterface.md and LoaderDriverInterface.md.
use env_filters::EnvList;
use layer_search::{Drivers, FoundLayer, LayerList};

/// The drivers, layers and variables of a run, and the path of the executable.
pub struct Setup {
    pub drivers: Drivers,
    pub explicit: LayerList,
    /// The implicit layers, without an override that isn't active.
    pub implicit: LayerList,
    /// The override that is active, which stands among the implicit layers too.
    pub over: Option<FoundLayer>,
    pub env: EnvList,
    pub exe: String,
}

impl Drop for Setup {
    fn drop(self) {
        let Setup {
            drivers: _drivers,
            explicit: _explicit,
            implicit: _implicit,
            over: _over,
            env: _env,
            exe: _exe,
        } = self;
    }
}
