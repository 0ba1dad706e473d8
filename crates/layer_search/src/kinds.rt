//! The kinds of a search.
//! Source: Khronos Vulkan-Loader, LoaderDriverInterface.md and LoaderLayerInterface.md, discovery on Linux.
ghost use Rattle.std.specs.Prelude.{◌≡◌};
ghost use Rattle.layer_search.specs.Kinds.{search_of};

use manifest_reader::LayerKind;

/// What is searched for.
#[derive(Clone, Copy, Debug, PartialEq, Eq)]
pub enum SearchKind {
    Driver,
    Explicit,
    Implicit,
}

impl From<LayerKind> for SearchKind {
    ghost from_gives = { λ kind search. search ≡ search_of kind };

    fn from(kind: LayerKind) -> SearchKind {
        match kind {
            LayerKind::Explicit => SearchKind::Explicit,
            LayerKind::Implicit => SearchKind::Implicit,
        }
    }
}
