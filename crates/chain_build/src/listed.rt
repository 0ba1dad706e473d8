//! Layers with their kinds.
use env_filters::LayerKindBit;
use layer_search::FoundLayer;

/// How many levels of meta-layers may stand in one another.
pub const MOST_LEVELS: usize = 8;

/// A layer that was found, and whether it is an explicit or an implicit one.
#[derive(Clone, Copy)]
pub(crate) struct Listed<'a> {
    pub(crate) kind: LayerKindBit,
    pub(crate) layer: &'a FoundLayer,
}
