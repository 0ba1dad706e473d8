//! What a chain is built with.
use crate::Setup;
use crate::expanded::Expanded;
use crate::switches::Filters;

/// A setup, with the filters and the layers by name that were read of it.
#[derive(Drop)]
pub(crate) struct Builder<'a> {
    pub(crate) setup: &'a Setup,
    pub(crate) filters: Filters,
    pub(crate) names: Expanded<'a>,
}
