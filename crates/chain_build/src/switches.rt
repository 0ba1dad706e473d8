//! Which layers are off, and which implicit ones are on.
//! Source: Khronos Vulkan-Loader, LoaderLayerInterface.md, implicit layers, layer filtering.
ghost use Rattle.std.specs.Prelude.{◌≡◌, IfOk, option_map};
ghost use Rattle.chain_build.specs.Holding.{filter_set};
ghost use Rattle.chain_build.specs.Switches as spec;
ghost use Rattle.manifest_reader.specs.Contents.{layer_content, variable_content};

use env_filters::{EnvList, FilterList, LayerKindBit, NoMemory};
use manifest_reader::{EnvPair, LayerEntry};
use std::alloc::Global;

/// The globs that disable, enable and allow layers.
#[derive(Drop)]
pub(crate) struct Filters {
    pub(crate) disable: FilterList,
    pub(crate) enable: FilterList,
    pub(crate) allow: FilterList,
}

// The globs of a variable, and none where it isn't set.
fn globs_in(alloc: Global, env: &EnvList, name: &str) -> Result<FilterList, NoMemory>
    ensures { IfOk result (λ globs. globs ≡ spec.globs_in env.now name.now) }
{
    match env.get(name) {
        Some(value) => FilterList::parse(alloc, value),
        None => FilterList::parse(alloc, ""),
    }
}

/// The globs of the variables.
#[tactic(auto, unfolding(crate::specs::Switches::filters_of))]
pub(crate) fn filters_of(alloc: Global, env: &EnvList) -> Result<Filters, NoMemory>
    ensures { IfOk result (λ filters. filter_set filters ≡ spec.filters_of env.now) }
{
    Ok(Filters {
        disable: globs_in(alloc, env, "VK_LOADER_LAYERS_DISABLE")?,
        enable: globs_in(alloc, env, "VK_LOADER_LAYERS_ENABLE")?,
        allow: globs_in(alloc, env, "VK_LOADER_LAYERS_ALLOW")?,
    })
}

/// Whether a layer is disabled: the disable list hits it, and neither the enable list nor the allow list does.
pub(crate) fn is_disabled(filters: &Filters, kind: LayerKindBit, name: &str) -> bool
    ensures { result ≡ spec.is_disabled (filter_set filters.now) kind name.now }
{
    filters.disable.hits_disable(name, kind)
        && !(filters.enable.hits(name) || filters.allow.hits(name))
}

// Whether the variable that turns a layer off is set.
fn is_switched_off(env: &EnvList, variable: &Option<EnvPair>) -> bool
    ensures { result ≡ spec.is_switched_off env.now (option_map variable_content variable.now) }
{
    match variable {
        Some(variable) => env.get(variable.name.as_str()).is_some(),
        None => false,
    }
}

// Whether the variable that turns a layer on has its value; a layer without one needs none.
fn is_switched_on(env: &EnvList, variable: &Option<EnvPair>) -> bool
    ensures { result ≡ spec.is_switched_on env.now (option_map variable_content variable.now) }
{
    match variable {
        Some(variable) => match env.get(variable.name.as_str()) {
            Some(value) => value == variable.value.as_str(),
            None => false,
        },
        None => true,
    }
}

/// Whether an implicit layer is on, by filters that were read of the variables.
pub(crate) fn is_on(filters: &Filters, env: &EnvList, layer: &LayerEntry) -> bool
    ensures { result ≡ spec.is_on (filter_set filters.now) env.now (layer_content layer.now) }
{
    let name = layer.name.as_str();
    !is_disabled(filters, LayerKindBit::Implicit, name)
        && !is_switched_off(env, &layer.disable)
        && (is_switched_on(env, &layer.enable) || filters.enable.hits(name))
}

/// Whether an implicit layer is on: it isn't disabled, the variable of its `disable_environment` isn't set (an empty value is
/// a value), and the variable of its `enable_environment` has just its value, or `VK_LOADER_LAYERS_ENABLE` hits its name. A
/// layer is disabled where `VK_LOADER_LAYERS_DISABLE` hits it and neither `VK_LOADER_LAYERS_ENABLE` nor
/// `VK_LOADER_LAYERS_ALLOW` does.
pub fn implicit_on(alloc: Global, layer: &LayerEntry, env: &EnvList) -> Result<bool, NoMemory>
    ensures { IfOk result (λ on. on ≡ spec.is_on (spec.filters_of env.now) env.now (layer_content layer.now)) }
{
    let filters = filters_of(alloc, env)?;
    Ok(is_on(&filters, env, layer))
}
