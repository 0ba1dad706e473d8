//! The pieces of a chain: what the implicit layers, the environment and the application give.
//! Source: Khronos Vulkan-Loader, LoaderLayerInterface.md, implicit and explicit layers, meta-layers, the override, the filters.
ghost use Rattle.std.specs.Prelude.{◌≡◌, [], ◌∷◌, ◌++◌, IfOk, List, ℕ, map, filter, option_map, string_bytes};
ghost use Rattle.std.specs.List.{flat_map, list_any};
ghost use Rattle.std.specs.Str.{bytes_eq};
ghost use Rattle.chain_build.specs.Chain as spec;
ghost use Rattle.chain_build.specs.Expanding.{ListedLayer, listed};
ghost use Rattle.chain_build.specs.Holding.{listed_layer, texts_of};
ghost use Rattle.chain_build.specs.Knowing.{IsReady};
ghost use Rattle.chain_build.specs.Override as override_spec;
ghost use Rattle.chain_build.specs.Setup.{setup_content};
ghost use Rattle.layer_search.specs.Contents.{found_layer};

use crate::Setup;
use crate::builder::Builder;
use crate::by_name::ByName;
use crate::expanding::expand_layer;
use crate::expansions::{expand_name, expanded};
use crate::listed::Listed;
use crate::switches::{filters_of, is_disabled, is_on};
use env_filters::{LayerKindBit, NoMemory};
use layer_search::FoundLayer;
use std::alloc::{AllocError, Global};

/// Whether an implicit layer is the override: a meta-layer of its name.
pub(crate) fn is_override(layer: &FoundLayer) -> bool
    ensures { result ≡ override_spec.is_override (found_layer layer.now) }
{
    layer.entry.name.as_str() == "VK_LAYER_LUNARG_override" && layer.entry.library.is_none()
}

// Whether a text is another.
fn is_text(text: &String, other: &str) -> bool
    ensures { result ≡ bytes_eq (string_bytes text.now) other.now }
{
    text.as_str() == other
}

// Whether one of some texts is another.
fn is_one(texts: &[String], text: &str) -> bool
    ensures { result ≡ list_any (λ t. bytes_eq (string_bytes t) text.now) texts.now }
{
    texts.iter().any(|t| is_text(t, text))
}

/// Whether a text stands among others.
pub(crate) fn holds(texts: &[String], text: &str) -> bool
    ensures { result ≡ list_any (λ t. bytes_eq t text.now) (map string_bytes texts.now) }
{
    is_one(texts, text)
}

// Whether the override's blacklist has a name.
fn is_listed(over: &Option<FoundLayer>, name: &str) -> bool
    ensures { result ≡ list_any (λ n. bytes_eq n name.now) (spec.blacklist (option_map found_layer over.now)) }
{
    match over {
        Some(over) => holds(&over.entry.blacklist, name),
        None => false,
    }
}

// Whether an explicit layer is named by the blacklist.
fn is_blacklisted(setup: &Setup, listed: &Listed) -> bool
    ensures { result ≡ spec.is_blacklisted (spec.blacklist (setup_content setup.now).over) listed.now.kind (listed_layer listed.now).layer.entry.name }
{
    match listed.kind {
        LayerKindBit::Explicit => is_listed(&setup.over, listed.layer.entry.name.as_str()),
        LayerKindBit::Implicit => false,
    }
}

impl<'a> Builder<'a> {
    pub(crate) fn new(alloc: Global, setup: &'a Setup) -> Result<Builder<'a>, NoMemory>
        ensures ready { IfOk result IsReady }
        ensures setup { IfOk result (λ builder. builder.setup.now ≡ setup.now) }
    {
        let filters = filters_of(alloc, &setup.env)?;
        let names = expanded(alloc, setup)?;
        Ok(Builder {
            setup,
            filters,
            names,
        })
    }

    // Whether a layer is off: blacklisted or disabled.
    fn is_off(&self, listed: &Listed) -> bool
        requires { IsReady self.now }
        ensures { result ≡ spec.is_off (setup_content self.now.setup.now) (listed_layer listed.now) }
    {
        let name = listed.layer.entry.name.as_str();
        is_blacklisted(self.setup, listed) || is_disabled(&self.filters, listed.kind, name)
    }

    // Adds a layer, unless it is off or its name is there.
    fn add(&self, chain: ByName<'a>, listed: Listed<'a>) -> Result<ByName<'a>, AllocError>
        requires { IsReady self.now }
        ensures { IfOk result (λ new. (met : List ListedLayer) → map listed_layer chain.entry.layers.items ≡ spec.kept_layers (setup_content self.now.setup.now) met
            → map listed_layer new.layers.items ≡ spec.kept_layers (setup_content self.now.setup.now) (met ++ listed_layer listed.entry ∷ [])) }
    {
        if self.is_off(&listed) {
            return Ok(chain);
        }
        let new = chain.add(listed)?;
        Ok(new)
    }

    // Adds the layer of a name, where there is one.
    fn add_found(&self, chain: ByName<'a>, name: &str) -> Result<ByName<'a>, AllocError>
        requires { IsReady self.now }
        ensures { IfOk result (λ new. (met : List ListedLayer) → map listed_layer chain.entry.layers.items ≡ spec.kept_layers (setup_content self.now.setup.now) met
            → map listed_layer new.layers.items ≡ spec.kept_layers (setup_content self.now.setup.now) (met ++ spec.layers_of (setup_content self.now.setup.now) (name.now ∷ []))) }
    {
        match self.names.known.place_of(name) {
            Some(place) => {
                let new = self.add(chain, self.names.known.layers[place])?;
                Ok(new)
            }
            None => Ok(chain),
        }
    }

    // Adds the layers of names.
    fn add_names(&self, mut chain: ByName<'a>, names: &[&str]) -> Result<ByName<'a>, AllocError>
        requires { IsReady self.now }
        ensures { IfOk result (λ new. (met : List ListedLayer) → map listed_layer chain.entry.layers.items ≡ spec.kept_layers (setup_content self.now.setup.now) met
            → map listed_layer new.layers.items ≡ spec.kept_layers (setup_content self.now.setup.now) (met ++ spec.layers_of (setup_content self.now.setup.now) (texts_of names.now))) }
    {
        for name in names {
            chain = self.add_found(chain, *name)?;
        }
        Ok(chain)
    }

    /// Whether no layer that can be used has the name.
    pub(crate) fn is_missing(&self, alloc: Global, name: &str) -> Result<bool, AllocError>
        requires { IsReady self.now }
        ensures { IfOk result (λ missing. missing ≡ spec.is_missing (setup_content self.now.setup.now) name.now) }
    {
        let plain = expand_name(alloc, &self.names, name)?;
        Ok(plain.is_none())
    }

    // Whether the layer of a name is off, where there is one.
    fn is_found_off(&self, name: &str) -> bool
        requires { IsReady self.now }
        ensures { result ≡ spec.is_found_off (setup_content self.now.setup.now) name.now }
    {
        match self.names.known.place_of(name) {
            Some(place) => self.is_off(&self.names.known.layers[place]),
            None => false,
        }
    }

    /// Whether the layer of a name can be used, and is off.
    pub(crate) fn is_named_off(&self, alloc: Global, name: &str) -> Result<bool, AllocError>
        requires { IsReady self.now }
        ensures { IfOk result (λ off. off ≡ spec.is_named_off (setup_content self.now.setup.now) name.now) }
    {
        let missing = self.is_missing(alloc, name)?;
        Ok(!missing && self.is_found_off(name))
    }

    /// Adds what a name stands for.
    pub(crate) fn add_name(
        &self,
        alloc: Global,
        chain: ByName<'a>,
        name: &str,
    ) -> Result<ByName<'a>, AllocError>
        requires { IsReady self.now }
        ensures { IfOk result (λ new. (met : List ListedLayer) → map listed_layer chain.entry.layers.items ≡ spec.kept_layers (setup_content self.now.setup.now) met
            → map listed_layer new.layers.items ≡ spec.kept_layers (setup_content self.now.setup.now) (met ++ spec.named_layers (setup_content self.now.setup.now) name.now)) }
    {
        if self.is_named_off(alloc, name)? {
            return Ok(chain);
        }
        match expand_name(alloc, &self.names, name)? {
            Some(plain) => {
                let new = self.add_names(chain, &plain)?;
                Ok(new)
            }
            None => Ok(chain),
        }
    }

    /// Adds what names stand for.
    pub(crate) fn add_all(
        &self,
        alloc: Global,
        mut chain: ByName<'a>,
        names: &[String],
    ) -> Result<ByName<'a>, AllocError>
        requires { IsReady self.now }
        ensures { IfOk result (λ new. (met : List ListedLayer) → map listed_layer chain.entry.layers.items ≡ spec.kept_layers (setup_content self.now.setup.now) met
            → map listed_layer new.layers.items ≡ spec.kept_layers (setup_content self.now.setup.now)
            (met ++ flat_map (spec.named_layers (setup_content self.now.setup.now)) (map string_bytes names.now))) }
    {
        for name in names {
            chain = self.add_name(alloc, chain, name.as_str())?;
        }
        Ok(chain)
    }

    // Adds an implicit layer as itself, or as what its components stand for.
    fn add_implicit(
        &self,
        alloc: Global,
        chain: ByName<'a>,
        layer: &'a FoundLayer,
    ) -> Result<ByName<'a>, AllocError>
        requires { IsReady self.now }
        ensures { IfOk result (λ new. (met : List ListedLayer) → map listed_layer chain.entry.layers.items ≡ spec.kept_layers (setup_content self.now.setup.now) met
            → map listed_layer new.layers.items ≡ spec.kept_layers (setup_content self.now.setup.now) (met ++ spec.implicit_as (setup_content self.now.setup.now) (found_layer layer.now))) }
    {
        if layer.entry.library.is_some() {
            let listed = Listed {
                kind: LayerKindBit::Implicit,
                layer,
            };
            let new = self.add(chain, listed)?;
            return Ok(new);
        }
        match expand_layer(alloc, &self.names.known, &self.names.row, layer)? {
            Some(plain) => {
                let new = self.add_names(chain, &plain)?;
                Ok(new)
            }
            None => Ok(chain),
        }
    }

    // Whether an implicit layer is on and comes first, or last where it is the override.
    fn takes_turn(&self, last: bool, layer: &FoundLayer) -> bool
        requires { IsReady self.now }
        ensures { result ≡ spec.takes_turn (setup_content self.now.setup.now) last (found_layer layer.now) }
    {
        is_on(&self.filters, &self.setup.env, &layer.entry) && is_override(layer) == last
    }

    /// Adds the implicit layers that are on: those that come first, or the override, which comes last.
    pub(crate) fn add_implicits(
        &self,
        alloc: Global,
        mut chain: ByName<'a>,
        last: bool,
    ) -> Result<ByName<'a>, AllocError>
        requires { IsReady self.now }
        ensures { IfOk result (λ new. (met : List ListedLayer) → map listed_layer chain.entry.layers.items ≡ spec.kept_layers (setup_content self.now.setup.now) met
            → map listed_layer new.layers.items ≡ spec.kept_layers (setup_content self.now.setup.now)
            (met ++ flat_map (spec.implicit_as (setup_content self.now.setup.now)) (filter (spec.takes_turn (setup_content self.now.setup.now) last) (setup_content self.now.setup.now).implicit.list))) }
    {
        for layer in &self.setup.implicit.list {
            if self.takes_turn(last, layer) {
                chain = self.add_implicit(alloc, chain, layer)?;
            }
        }
        Ok(chain)
    }

    // Adds what an explicit layer stands for that the enable list hits.
    fn add_enabled(
        &self,
        alloc: Global,
        chain: ByName<'a>,
        layer: &FoundLayer,
    ) -> Result<ByName<'a>, AllocError>
        requires { IsReady self.now }
        ensures { IfOk result (λ new. (met : List ListedLayer) → map listed_layer chain.entry.layers.items ≡ spec.kept_layers (setup_content self.now.setup.now) met
            → map listed_layer new.layers.items ≡ spec.kept_layers (setup_content self.now.setup.now) (met ++ spec.enabled_layers (setup_content self.now.setup.now) (found_layer layer.now))) }
    {
        let name = layer.entry.name.as_str();
        if !self.filters.enable.hits(name) {
            return Ok(chain);
        }
        let new = self.add_name(alloc, chain, name)?;
        Ok(new)
    }

    /// Adds what the explicit layers stand for that the enable list hits.
    pub(crate) fn add_all_enabled(
        &self,
        alloc: Global,
        mut chain: ByName<'a>,
    ) -> Result<ByName<'a>, AllocError>
        requires { IsReady self.now }
        ensures { IfOk result (λ new. (met : List ListedLayer) → map listed_layer chain.entry.layers.items ≡ spec.kept_layers (setup_content self.now.setup.now) met
            → map listed_layer new.layers.items ≡ spec.kept_layers (setup_content self.now.setup.now)
            (met ++ flat_map (spec.enabled_layers (setup_content self.now.setup.now)) (setup_content self.now.setup.now).explicit.list)) }
    {
        for layer in &self.setup.explicit.list {
            chain = self.add_enabled(alloc, chain, layer)?;
        }
        Ok(chain)
    }
}
