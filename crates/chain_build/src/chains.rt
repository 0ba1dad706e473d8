//! The chain of layers.
//! Source: Khronos Vulkan-Loader, LoaderLayerInterface.md and LoaderApplicationInterface.md.
ghost use Rattle.std.specs.Prelude.{◌≡◌, ◌≤◌, [], ◌∷◌, ◌++◌, IfOk, IfErr, OnOk, List, ℕ, find, length, map, option_map, string_bytes};
ghost use Rattle.std.specs.List.{flat_map};
ghost use Rattle.chain_build.specs.Answers as answers;
ghost use Rattle.chain_build.specs.Chain as spec;
ghost use Rattle.chain_build.specs.Holding.{listed_layer};
ghost use Rattle.chain_build.specs.Knowing.{IsReady};
ghost use Rattle.chain_build.specs.Setup.{setup_content};
ghost use Rattle.layer_search.specs.Contents.{found_layer};

use crate::answers::MOST_LAYERS;
use crate::builder::Builder;
use crate::by_name::ByName;
use crate::copies::{copy_drivers, copy_layer};
use crate::listed::Listed;
use crate::parts::{first_unguarded, placed_parts};
use crate::{Chain, ChainAnswer, ChainError, ChainNote, Setup};
use env_filters::{NoMemory, split_paths};
use layer_search::FoundLayer;
use std::alloc::{AllocError, Global};

// The names that the environment asks for.
fn asked_names(alloc: Global, setup: &Setup) -> Result<Vec<String>, NoMemory>
    ensures { IfOk result (λ names. map string_bytes names.items ≡ spec.asked_names (setup_content setup.now)) }
{
    match setup.env.get("VK_INSTANCE_LAYERS") {
        Some(value) => split_paths(alloc, value),
        None => split_paths(alloc, ""),
    }
}

// The layers of the chain, as they were found.
#[tactic(auto, unfolding(crate::specs::Chain::implicit_piece, crate::specs::Chain::environment_piece, crate::specs::Chain::application_piece))]
fn gather<'a>(
    alloc: Global,
    builder: &Builder<'a>,
    asked: &[String],
    app: &[String],
) -> Result<ByName<'a>, AllocError>
    requires ready { IsReady builder.now }
    requires asked { map string_bytes asked.now ≡ spec.asked_names (setup_content builder.now.setup.now) }
    ensures { IfOk result (λ chain. map listed_layer chain.layers.items ≡ spec.kept_layers (setup_content builder.now.setup.now)
        (spec.implicit_piece (setup_content builder.now.setup.now) ++ (spec.environment_piece (setup_content builder.now.setup.now)
        ++ spec.application_piece (setup_content builder.now.setup.now) (map string_bytes app.now)))) }
{
    let none = ByName::new(alloc);
    let first = builder.add_implicits(alloc, none, false)?;
    let implicit = builder.add_implicits(alloc, first, true)?;
    let named = builder.add_all(alloc, implicit, asked)?;
    let enabled = builder.add_all_enabled(alloc, named)?;
    let all = builder.add_all(alloc, enabled, app)?;
    Ok(all)
}

// Copies of layers.
fn copy_layers(alloc: Global, layers: &[Listed]) -> Result<Vec<FoundLayer>, AllocError>
    ensures { IfOk result (λ copies. map found_layer copies.items ≡ map (λ l. l.layer) (map listed_layer layers.now)) }
{
    let mut copies = Vec::new(alloc);
    for listed in layers {
        copies.push(copy_layer(alloc, listed.layer)?)?;
    }
    Ok(copies)
}

// The layers of the chain.
#[tactic(auto, unfolding(crate::specs::Chain::chain_layers))]
fn chain_layers(
    alloc: Global,
    builder: &Builder,
    asked: &[String],
    app: &[String],
) -> Result<Vec<FoundLayer>, AllocError>
    requires ready { IsReady builder.now }
    requires asked { map string_bytes asked.now ≡ spec.asked_names (setup_content builder.now.setup.now) }
    ensures { IfOk result (λ layers. map found_layer layers.items ≡ spec.chain_layers (setup_content builder.now.setup.now) (map string_bytes app.now)) }
{
    let chain = gather(alloc, builder, asked, app)?;
    copy_layers(alloc, &chain.layers)
}

// Adds the note of a name of the environment that is missing.
fn add_missing(
    alloc: Global,
    builder: &Builder,
    notes: &mut Vec<ChainNote>,
    name: &str,
) -> Result<(), AllocError>
    requires { IsReady builder.now }
    ensures { OnOk result (map answers.note_of notes.new.items ≡ map answers.note_of notes.old.items ++ spec.missing_notes (setup_content builder.now.setup.now) name.now) }
{
    if builder.is_missing(alloc, name)? {
        notes.push(ChainNote::EnvMissing(String::from_str(alloc, name)?))?;
    }
    Ok(())
}

// Adds the note of a name of the application whose layer is off.
fn add_off(
    alloc: Global,
    builder: &Builder,
    notes: &mut Vec<ChainNote>,
    name: &str,
) -> Result<(), AllocError>
    requires { IsReady builder.now }
    ensures { OnOk result (map answers.note_of notes.new.items ≡ map answers.note_of notes.old.items ++ spec.off_notes (setup_content builder.now.setup.now) name.now) }
{
    if builder.is_named_off(alloc, name)? {
        notes.push(ChainNote::Off(String::from_str(alloc, name)?))?;
    }
    Ok(())
}

// Adds the notes of the environment's names.
fn add_all_missing(
    alloc: Global,
    builder: &Builder,
    notes: &mut Vec<ChainNote>,
    names: &[String],
) -> Result<(), AllocError>
    requires { IsReady builder.now }
    ensures { OnOk result (map answers.note_of notes.new.items ≡ map answers.note_of notes.old.items
        ++ flat_map (spec.missing_notes (setup_content builder.now.setup.now)) (map string_bytes names.now)) }
{
    for name in names {
        add_missing(alloc, builder, notes, name.as_str())?;
    }
    Ok(())
}

// Adds the notes of the application's names.
fn add_all_off(
    alloc: Global,
    builder: &Builder,
    notes: &mut Vec<ChainNote>,
    names: &[String],
) -> Result<(), AllocError>
    requires { IsReady builder.now }
    ensures { OnOk result (map answers.note_of notes.new.items ≡ map answers.note_of notes.old.items
        ++ flat_map (spec.off_notes (setup_content builder.now.setup.now)) (map string_bytes names.now)) }
{
    for name in names {
        add_off(alloc, builder, notes, name.as_str())?;
    }
    Ok(())
}

// The notes of a chain.
#[tactic(auto, unfolding(crate::specs::Chain::chain_notes))]
fn chain_notes(
    alloc: Global,
    builder: &Builder,
    asked: &[String],
    app: &[String],
) -> Result<Vec<ChainNote>, AllocError>
    requires ready { IsReady builder.now }
    requires asked { map string_bytes asked.now ≡ spec.asked_names (setup_content builder.now.setup.now) }
    ensures { IfOk result (λ notes. map answers.note_of notes.items ≡ spec.chain_notes (setup_content builder.now.setup.now) (map string_bytes app.now)) }
{
    let mut notes = Vec::new(alloc);
    add_all_missing(alloc, builder, &mut notes, asked)?;
    add_all_off(alloc, builder, &mut notes, app)?;
    Ok(notes)
}

// The application's first missing layer.
fn first_missing<'b>(
    alloc: Global,
    builder: &Builder,
    app: &'b [String],
) -> Result<Option<&'b String>, AllocError>
    requires { IsReady builder.now }
    ensures { IfOk result (λ name. option_map (λ n. string_bytes n.now) name ≡ find (spec.is_missing (setup_content builder.now.setup.now)) (map string_bytes app.now)) }
{
    for name in app {
        if builder.is_missing(alloc, name.as_str())? {
            return Ok(Some(name));
        }
    }
    Ok(None)
}

// What comes of the layers of a chain.
#[tactic(auto, unfolding(crate::specs::Chain::chain_with))]
fn chain_with(
    alloc: Global,
    layers: Vec<FoundLayer>,
    setup: &Setup,
    notes: Vec<ChainNote>,
) -> Result<ChainAnswer, ChainError>
    ensures ok { IfOk result (λ answer. answers.answer_content answer
        ≡ spec.chain_with (map found_layer layers.items) (setup_content setup.now).drivers.list (map answers.note_of notes.items)) }
    ensures err { IfErr result (answers.IsRefusal (spec.chain_with (map found_layer layers.items) (setup_content setup.now).drivers.list (map answers.note_of notes.items))) }
{
    if layers.len() > MOST_LAYERS {
        return Err(ChainError::TooLong {
            count: layers.len() as u64,
        });
    }
    if let Some(layer) = first_unguarded(&layers) {
        let layer = String::from_str(alloc, layer.entry.name.as_str())?;
        return Ok(ChainAnswer::Unguarded { layer });
    }
    let parts = placed_parts(alloc, &layers)?;
    let drivers = copy_drivers(alloc, &setup.drivers.list)?;
    Ok(ChainAnswer::Chain(Chain {
        layers,
        parts,
        drivers,
        notes,
    }))
}

// What comes of a setup by its drivers.
fn driven(alloc: Global, builder: &Builder, app: &[String]) -> Result<ChainAnswer, ChainError>
    requires { IsReady builder.now }
    ensures ok { IfOk result (λ answer. answers.answer_content answer
        ≡ spec.driven (setup_content builder.now.setup.now) (map string_bytes app.now) (setup_content builder.now.setup.now).drivers.list) }
    ensures err { IfErr result (answers.IsRefusal
        (spec.driven (setup_content builder.now.setup.now) (map string_bytes app.now) (setup_content builder.now.setup.now).drivers.list)) }
{
    let setup = builder.setup;
    if setup.drivers.list.is_empty() {
        return Ok(ChainAnswer::NoDriver);
    }
    let asked = asked_names(alloc, setup)?;
    let layers = chain_layers(alloc, builder, &asked, app)?;
    let notes = chain_notes(alloc, builder, &asked, app)?;
    chain_with(alloc, layers, setup, notes)
}

// What comes of a setup and the application's layers.
#[tactic(auto, unfolding(crate::specs::Chain::chain_of))]
fn built(alloc: Global, builder: &Builder, app: &[String]) -> Result<ChainAnswer, ChainError>
    requires { IsReady builder.now }
    ensures ok { IfOk result (λ answer. answers.answer_content answer ≡ spec.chain_of (setup_content builder.now.setup.now) (map string_bytes app.now)) }
    ensures err { IfErr result (answers.IsRefusal (spec.chain_of (setup_content builder.now.setup.now) (map string_bytes app.now))) }
{
    match first_missing(alloc, builder, app)? {
        Some(name) => {
            let name = String::from_str(alloc, name.as_str())?;
            Ok(ChainAnswer::LayerNotPresent { name })
        }
        None => driven(alloc, builder, app),
    }
}

/// Builds the chain for the layers that an application names: from the application down the implicit layers that are on, with
/// the override last; those of `VK_INSTANCE_LAYERS`, then the explicit ones that `VK_LOADER_LAYERS_ENABLE` hits; the
/// application's; then the drivers. Meta-layers are replaced by their components, layers that are off are left out, and of
/// two layers with one name the first stays.
///
/// `LayerNotPresent` comes first, then `NoDriver`, then `TooLong` above 64 layers, then `Unguarded`.
pub fn build(alloc: Global, setup: &Setup, app_layers: &[String]) -> Result<ChainAnswer, ChainError>
    ensures ok { IfOk result (λ answer. answers.answer_content answer ≡ spec.chain_of (setup_content setup.now) (map string_bytes app_layers.now)) }
    ensures err { IfErr result (answers.IsRefusal (spec.chain_of (setup_content setup.now) (map string_bytes app_layers.now))) }
{
    let builder = Builder::new(alloc, setup)?;
    built(alloc, &builder, app_layers)
}
