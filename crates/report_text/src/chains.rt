// The lines of a chain.
ghost use Rattle.std.specs.Prelude.{◌≡◌, ◌≤◌, ◌++◌, ℕ, All, OnOk, codes, decimal, length, map, string_bytes, vec_len};
ghost use Rattle.std.specs.List.{flat_map};
ghost use Rattle.chain_build.specs.Answers.{answer_content, chain_content, note_of};
ghost use Rattle.layer_search.specs.Contents.{found_driver, found_layer};
ghost use Rattle.report_text.specs.Chains as spec;

use crate::libraries::put_library;
use crate::put::{put, put_number};
use chain_build::{Chain, ChainAnswer, ChainNote, PartKind};
use command_tables::NoMemory;
use layer_search::{FoundDriver, FoundLayer};
use std::alloc::AllocError;

// The front of a line at a call.
#[tactic(auto, using(std::proofs::lemmas::List::append_assoc))]
fn put_call(call: u64, out: &mut Vec<u8>) -> Result<(), AllocError>
    ensures { OnOk result (out.new.items ≡ out.old.items ++ (codes "chain " ++ decimal call)) }
{
    put("chain ", out)?;
    put_number(call, out)
}

// A word behind which a number stands.
#[tactic(auto, using(std::proofs::lemmas::List::append_assoc))]
fn put_count(word: &str, n: u64, out: &mut Vec<u8>) -> Result<(), AllocError>
    ensures { OnOk result (out.new.items ≡ out.old.items ++ (word.now ++ decimal n)) }
{
    put(word, out)?;
    put_number(n, out)
}

// The one line of a call without a chain, with a name behind a word.
#[tactic(auto, using(std::proofs::lemmas::List::append_assoc))]
fn put_refusal(call: u64, word: &str, name: &str, out: &mut Vec<u8>) -> Result<(), AllocError>
    ensures { OnOk result (out.new.items ≡ out.old.items ++ (codes "chain " ++ decimal call ++ word.now ++ name.now ++ codes "\n")) }
{
    put_call(call, out)?;
    put(word, out)?;
    put(name, out)?;
    put("\n", out)
}

// The one line of a call without a driver.
fn put_no_driver(call: u64, out: &mut Vec<u8>) -> Result<(), AllocError>
    ensures { OnOk result (out.new.items ≡ out.old.items ++ (codes "chain " ++ decimal call ++ codes " no-driver\n")) }
{
    put_call(call, out)?;
    put(" no-driver\n", out)?;
    Ok(())
}

// The first line of a chain with so many layers, parts and drivers.
fn put_counts(
    call: u64,
    layers: u64,
    parts: u64,
    drivers: u64,
    out: &mut Vec<u8>,
) -> Result<(), AllocError>
    ensures { OnOk result (out.new.items ≡ out.old.items ++ spec.counts_line call layers parts drivers) }
{
    put_call(call, out)?;
    put_count(" ok layers=", layers, out)?;
    put_count(" parts=", parts, out)?;
    put_count(" drivers=", drivers, out)?;
    put("\n", out)?;
    Ok(())
}

// The first line of a chain.
fn put_head(
    call: u64,
    layers: &[FoundLayer],
    parts: &[(PartKind, u32)],
    drivers: &[FoundDriver],
    out: &mut Vec<u8>,
) -> Result<(), AllocError>
    ensures { OnOk result (out.new.items ≡ out.old.items
        ++ spec.counts_line call (length (map found_layer layers.now)) (length parts.now) (length (map found_driver drivers.now))) }
{
    let layers = layers.len() as u64;
    let parts = parts.len() as u64;
    let drivers = drivers.len() as u64;
    put_counts(call, layers, parts, drivers, out)
}

// A name behind a word.
#[tactic(auto, using(std::proofs::lemmas::List::append_assoc))]
fn put_named(word: &str, name: &str, out: &mut Vec<u8>) -> Result<(), AllocError>
    ensures { OnOk result (out.new.items ≡ out.old.items ++ (word.now ++ name.now ++ codes "\n")) }
{
    put(word, out)?;
    put(name, out)?;
    put("\n", out)
}

fn put_note(note: &ChainNote, out: &mut Vec<u8>) -> Result<(), AllocError>
    ensures { OnOk result (out.new.items ≡ out.old.items ++ spec.chain_note_text (note_of note.now)) }
{
    match note {
        ChainNote::EnvMissing(name) => put_named("note EnvMissing ", name.as_str(), out),
        ChainNote::Off(name) => put_named("note Off ", name.as_str(), out),
    }
}

fn put_notes(notes: &[ChainNote], out: &mut Vec<u8>) -> Result<(), AllocError>
    ensures { OnOk result (out.new.items ≡ out.old.items ++ flat_map spec.chain_note_text (map note_of notes.now)) }
{
    for note in notes {
        put_note(note, out)?;
    }
    Ok(())
}

#[tactic(auto, using(std::proofs::lemmas::List::append_assoc))]
fn put_layer(n: u64, layer: &FoundLayer, out: &mut Vec<u8>) -> Result<(), AllocError>
    ensures { OnOk result (out.new.items ≡ out.old.items ++ spec.layer_line n (found_layer layer.now)) }
{
    put_count("layer ", n, out)?;
    put(" ", out)?;
    put(layer.entry.name.as_str(), out)?;
    put_named(" ", layer.path.as_str(), out)
}

fn put_layers(layers: &[FoundLayer], out: &mut Vec<u8>) -> Result<(), AllocError>
    ensures { OnOk result (out.new.items ≡ out.old.items ++ spec.numbered spec.layer_line (map found_layer layers.now)) }
{
    for (index, layer) in layers.iter().enumerate() {
        put_layer(index as u64 + 1, layer, out)?;
    }
    Ok(())
}

fn part_name(kind: PartKind) -> &'static str
    ensures { result.now ≡ spec.part_name kind }
{
    match kind {
        PartKind::Threads => "threads",
        PartKind::Lifetimes => "lifetimes",
        PartKind::Unique => "unique",
    }
}

// The name of the layer at a place, from 1.
#[tactic(auto, using(crate::proofs::Numbers::name_at))]
fn layer_name_at(layers: &[FoundLayer], place: u32) -> &str
    requires { (1 ≤ place) × (place ≤ length layers.now) }
    ensures { result.now ≡ spec.layer_name_at (map found_layer layers.now) place }
{
    layers[place as usize - 1].entry.name.as_str()
}

#[tactic(auto, using(std::proofs::lemmas::List::append_assoc))]
fn put_part(
    n: u64,
    part: (PartKind, u32),
    layers: &[FoundLayer],
    out: &mut Vec<u8>,
) -> Result<(), AllocError>
    requires { spec.IsPlaceOf (map found_layer layers.now) part }
    ensures { OnOk result (out.new.items ≡ out.old.items ++ spec.part_line (map found_layer layers.now) n part) }
{
    let (kind, place) = part;
    put_count("part ", n, out)?;
    put(" ", out)?;
    put(part_name(kind), out)?;
    put_named(" ", layer_name_at(layers, place), out)
}

fn put_parts(
    parts: &[(PartKind, u32)],
    layers: &[FoundLayer],
    out: &mut Vec<u8>,
) -> Result<(), AllocError>
    requires { All (spec.IsPlaceOf (map found_layer layers.now)) parts.now }
    ensures { OnOk result (out.new.items ≡ out.old.items ++ spec.numbered (spec.part_line (map found_layer layers.now)) parts.now) }
{
    for (index, part) in parts.iter().enumerate() {
        put_part(index as u64 + 1, *part, layers, out)?;
    }
    Ok(())
}

#[tactic(auto, using(std::proofs::lemmas::List::append_assoc))]
fn put_driver(n: u64, driver: &FoundDriver, out: &mut Vec<u8>) -> Result<(), AllocError>
    ensures { OnOk result (out.new.items ≡ out.old.items ++ spec.driver_line n (found_driver driver.now)) }
{
    put_count("driver ", n, out)?;
    put(" ", out)?;
    put(driver.path.as_str(), out)?;
    put(" ", out)?;
    put_library(driver.path.as_str(), driver.entry.library.as_str(), out)?;
    put("\n", out)
}

fn put_drivers(drivers: &[FoundDriver], out: &mut Vec<u8>) -> Result<(), AllocError>
    ensures { OnOk result (out.new.items ≡ out.old.items ++ spec.numbered spec.driver_line (map found_driver drivers.now)) }
{
    for (index, driver) in drivers.iter().enumerate() {
        put_driver(index as u64 + 1, driver, out)?;
    }
    Ok(())
}

// The lines of a chain of these layers, parts, drivers and notes.
fn put_lists(
    call: u64,
    layers: &[FoundLayer],
    parts: &[(PartKind, u32)],
    drivers: &[FoundDriver],
    notes: &[ChainNote],
    out: &mut Vec<u8>,
) -> Result<(), AllocError>
    requires { All (spec.IsPlaceOf (map found_layer layers.now)) parts.now }
    ensures { OnOk result (out.new.items ≡ out.old.items ++ spec.chain_lines call (record {
      layers = map found_layer layers.now;
      parts = parts.now;
      drivers = map found_driver drivers.now;
      notes = map note_of notes.now;
    })) }
{
    put_head(call, layers, parts, drivers, out)?;
    put_notes(notes, out)?;
    put_layers(layers, out)?;
    put_parts(parts, layers, out)?;
    put_drivers(drivers, out)?;
    Ok(())
}

// The lines of a chain.
fn put_chain(call: u64, chain: &Chain, out: &mut Vec<u8>) -> Result<(), AllocError>
    requires { spec.IsCounted (chain_content chain.now) }
    ensures { OnOk result (out.new.items ≡ out.old.items ++ spec.chain_lines call (chain_content chain.now)) }
{
    let Chain {
        layers,
        parts,
        drivers,
        notes,
    } = chain;
    put_lists(call, layers, parts, drivers, notes, out)
}

#[tactic(auto, using(std::proofs::lemmas::List::append_assoc), unfolding(crate::specs::Chains::answer_text))]
fn put_answer(call: u64, answer: &ChainAnswer, out: &mut Vec<u8>) -> Result<(), AllocError>
    requires { spec.IsPrintable (answer_content answer.now) }
    ensures { OnOk result (out.new.items ≡ out.old.items ++ spec.answer_text call (answer_content answer.now)) }
{
    match answer {
        ChainAnswer::Chain(chain) => put_chain(call, chain, out),
        ChainAnswer::LayerNotPresent { name } => {
            put_refusal(call, " layer-not-present ", name.as_str(), out)
        }
        ChainAnswer::NoDriver => put_no_driver(call, out),
        ChainAnswer::Unguarded { layer } => put_refusal(call, " unguarded ", layer.as_str(), out),
    }
}

/// Appends the lines of what came of building a chain at the call with this number: of a chain its counts, its notes, its
/// layers and parts from the application down, and its drivers, each numbered from 1; else the one line that says why there is
/// none. After `NoMemory` the bytes are any.
pub fn chain_lines(call: u64, answer: &ChainAnswer, out: &mut Vec<u8>) -> Result<(), NoMemory>
    requires { spec.IsPrintable (answer_content answer.now) }
    ensures { OnOk result (out.new.items ≡ out.old.items ++ spec.answer_text call (answer_content answer.now)) }
{
    put_answer(call, answer, out)?;
    Ok(())
}
