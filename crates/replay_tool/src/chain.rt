// The command that shows the chain of layers.
ghost use Rattle.std.specs.Prelude.{◌≡◌, ◌≤◌, [], ◌∷◌, ◌++◌, false, map, string_bytes, length};
ghost use Rattle.layer_search.specs.Contents.{AllOfFiles, IsOfFile, note_content};
ghost use Rattle.layer_search.specs.Paths.{most_paths};
ghost use Rattle.chain_build.specs.Answers.{answer_content};
ghost use Rattle.chain_build.specs.Chain.{chain_of};
ghost use Rattle.chain_build.specs.Setup.{setup_content};
ghost use Rattle.replay_base.specs.Changes.{changed};
ghost use Rattle.replay_model.specs.Setup.{is_too_long, outcome_text};
ghost use Rattle.report_text.specs.Chains.{IsPrintable};
ghost use Rattle.report_text.specs.Notes.{note_text};
ghost use Rattle.report_text.specs.Setups.{outcome_of};
ghost use Rattle.replay_tool.specs.Showing.{Shows, Writes, chain_run, lines_with, search_stop, tree_seen};
ghost use Rattle.program_words.specs.Meant.{chain_meant};

use chain_build::{ChainAnswer, ChainError, Setup, build, read_setup};
use env_filters::{EnvList, split_layer_names};
use layer_search::{Note, SearchError};
use program_words::ChainWords;
use replay_base::{Sink, Tree, Which, put_all};
use replay_core::ReplayError;
use report_text::{chain_lines, note_line};
use std::alloc::Global;

// A text as one piece.
#[tactic(auto, using(crate::proofs::Writing::one_piece))]
fn put_piece<K: Sink>(out: &mut K, piece: &[u8]) -> Result<(), ReplayError>
    ensures { Writes (piece.now ∷ []) false (changed (K.held out.old) (K.held out.new) (K.faults out.old) (K.faults out.new)) result }
{
    match put_all(out, piece) {
        Ok(()) => Ok(()),
        Err(_) => Err(ReplayError::Write),
    }
}

// The line of a note.
#[tactic(auto, using(crate::proofs::Writing::none_of, crate::proofs::Writing::nothing_yet))]
fn put_note<K: Sink>(out: &mut K, note: &Note, line: &mut Vec<u8>) -> Result<(), ReplayError>
    requires { IsOfFile note.now.kind }
    ensures { Writes (note_text (note_content note.now) ∷ []) false (changed (K.held out.old) (K.held out.new) (K.faults out.old) (K.faults out.new)) result }
{
    line.clear();
    match note_line(note, line) {
        Ok(()) => put_piece(out, line),
        Err(_) => Err(ReplayError::NoMemory),
    }
}

// The lines of notes, each by itself.
#[tactic(auto, using(crate::proofs::Writing::none_of, crate::proofs::Writing::nothing_yet))]
fn put_notes<K: Sink>(out: &mut K, notes: &[Note], line: &mut Vec<u8>) -> Result<(), ReplayError>
    requires { AllOfFiles notes.now }
    ensures { Writes (map note_text (map note_content notes.now)) false (changed (K.held out.old) (K.held out.new) (K.faults out.old) (K.faults out.new)) result }
{
    for note in notes {
        put_note(out, note, line)?;
    }
    Ok(())
}

// The lines of a chain, or of its refusal, as at a call with number 0.
#[tactic(auto, using(crate::proofs::Writing::none_of))]
fn put_answer<K: Sink>(
    out: &mut K,
    answer: &ChainAnswer,
    text: &mut Vec<u8>,
) -> Result<(), ReplayError>
    requires { IsPrintable (answer_content answer.now) }
    ensures { let outcome = outcome_of (answer_content answer.now) in
        Writes (outcome_text outcome 0 ∷ []) (is_too_long outcome) (changed (K.held out.old) (K.held out.new) (K.faults out.old) (K.faults out.new)) result }
{
    text.clear();
    match chain_lines(0, answer, text) {
        Ok(()) => put_piece(out, text),
        Err(_) => Err(ReplayError::NoMemory),
    }
}

// What comes of the layers that the application names.
#[tactic(auto, using(crate::proofs::Writing::none_of, crate::proofs::Built::printable))]
fn put_chain<K: Sink>(
    alloc: Global,
    out: &mut K,
    setup: &Setup,
    layers: &[String],
    text: &mut Vec<u8>,
) -> Result<(), ReplayError>
    requires { length (setup_content setup.now).drivers.list ≤ most_paths }
    ensures { let outcome = outcome_of (chain_of (setup_content setup.now) (map string_bytes layers.now)) in
        Writes (outcome_text outcome 0 ∷ []) (is_too_long outcome) (changed (K.held out.old) (K.held out.new) (K.faults out.old) (K.faults out.new)) result }
{
    match build(alloc, setup, layers) {
        Ok(answer) => put_answer(out, &answer, text),
        Err(ChainError::TooLong { .. }) => Err(ReplayError::Limit {
            which: Which::Chain,
        }),
        Err(ChainError::NoMemory) => Err(ReplayError::NoMemory),
    }
}

// The notes of a setup, and then its chain.
fn show_setup<K: Sink>(
    alloc: Global,
    out: &mut K,
    setup: &Setup,
    layers: &[String],
) -> Result<(), ReplayError>
    requires few { length (setup_content setup.now).drivers.list ≤ most_paths }
    requires driver_notes { AllOfFiles setup.now.drivers.notes.items }
    requires explicit_notes { AllOfFiles setup.now.explicit.notes.items }
    requires implicit_notes { AllOfFiles setup.now.implicit.notes.items }
    ensures { let outcome = outcome_of (chain_of (setup_content setup.now) (map string_bytes layers.now)) in
        Writes (lines_with (setup_content setup.now) outcome) (is_too_long outcome) (changed (K.held out.old) (K.held out.new) (K.faults out.old) (K.faults out.new)) result }
{
    let mut line = Vec::new(alloc);
    put_notes(out, &setup.drivers.notes, &mut line)?;
    put_notes(out, &setup.explicit.notes, &mut line)?;
    put_notes(out, &setup.implicit.notes, &mut line)?;
    put_chain(alloc, out, setup, layers, &mut line)
}

/// A search's error.
pub(crate) fn search_stop(error: SearchError) -> ReplayError
    ensures { result ≡ search_stop error }
{
    match error {
        SearchError::Tree => ReplayError::Read,
        SearchError::TooMany { .. } => ReplayError::Limit {
            which: Which::Manifests,
        },
        SearchError::NoMemory => ReplayError::NoMemory,
    }
}

/// Shows which manifests count and which chain of layers there is: the notes of the drivers, of the explicit and of the implicit
/// layers, and then the lines of the chain for the layers that the words name, as at a call with number 0.
///
/// `Read` comes where the tree failed, `Limit` for `Manifests` where a search meets its 4,097th manifest file, and for `Chain`,
/// after the notes, where the chain would have more than 64 layers.
pub(crate) fn show_chain<T: Tree, K: Sink>(
    alloc: Global,
    words: ChainWords<'_>,
    env: &EnvList,
    tree: &mut T,
    out: &mut K,
) -> Result<(), ReplayError>
    ensures { let seen = tree_seen (T.files tree.old) (T.faults tree.old) (T.faults tree.new) in
        Shows (chain_run (chain_meant words.entry) env.now seen) (changed (K.held out.old) (K.held out.new) (K.faults out.old) (K.faults out.new)) result }
{
    let setup = match read_setup(alloc, tree, env, words.root, words.exe) {
        Ok(setup) => setup,
        Err(error) => return Err(search_stop(error)),
    };
    match split_layer_names(alloc, words.layers) {
        Ok(layers) => show_setup(alloc, out, &setup, &layers),
        Err(_) => Err(ReplayError::NoMemory),
    }
}
