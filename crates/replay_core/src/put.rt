// The texts that stand before and behind the lines of a trace.
ghost use Rattle.std.specs.Prelude.{◌≡◌, ◌++◌, [], map, IfOk, OnOk};
ghost use Rattle.std.specs.List.{flat_map};
ghost use Rattle.replay_base.specs.Changes.{changed};
ghost use Rattle.layer_search.specs.Contents.{note_content};
ghost use Rattle.chain_build.specs.Setup.{setup_content};
ghost use Rattle.report_text.specs.Notes.{note_text, notes_text, setup_notes};
ghost use Rattle.replay_model.specs.Text.{end_line as line_at_end};
ghost use Rattle.replay_core.specs.Ending.{PutsText};

use crate::error::ReplayError;
use chain_build::Setup;
use command_tables::NoMemory;
use layer_search::{Note, NoteKind};
use manifest_reader::ManifestFault;
use replay_base::{Sink, put_all};
use report_text::{Tally, end_line, note_line};
use std::alloc::Global;

// A text that stands in memory.
fn put_text<K: Sink>(text: &[u8], out: &mut K) -> Result<(), ReplayError>
    ensures { let sink = changed (K.held out.old) (K.held out.new) (K.faults out.old) (K.faults out.new) in
        PutsText text.now sink result }
{
    match put_all(out, text) {
        Ok(()) => Ok(()),
        Err(_) => Err(ReplayError::Write),
    }
}

// A note's line. Want of memory is no note's reason, so it has no text and is answered.
fn add_note(note: &Note, text: &mut Vec<u8>) -> Result<(), NoMemory>
    ensures { OnOk result (text.new.items ≡ text.old.items ++ note_text (note_content note.now)) }
{
    match note.kind {
        NoteKind::Manifest(ManifestFault::NoMemory) => Err(NoMemory),
        _ => note_line(note, text),
    }
}

// The lines of notes, behind those before.
fn add_notes(notes: &[Note], text: &mut Vec<u8>) -> Result<(), NoMemory>
    ensures { OnOk result (text.new.items ≡ text.old.items ++ notes_text (map note_content notes.now)) }
{
    for note in notes {
        add_note(note, text)?;
    }
    Ok(())
}

/// The lines of all notes of a setup: those of the drivers, of the explicit layers and of the implicit ones.
#[tactic(auto, unfolding(report_text::specs::Notes::setup_notes))]
pub fn text_of_notes(alloc: Global, setup: &Setup) -> Result<Vec<u8>, NoMemory>
    ensures { IfOk result (λ text. text.items ≡ setup_notes (setup_content setup.now)) }
{
    let mut text = Vec::new(alloc);
    add_notes(&setup.drivers.notes, &mut text)?;
    add_notes(&setup.explicit.notes, &mut text)?;
    add_notes(&setup.implicit.notes, &mut text)?;
    Ok(text)
}

// A text that stands in memory, none of which is held back then.
fn hand_text<K: Sink>(text: &[u8], out: &mut K) -> Result<(), ReplayError>
    ensures { let sink = changed (K.held out.old) (K.held out.new) (K.faults out.old) (K.faults out.new) in
        PutsText text.now sink result }
{
    match put_text(text, out) {
        Err(error) => Err(error),
        Ok(()) => match out.flush() {
            Ok(()) => Ok(()),
            Err(_) => Err(ReplayError::Write),
        },
    }
}

/// The notes of a setup, which are handed on before a trace is read. All memory of them is taken before any of them is written.
pub fn put_notes<K: Sink>(alloc: Global, setup: &Setup, out: &mut K) -> Result<(), ReplayError>
    ensures { let sink = changed (K.held out.old) (K.held out.new) (K.faults out.old) (K.faults out.new) in
        PutsText (setup_notes (setup_content setup.now)) sink result }
{
    match text_of_notes(alloc, setup) {
        Err(_) => Err(ReplayError::NoMemory),
        Ok(text) => hand_text(&text, out),
    }
}

fn text_of_end(tally: &Tally, alloc: Global) -> Result<Vec<u8>, NoMemory>
    ensures { IfOk result (λ line. line.items ≡ line_at_end tally.now.calls tally.now.skipped tally.now.reports) }
{
    let mut line = Vec::new(alloc);
    end_line(tally, &mut line)?;
    Ok(line)
}

/// The end line. All memory of it is taken before any of it is written.
pub fn put_end<K: Sink>(tally: Tally, alloc: Global, out: &mut K) -> Result<(), ReplayError>
    ensures { let sink = changed (K.held out.old) (K.held out.new) (K.faults out.old) (K.faults out.new) in
        PutsText (line_at_end tally.calls tally.skipped tally.reports) sink result }
{
    match text_of_end(&tally, alloc) {
        Err(_) => Err(ReplayError::NoMemory),
        Ok(line) => put_text(&line, out),
    }
}
