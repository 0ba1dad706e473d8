// The lines of notes.
ghost use Rattle.std.specs.Prelude.{◌≡◌, ◌++◌, OnOk, codes};
ghost use Rattle.layer_search.specs.Contents.{IsOfFile, note_content};
ghost use Rattle.manifest_reader.specs.Keys.{spelled};
ghost use Rattle.report_text.specs.Notes.{manifest_text, note_text, reason_text};

use crate::put::put;
use command_tables::NoMemory;
use layer_search::{Note, NoteKind};
use manifest_reader::{Key, ManifestFault};
use std::alloc::AllocError;

// A word with a key.
#[tactic(auto, using(std::proofs::lemmas::List::append_assoc))]
fn put_keyed(word: &str, key: Key, out: &mut Vec<u8>) -> Result<(), AllocError>
    ensures { OnOk result (out.new.items ≡ out.old.items ++ (word.now ++ spelled key)) }
{
    put(word, out)?;
    put(key.as_str(), out)
}

// A manifest's fault; want of memory is no note's reason.
fn put_fault(fault: ManifestFault, out: &mut Vec<u8>) -> Result<(), AllocError>
    ensures { OnOk result (out.new.items ≡ out.old.items ++ manifest_text fault) }
{
    match fault {
        ManifestFault::NotJson => put("NotJson", out),
        ManifestFault::NoVersion => put("NoVersion", out),
        ManifestFault::BadVersion => put("BadVersion", out),
        ManifestFault::Missing { key } => put_keyed("Missing:", key, out),
        ManifestFault::WrongKind { key } => put_keyed("WrongKind:", key, out),
        ManifestFault::OtherArch => put("OtherArch", out),
        ManifestFault::NoMemory => put("", out),
    }
}

// Why something was left out.
fn put_reason(kind: NoteKind, out: &mut Vec<u8>) -> Result<(), AllocError>
    ensures { OnOk result (out.new.items ≡ out.old.items ++ reason_text kind) }
{
    match kind {
        NoteKind::Manifest(fault) => put_fault(fault, out),
        NoteKind::Absent => put("Absent", out),
        NoteKind::TooLarge => put("TooLarge", out),
        NoteKind::DeviceType => put("DeviceType", out),
    }
}

/// Appends the line of a note: why something was left out, and the path of the file without the root. After `NoMemory` the
/// bytes are any.
#[tactic(auto, using(std::proofs::lemmas::List::append_assoc), unfolding(crate::specs::Notes::note_text))]
pub fn note_line(note: &Note, out: &mut Vec<u8>) -> Result<(), NoMemory>
    requires { IsOfFile note.now.kind }
    ensures { OnOk result (out.new.items ≡ out.old.items ++ note_text (note_content note.now)) }
{
    put("note ", out)?;
    put_reason(note.kind, out)?;
    put(" ", out)?;
    put(note.path.as_str(), out)?;
    put("\n", out)?;
    Ok(())
}
