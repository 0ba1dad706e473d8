//! Reading the lines of a stream file.
ghost use Rattle.std.specs.Prelude.{◌≡◌, ◌≤◌, ◌+◌, [], false, length, None, IfErr, IfOk};
ghost use Rattle.replay_base.specs.Reader.{kept_of, state_of};
ghost use Rattle.replay_base.specs.declared.limit.TheConstants.{MOST_LINE_BYTES as MOST};
ghost use Rattle.replay_core.specs.Given.{source_of};
ghost use Rattle.stream_model.specs.declared.refusal.Refusal.TheVariants as refusal;
ghost use Rattle.threaded_replay.specs.Errors.{error_at, error_of};
ghost use Rattle.threaded_replay.specs.Files.{file_parts};
ghost use Rattle.threaded_replay.specs.Reading.{ReadsFile, ReadsHeader, ReadsNot};

use crate::error::{NotTaken, StreamError, error_at};
use crate::intake::Intake;
use crate::lines::next_line;
use crate::stream_file::StreamFile;
use replay_base::{LineReader, Source};
use std::alloc::Global;
use stream_model::{HEADER, Refusal};

// The error that says that a line isn't taken.
fn not_taken(number: u64, error: NotTaken) -> StreamError
    ensures { result ≡ error_of number error }
{
    match error {
        NotTaken::Refused(refusal) => error_at(number, refusal),
        NotTaken::NoMemory => StreamError::NoMemory,
    }
}

// The first line is missing, or isn't the header.
fn no_header() -> StreamError
    ensures { result ≡ error_at 1 refusal.Section }
{
    error_at(1, Refusal::Section)
}

// The first line, which must be the header.
fn read_header<S: Source + Drop>(reader: &mut LineReader<S>) -> Result<(), StreamError>
    requires fine { reader.old.error ≡ None }
    requires unread { reader.old.finished ≡ false }
    requires none { kept_of reader.old ≡ [] }
    ensures header { ReadsHeader (state_of S.left S.faults reader.old) (state_of S.left S.faults reader.new) result }
    ensures ahead { length (kept_of reader.new) ≤ MOST + 1 }
    ensures same { S.loan reader.new.source ≡ S.loan reader.old.source }
{
    match next_line(reader, 1) {
        Err(error) => Err(error),
        Ok(false) => Err(no_header()),
        Ok(true) => {
            if reader.line() == HEADER.as_slice() {
                Ok(())
            } else {
                Err(no_header())
            }
        }
    }
}

/// The file of a reader that has given nothing yet, up to the first line that is refused.
pub fn read_lines<S: Source + Drop>(
    alloc: Global,
    reader: &mut LineReader<S>,
) -> Result<StreamFile, StreamError>
    requires fine { reader.old.error ≡ None }
    requires unread { reader.old.finished ≡ false }
    requires none { kept_of reader.old ≡ [] }
    ensures file { let source = source_of (state_of S.left S.faults reader.old) (state_of S.left S.faults reader.new) in
        IfOk result (λ file. ReadsFile source (file_parts file)) }
    ensures error { let source = source_of (state_of S.left S.faults reader.old) (state_of S.left S.faults reader.new) in
        IfErr result (ReadsNot source) }
    ensures same { S.loan reader.new.source ≡ S.loan reader.old.source }
{
    match read_header(reader) {
        Ok(()) => {}
        Err(error) => return Err(error),
    }
    let mut intake = Intake::new(alloc);
    let mut number: u64 = 2;
    loop {
        match next_line(reader, number) {
            Err(error) => return Err(error),
            Ok(false) => return intake.finish(number),
            Ok(true) => {}
        }
        match intake.take_line(reader.line()) {
            Ok(()) => {}
            Err(error) => return Err(not_taken(number, error)),
        }
        number += 1;
    }
}
