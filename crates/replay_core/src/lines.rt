// The lines of a trace, one at a time.
ghost use Rattle.std.specs.Prelude.{◌≡◌, ◌≤◌, ◌+◌, false, true, if◌then◌else◌, length, nat_lt, [], None, Ok, Err};
ghost use Rattle.trace_format.specs.declared.fault.TraceFault.TheVariants as fault;
ghost use Rattle.replay_base.specs.Changes.{changed};
ghost use Rattle.replay_base.specs.declared.line.Line.TheVariants as line;
ghost use Rattle.replay_base.specs.declared.limit.Which.TheVariants as which;
ghost use Rattle.replay_core.specs.declared.error.ReplayError.TheVariants as replay;
ghost use Rattle.replay_base.specs.Reader.{kept_of, line_of, state_of};
ghost use Rattle.replay_base.specs.declared.limit.TheConstants.{MOST_LINE_BYTES};
ghost use Rattle.replay_model.specs.declared.TheConstants.{MOST_LINES as MOST};
ghost use Rattle.replay_model.specs.Setup.{Setup as TraceSetup};
ghost use Rattle.replay_core.specs.Given.{HandsOn, ReadsHeader, TakesBehind, TakesLineOr};

use crate::error::ReplayError;
use replay_base::{Line, LineError, LineReader, Sink, Source, Which};
use replay_model::MOST_LINES;
use trace_format::{HEADER, TraceFault};

// The limit that the line with this number passes, if it is too long.
fn limit_at(number: u64) -> Which
    ensures { result ≡ (if nat_lt MOST number then which.Lines else which.LineBytes) }
{
    if number > MOST_LINES {
        Which::Lines
    } else {
        Which::LineBytes
    }
}

// Whether what was found is a line, which may have this number.
fn taken(found: Line, number: u64) -> Result<bool, ReplayError>
    ensures end { found ≡ line.End → result ≡ Ok false }
    ensures text { found ≡ line.Text → result ≡ (if nat_lt MOST number then Err (replay.Limit which.Lines) else Ok true) }
{
    match found {
        Line::End => Ok(false),
        Line::Text => {
            if number > MOST_LINES {
                Err(ReplayError::Limit {
                    which: Which::Lines,
                })
            } else {
                Ok(true)
            }
        }
    }
}

// Whether there is a line with this number, which the reader then lends.
fn next_line<S: Source + Drop>(reader: &mut LineReader<S>, number: u64) -> Result<bool, ReplayError>
    requires fine { reader.old.error ≡ None }
    ensures takes { TakesLineOr (state_of S.left S.faults reader.old) (state_of S.left S.faults reader.new) number (line_of reader.new) result }
    ensures few { result ≡ Ok true → number ≤ MOST }
    ensures ahead { length (kept_of reader.new) ≤ MOST_LINE_BYTES + 1 }
    ensures same { S.loan reader.new.source ≡ S.loan reader.old.source }
{
    match reader.advance() {
        Ok(found) => taken(found, number),
        Err(LineError::TooLong { .. }) => Err(ReplayError::Limit {
            which: limit_at(number),
        }),
        Err(LineError::Read) => Err(ReplayError::Read),
        Err(LineError::NoMemory) => Err(ReplayError::NoMemory),
    }
}

// The lines of the events in front of a line with this number are handed on, where there are any.
fn hand_on<K: Sink>(number: u64, out: &mut K) -> Result<(), ReplayError>
    ensures { HandsOn number (changed (K.held out.old) (K.held out.new) (K.faults out.old) (K.faults out.new)) result }
{
    if number <= 2 {
        return Ok(());
    }
    match out.flush() {
        Ok(()) => Ok(()),
        Err(_) => Err(ReplayError::Write),
    }
}

/// Whether there is a line with this number, which the reader then lends. Before the source is asked for it, the sink hands on what it
/// holds back of the lines so far: the source may let it wait.
pub fn line_behind<S: Source + Drop, K: Sink>(
    reader: &mut LineReader<S>,
    number: u64,
    out: &mut K,
) -> Result<bool, ReplayError>
    requires fine { reader.old.error ≡ None }
    ensures takes { TakesBehind (state_of S.left S.faults reader.old) (state_of S.left S.faults reader.new) number (line_of reader.new) (changed (K.held out.old) (K.held out.new) (K.faults out.old) (K.faults out.new)) result }
    ensures few { result ≡ Ok true → number ≤ MOST }
    ensures ahead { length (kept_of reader.new) ≤ MOST_LINE_BYTES + 1 }
    ensures same { S.loan reader.new.source ≡ S.loan reader.old.source }
{
    match reader.advance_kept() {
        Some(found) => taken(found.unwrap(), number),
        None => match hand_on(number, out) {
            Err(error) => Err(error),
            Ok(()) => next_line(reader, number),
        },
    }
}

fn no_header() -> ReplayError
    ensures { result ≡ replay.Trace 1 fault.Header }
{
    ReplayError::Trace {
        line: 1,
        fault: TraceFault::Header,
    }
}

/// The first line, which must be the header.
pub fn read_header<S: Source + Drop>(reader: &mut LineReader<S>) -> Result<(), ReplayError>
    requires fine { reader.old.error ≡ None }
    requires unread { reader.old.finished ≡ false }
    requires none { kept_of reader.old ≡ [] }
    ensures header { (s : TraceSetup) → ReadsHeader s (state_of S.left S.faults reader.old) (state_of S.left S.faults reader.new) result }
    ensures ahead { length (kept_of reader.new) ≤ MOST_LINE_BYTES + 1 }
    ensures same { S.loan reader.new.source ≡ S.loan reader.old.source }
{
    match next_line(reader, 1) {
        Err(error) => Err(error),
        Ok(false) => Err(no_header()),
        Ok(true) => {
            if reader.line() == HEADER.as_slice() {
                Ok(())
            } else {
                Err(no_header())
            }
        }
    }
}
