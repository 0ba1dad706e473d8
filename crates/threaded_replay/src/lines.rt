//! The lines of a stream file, one at a time.
ghost use Rattle.std.specs.Prelude.{◌≡◌, ◌≤◌, ◌+◌, true, false, if◌then◌else◌, length, nat_lt, None, Ok, Err};
ghost use Rattle.replay_base.specs.Reader.{kept_of, line_of, state_of};
ghost use Rattle.replay_base.specs.declared.limit.TheConstants.{MOST_LINE_BYTES};
ghost use Rattle.replay_base.specs.declared.limit.Which.TheVariants as which;
ghost use Rattle.replay_base.specs.declared.line.Line.TheVariants as line;
ghost use Rattle.replay_model.specs.declared.TheConstants.{MOST_LINES as MOST};
ghost use Rattle.threaded_replay.specs.declared.error.StreamError.TheVariants as error;
ghost use Rattle.threaded_replay.specs.Reading.{FindsLine};

use crate::error::StreamError;
use replay_base::{Line, LineError, LineReader, Source, Which};
use replay_model::MOST_LINES;

// The limit that the line with this number passes, if it is too long.
fn limit_at(number: u64) -> Which
    ensures { result ≡ (if nat_lt MOST number then which.Lines else which.LineBytes) }
{
    if number > MOST_LINES {
        Which::Lines
    } else {
        Which::LineBytes
    }
}

// Whether what was found is a line, which may have this number.
fn taken(found: Line, number: u64) -> Result<bool, StreamError>
    ensures end { found ≡ line.End → result ≡ Ok false }
    ensures text { found ≡ line.Text → result ≡ (if nat_lt MOST number then Err (error.Limit which.Lines) else Ok true) }
{
    match found {
        Line::End => Ok(false),
        Line::Text => {
            if number > MOST_LINES {
                Err(StreamError::Limit {
                    which: Which::Lines,
                })
            } else {
                Ok(true)
            }
        }
    }
}

/// Whether there is a line with this number, which the reader then lends.
pub fn next_line<S: Source + Drop>(
    reader: &mut LineReader<S>,
    number: u64,
) -> Result<bool, StreamError>
    requires fine { reader.old.error ≡ None }
    ensures finds { FindsLine (state_of S.left S.faults reader.old) (state_of S.left S.faults reader.new) number (line_of reader.new) result }
    ensures few { result ≡ Ok true → number ≤ MOST }
    ensures ahead { length (kept_of reader.new) ≤ MOST_LINE_BYTES + 1 }
    ensures same { S.loan reader.new.source ≡ S.loan reader.old.source }
{
    match reader.advance() {
        Ok(found) => taken(found, number),
        Err(LineError::TooLong { .. }) => Err(StreamError::Limit {
            which: limit_at(number),
        }),
        Err(LineError::Read) => Err(StreamError::Read),
        Err(LineError::NoMemory) => Err(StreamError::NoMemory),
    }
}
