//! The code and the payload, which end a begin.
ghost use Rattle.std.specs.Prelude.{◌≡◌, option_map};
ghost use Rattle.std.specs.Option.{ok_or};
ghost use Rattle.command_tables.specs.Table.{seen};
ghost use Rattle.trace_format.specs.declared.fault.TraceFault.TheVariants as fault;
ghost use Rattle.trace_format.specs.Words.{code_of};
ghost use Rattle.trace_format.specs.Reading.{code_at, payload_at};
ghost use Rattle.trace_format.specs.Steps.{Answers};

use crate::fault::TraceFault;
use crate::parse::error::ParseError;
use crate::parse::room::EventRoom;
use crate::parse::words::split_before;
use command_tables::{Code, Row};

/// A code, or none for `void`.
fn code_word(word: &[u8]) -> Option<Option<Code>>
    ensures { result ≡ code_of word.now }
{
    if word == b"void".as_slice() {
        return Some(None);
    }
    Some(Some(Code::find(word)?))
}

/// The code that stands after one space, where it is of the row's form, and what follows it.
pub fn code<'a>(row: &Row, bytes: &'a [u8]) -> Option<(Option<Code>, &'a [u8])>
    ensures { option_map (λ r. (r.0, r.1.now)) result ≡ code_at (seen row.now) bytes.now }
{
    let (word, after) = split_before(b' ', bytes.strip_prefix(b" ")?);
    let code = code_word(word)?;
    if code.is_some() != row.returns {
        return None;
    }
    Some((code, after))
}

/// The payload, to the end of the line.
pub fn payload(room: &mut EventRoom, bytes: &[u8]) -> Result<Vec<u8>, ParseError>
    ensures { Answers (λ v. v.items) result (ok_or (payload_at bytes.now) fault.Code) }
{
    let mut payload = room.take_payload();
    if bytes.is_empty() {
        return Ok(payload);
    }
    match bytes.strip_prefix(b" : ") {
        Some(rest) if !rest.is_empty() => {
            payload.extend_from_slice(rest)?;
            Ok(payload)
        }
        _ => Err(ParseError::Fault(TraceFault::Code)),
    }
}
