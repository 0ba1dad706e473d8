//! The results of a begin, as its effect needs them.
ghost use Rattle.std.specs.Prelude.{◌≡◌, option_copied};
ghost use Rattle.std.specs.Option.{ok_or};
ghost use Rattle.trace_format.specs.declared.fault.TraceFault.TheVariants as fault;
ghost use Rattle.trace_format.specs.Grammar.{takes};
ghost use Rattle.trace_format.specs.Words.{all_of, name_of, pieces};
ghost use Rattle.trace_format.specs.Steps.{Answers, after_results, names_of_word, results_of, results_word};

use crate::event::Name;
use crate::fault::TraceFault;
use crate::limits::MAX_PLACES;
use crate::parse::error::ParseError;
use crate::parse::names::name;
use crate::parse::room::EventRoom;
use crate::parse::words::{split_before, split_piece};
use command_tables::Effect;

/// Whether a command of this effect has so many results.
fn takes(effect: Effect, count: usize) -> bool
    ensures { result ≡ takes effect count }
{
    match effect {
        Effect::Create { many, .. } | Effect::Retrieve { many, .. } => {
            if many {
                count <= MAX_PLACES as usize
            } else {
                count == 1
            }
        }
        _ => count == 0,
    }
}

/// The names between commas.
fn names_between(room: &mut EventRoom, word: &[u8]) -> Result<Vec<Name>, ParseError>
    ensures { Answers (λ v. v.items) result
        (ok_or (all_of name_of (pieces word.now)) fault.Results) }
{
    let mut names = room.take_results();
    let mut rest = Some(word);
    while let Some(bytes) = rest {
        let (piece, after) = split_piece(bytes);
        let Some(name) = name(piece) else {
            return Err(ParseError::Fault(TraceFault::Results));
        };
        names.push(name)?;
        rest = after;
    }
    Ok(names)
}

/// The word of results, where ` = ` stands before it, and what follows.
pub fn split_results(bytes: &[u8]) -> (Option<&[u8]>, &[u8])
    ensures word { option_copied result.0 ≡ results_word bytes.now }
    ensures rest { result.1.now ≡ after_results bytes.now }
{
    match bytes.strip_prefix(b" = ") {
        None => (None, bytes),
        Some(rest) => {
            let (word, after) = split_before(b' ', rest);
            (Some(word), after)
        }
    }
}

/// The names of a word of results, or none where there is no word.
fn names_of(room: &mut EventRoom, word: Option<&[u8]>) -> Result<Vec<Name>, ParseError>
    ensures { Answers (λ v. v.items) result
        (ok_or (names_of_word (option_copied word.entry)) fault.Results) }
{
    match word {
        None => Ok(room.take_results()),
        Some(word) => names_between(room, word),
    }
}

/// The results that a command of this effect has.
pub fn results(
    room: &mut EventRoom,
    effect: Effect,
    word: Option<&[u8]>,
) -> Result<Vec<Name>, ParseError>
    ensures { Answers (λ v. v.items) result
        (ok_or (results_of effect (option_copied word.entry)) fault.Results) }
{
    let names = names_of(room, word)?;
    if !takes(effect, names.len()) {
        return Err(ParseError::Fault(TraceFault::Results));
    }
    Ok(names)
}
