//! The arguments of a begin, each read by its parameter.
ghost use Rattle.std.specs.Prelude.{◌≡◌, map, is_some, option_copied, option_map, Ok};
ghost use Rattle.std.specs.List.{list_all};
ghost use Rattle.std.specs.Option.{ok_or};
ghost use Rattle.command_tables.specs.Table.{seen_param};
ghost use Rattle.trace_format.specs.declared.fault.TraceFault.TheVariants as fault;
ghost use Rattle.trace_format.specs.Content.{arg_content};
ghost use Rattle.trace_format.specs.Words.{all_of, arg_of, args_of, list_of, one_of, pieces, places_of, single};
ghost use Rattle.trace_format.specs.Reading.{args_in, has_first, words_at};
ghost use Rattle.trace_format.specs.Steps.{Answers, words_in};

use crate::event::{Name, TraceArg};
use crate::fault::TraceFault;
use crate::limits::MAX_PLACES;
use crate::parse::error::ParseError;
use crate::parse::names::one;
use crate::parse::room::EventRoom;
use crate::parse::words::{next_word, skip_one, split_before, split_piece};
use command_tables::Param;

/// The names between commas, where null is none.
fn names_between(room: &mut EventRoom, inside: &[u8]) -> Result<Vec<Option<Name>>, ParseError>
    ensures { Answers (λ v. v.items) result
        (ok_or (all_of one_of (pieces inside.now)) fault.Argument) }
{
    let mut names = room.take_places();
    let mut rest = Some(inside);
    while let Some(bytes) = rest {
        let (piece, after) = split_piece(bytes);
        let Some(one) = one(piece) else {
            return Err(ParseError::Fault(TraceFault::Argument));
        };
        names.push(one)?;
        rest = after;
    }
    Ok(names)
}

/// The places of a list, whose brackets are taken off.
fn places(room: &mut EventRoom, inside: &[u8]) -> Result<Vec<Option<Name>>, ParseError>
    ensures { Answers (λ v. v.items) result (ok_or (places_of inside.now) fault.Argument) }
{
    if inside.is_empty() {
        return Ok(room.take_places());
    }
    names_between(room, inside)
}

/// A list, in brackets.
#[tactic(auto, unfolding(crate::specs::Words::list_of))]
fn list(room: &mut EventRoom, word: &[u8]) -> Result<TraceArg, ParseError>
    ensures { Answers arg_content result (ok_or (list_of word.now) fault.Argument) }
{
    let Some(rest) = word.strip_prefix(b"[") else {
        return Err(ParseError::Fault(TraceFault::Argument));
    };
    let (inside, end) = split_before(b']', rest);
    let names = places(room, inside)?;
    if end != b"]".as_slice() || names.len() > MAX_PLACES as usize {
        return Err(ParseError::Fault(TraceFault::Argument));
    }
    Ok(TraceArg { many: true, names })
}

/// One place.
fn single(room: &mut EventRoom, one: Option<Name>) -> Result<TraceArg, ParseError>
    ensures { Answers arg_content result (Ok (single one)) }
{
    let mut names = room.take_places();
    names.push(one)?;
    Ok(TraceArg { many: false, names })
}

/// The argument of a parameter.
#[tactic(auto, unfolding(crate::specs::Words::arg_of))]
fn argument(room: &mut EventRoom, param: &Param, word: &[u8]) -> Result<TraceArg, ParseError>
    ensures { Answers arg_content result (ok_or (arg_of param.now.many word.now) fault.Argument) }
{
    if param.many {
        return list(room, word);
    }
    match one(word) {
        None => Err(ParseError::Fault(TraceFault::Argument)),
        Some(one) => single(room, one),
    }
}

/// The arguments that the words at the front spell.
fn all_arguments(
    room: &mut EventRoom,
    params: &[Param],
    bytes: &[u8],
) -> Result<Vec<TraceArg>, ParseError>
    ensures { let ps = map seen_param params.now in
        Answers (λ v. map arg_content v.items) result
        (ok_or (args_of ps (words_in ps bytes.now)) fault.Argument) }
{
    let mut args = room.take_args();
    let mut rest = bytes;
    for param in params {
        let (word, after) = split_before(b' ', skip_one(rest));
        args.push(argument(room, param, word)?)?;
        rest = after;
    }
    Ok(args)
}

/// What follows the words of the parameters, where each has one.
pub fn after_words<'a>(params: &[Param], bytes: &'a [u8]) -> Option<&'a [u8]>
    ensures { option_copied result
        ≡ option_map (λ x. x.1) (words_at (map seen_param params.now) bytes.now) }
{
    let mut rest = bytes;
    for _param in params {
        let (_, after) = next_word(rest)?;
        rest = after;
    }
    Some(rest)
}

/// Whether no place is null.
fn are_names(places: &[Option<Name>]) -> bool
    ensures { result ≡ list_all is_some places.now }
{
    places.iter().all(|place| place.is_some())
}

/// Whether the first argument, where there is one, is not null.
fn is_first_named(args: &[TraceArg]) -> bool
    ensures { result ≡ has_first (map arg_content args.now) }
{
    match args.first() {
        None => true,
        Some(arg) => are_names(&arg.names),
    }
}

/// The arguments of the parameters, whose words stand at the front, where the first is not null.
pub fn arguments(
    room: &mut EventRoom,
    params: &[Param],
    bytes: &[u8],
) -> Result<Vec<TraceArg>, ParseError>
    ensures { let ps = map seen_param params.now in
        Answers (λ v. map arg_content v.items) result
        (ok_or (args_in ps (words_in ps bytes.now)) fault.Argument) }
{
    let args = all_arguments(room, params, bytes)?;
    if !is_first_named(&args) {
        return Err(ParseError::Fault(TraceFault::Argument));
    }
    Ok(args)
}
