//! A line, from its front.
ghost use Rattle.std.specs.Prelude.{◌≡◌, IfOk, codes, map};
ghost use Rattle.std.specs.List.{list_all};
ghost use Rattle.command_tables.specs.Table.{seen};
ghost use Rattle.trace_format.specs.Content.{content, arg_content};
ghost use Rattle.trace_format.specs.Grammar.{IsEvent, is_printable};
ghost use Rattle.trace_format.specs.Words.{after, command_of};
ghost use Rattle.trace_format.specs.Reading.{begin_at, by_letter, read_line, return_at, tail_at};
ghost use Rattle.trace_format.specs.Steps.{Answers, end_with};

use crate::event::{Event, TraceArg};
use crate::fault::TraceFault;
use crate::parse::arguments::{after_words, arguments};
use crate::parse::endings::{code, payload};
use crate::parse::error::ParseError;
use crate::parse::names::thread;
use crate::parse::printable::is_ascii;
use crate::parse::results::{results, split_results};
use crate::parse::room::EventRoom;
use crate::parse::words::split_before;
use command_tables::{CommandId, Row, find, row};
use std::alloc::Global;

/// The command with a name.
fn command(word: &[u8]) -> Option<CommandId>
    ensures { result ≡ command_of word.now }
{
    find(word)
}

/// A begin, once its arguments are read.
fn end_begin(
    room: &mut EventRoom,
    thread: u32,
    cmd: CommandId,
    args: Vec<TraceArg>,
    bytes: &[u8],
) -> Result<Event, ParseError>
    ensures { Answers content result (end_with thread cmd (map arg_content args.items) bytes.now) }
{
    let row = row(cmd);
    let (word, after) = split_results(bytes);
    let results = results(room, row.effect, word)?;
    let Some((code, after)) = code(row, after) else {
        return Err(ParseError::Fault(TraceFault::Code));
    };
    let payload = payload(room, after)?;
    Ok(Event::Begin {
        thread,
        cmd,
        args,
        results,
        code,
        payload,
    })
}

/// A begin, from its arguments on.
fn begin_with(
    room: &mut EventRoom,
    thread: u32,
    cmd: CommandId,
    bytes: &[u8],
) -> Result<Event, ParseError>
    ensures { Answers content result (tail_at thread cmd bytes.now) }
{
    let row = row(cmd);
    let Some(after) = after_words(row.params, bytes) else {
        return Err(ParseError::Fault(TraceFault::Parameter));
    };
    let args = arguments(room, row.params, bytes)?;
    end_begin(room, thread, cmd, args, after)
}

/// A begin, from its thread on.
#[tactic(auto, unfolding(crate::specs::Reading::begin_at))]
fn begin_at(room: &mut EventRoom, bytes: &[u8]) -> Result<Event, ParseError>
    ensures { Answers content result (begin_at bytes.now) }
{
    let (word, after) = split_before(b' ', bytes);
    let Some(thread) = thread(word) else {
        return Err(ParseError::Fault(TraceFault::Thread));
    };
    let Some(rest) = after.strip_prefix(b" ") else {
        return Err(ParseError::Fault(TraceFault::Thread));
    };
    let (word, after) = split_before(b' ', rest);
    match command(word) {
        None => Err(ParseError::Fault(TraceFault::Command)),
        Some(cmd) => begin_with(room, thread, cmd, after),
    }
}

/// A return, from its thread on.
#[tactic(auto, unfolding(crate::specs::Reading::return_at))]
fn return_at(bytes: &[u8]) -> Result<Event, ParseError>
    ensures { Answers content result (return_at bytes.now) }
{
    match thread(bytes) {
        None => Err(ParseError::Fault(TraceFault::Thread)),
        Some(thread) => Ok(Event::Return { thread }),
    }
}

/// A begin or a return, by how the line begins.
fn by_letter(room: &mut EventRoom, line: &[u8]) -> Result<Event, ParseError>
    ensures { Answers content result
        (by_letter (after (codes "b ") line.now) (after (codes "r ") line.now)) }
{
    if let Some(rest) = line.strip_prefix(b"b ") {
        return begin_at(room, rest);
    }
    match line.strip_prefix(b"r ") {
        None => Err(ParseError::Fault(TraceFault::Letter)),
        Some(rest) => return_at(rest),
    }
}

impl EventRoom {
    /// The event that a line spells, as `parse_line` reads it, in the room of events that were given back.
    #[tactic(auto, unfolding(crate::specs::Reading::read_line))]
    pub fn parse(&mut self, line: &[u8]) -> Result<Event, ParseError>
        ensures answer { Answers content result (read_line line.now) }
        ensures grammar { IfOk result (λ event. IsEvent (content event)) }
    {
        if !is_ascii(line) {
            return Err(ParseError::Fault(TraceFault::NotAscii));
        }
        by_letter(self, line)
    }
}

/// The event that a line spells, without its line feed, or the first of its faults `NotAscii` to `Code`. `NoMemory` says
/// nothing of the line.
pub fn parse_line(alloc: Global, line: &[u8]) -> Result<Event, ParseError>
    ensures answer { Answers content result (read_line line.now) }
    ensures grammar { IfOk result (λ event. IsEvent (content event)) }
{
    EventRoom::new(alloc).parse(line)
}
