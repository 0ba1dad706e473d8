// A generated trace, written to a sink.
ghost use Rattle.std.specs.Prelude.{◌≤◌, vec_capacity};
ghost use Rattle.replay_base.specs.Changes.{changed};
ghost use Rattle.trace_gen.specs.declared.text.TheConstants.{LINE_ROOM as ROOM};
ghost use Rattle.trace_gen.specs.declared.turns.TheConstants.{MOST_CALLS as MOST};
ghost use Rattle.trace_gen.specs.Left.{calls_left};
ghost use Rattle.trace_gen.specs.Text.{begin_of, call_text, calls_text, event_line, generated};
ghost use Rattle.trace_gen.specs.Writing.{Puts, Writes};

use crate::GenError;
use crate::call::Call;
use crate::text::{HEADER_LINE, LINE_ROOM, RETURN_LINE, put_begin};
use crate::turns::Generator;
use replay_base::{Sink, put_all};
use std::alloc::Global;

// Writes a line.
fn put_line<K: Sink>(line: &[u8], sink: &mut K) -> Result<(), GenError>
    ensures { Puts line.now (changed (K.held sink.old) (K.held sink.new) (K.faults sink.old) (K.faults sink.new)) result }
{
    match put_all(sink, line) {
        Ok(()) => Ok(()),
        Err(_) => Err(GenError::Write),
    }
}

// Writes the line of a call's begin, which is made in room that is used again.
fn write_begin<K: Sink>(call: Call, line: &mut Vec<u8>, sink: &mut K) -> Result<(), GenError>
    requires { ROOM ≤ vec_capacity line.old }
    ensures writes { Puts (event_line (begin_of call)) (changed (K.held sink.old) (K.held sink.new) (K.faults sink.old) (K.faults sink.new)) result }
    ensures room { ROOM ≤ vec_capacity line.new }
{
    line.clear();
    put_begin(call, line);
    put_line(line, sink)
}

// Writes the two lines of a call.
fn write_call<K: Sink>(call: Call, line: &mut Vec<u8>, sink: &mut K) -> Result<(), GenError>
    requires { ROOM ≤ vec_capacity line.old }
    ensures writes { Puts (call_text call) (changed (K.held sink.old) (K.held sink.new) (K.faults sink.old) (K.faults sink.new)) result }
    ensures room { ROOM ≤ vec_capacity line.new }
{
    match write_begin(call, line, sink) {
        Ok(()) => put_line(&RETURN_LINE, sink),
        Err(error) => Err(error),
    }
}

// Writes the lines of the calls to come.
#[tactic(auto, using(crate::proofs::WriteLemmas::begun_with, crate::proofs::WriteLemmas::begun_more, crate::proofs::WriteLemmas::begun_cut, crate::proofs::WriteLemmas::begun_all))]
fn write_calls<K: Sink>(
    generator: &mut Generator,
    line: &mut Vec<u8>,
    sink: &mut K,
) -> Result<(), GenError>
    requires { ROOM ≤ vec_capacity line.old }
    ensures { Puts (calls_text (calls_left generator.old)) (changed (K.held sink.old) (K.held sink.new) (K.faults sink.old) (K.faults sink.new)) result }
{
    while let Some(call) = generator.next_call() {
        if let Err(error) = write_call(call, line, sink) {
            return Err(error);
        }
    }
    Ok(())
}

/// Writes the trace of a number with so many turns, at most 1,000,000: a header, three calls that make an instance and a device, a call for
/// each turn, and those that destroy what is left. Each line is one `put_all`. All memory is taken before the first line: after `NoMemory`
/// nothing was written. `Write` comes only where the sink failed; it took a front of the text then.
pub fn generate<K: Sink>(
    alloc: Global,
    number: u64,
    calls: u32,
    sink: &mut K,
) -> Result<(), GenError>
    requires { calls ≤ MOST }
    ensures { Writes (generated number calls) (changed (K.held sink.old) (K.held sink.new) (K.faults sink.old) (K.faults sink.new)) result }
{
    let Ok(mut generator) = Generator::new(alloc, number, calls) else {
        return Err(GenError::NoMemory);
    };
    let Ok(mut line) = Vec::with_capacity(alloc, LINE_ROOM) else {
        return Err(GenError::NoMemory);
    };
    match put_line(&HEADER_LINE, sink) {
        Ok(()) => write_calls(&mut generator, &mut line, sink),
        Err(error) => Err(error),
    }
}
