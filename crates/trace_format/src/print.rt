//! How an event is printed: each function puts one part of its spelling behind what is there.
ghost use Rattle.std.specs.Prelude.{◌≡◌, ◌++◌, OnErr, OnOk, codes, decimal, map};
ghost use Rattle.std.specs.List.{flat_map};
ghost use Rattle.command_tables.specs.Table.{row_of};
ghost use Rattle.trace_format.specs.Content.{Begin, Return, arg_content, content};
ghost use Rattle.trace_format.specs.Grammar.{IsEvent, arg_text, code_text, name_text, one_text, payload_text, results_text, spelling};
ghost use Rattle.trace_format.specs.Printing.{Keeps, further, listed};

use crate::event::{Event, Name, TraceArg};
use command_tables::{Code, CommandId, NoMemory, row};
use itoa::Buffer;
use std::alloc::AllocError;

#[tactic(auto, using(crate::proofs::PrintLemmas::whole))]
fn put(bytes: &[u8], out: &mut Vec<u8>) -> Result<(), AllocError>
    ensures ok { OnOk result (out.new.items ≡ out.old.items ++ bytes.now) }
    ensures err { OnErr result (Keeps out.old.items out.new.items) }
{
    out.extend_from_slice(bytes)
}

fn put_number(n: u32, out: &mut Vec<u8>) -> Result<(), AllocError>
    ensures ok { OnOk result (out.new.items ≡ out.old.items ++ decimal n) }
    ensures err { OnErr result (Keeps out.old.items out.new.items) }
{
    put(Buffer::new().format(n).as_bytes(), out)
}

#[tactic(auto, using(std::proofs::lemmas::List::append_assoc, crate::proofs::PrintLemmas::keeps_more))]
fn put_name(name: Name, out: &mut Vec<u8>) -> Result<(), AllocError>
    ensures ok { OnOk result (out.new.items ≡ out.old.items ++ name_text name) }
    ensures err { OnErr result (Keeps out.old.items out.new.items) }
{
    put(b"%", out)?;
    put_number(name.thread, out)?;
    put(b".", out)?;
    put_number(name.number, out)
}

fn put_place(place: Option<Name>, out: &mut Vec<u8>) -> Result<(), AllocError>
    ensures ok { OnOk result (out.new.items ≡ out.old.items ++ one_text place) }
    ensures err { OnErr result (Keeps out.old.items out.new.items) }
{
    match place {
        None => put(b"null", out),
        Some(name) => put_name(name, out),
    }
}

// Each place behind a comma.
#[tactic(auto, using(std::proofs::lemmas::List::append_assoc, crate::proofs::PrintLemmas::keeps_more))]
fn put_further_places(places: &[Option<Name>], out: &mut Vec<u8>) -> Result<(), AllocError>
    ensures ok { OnOk result (out.new.items ≡ out.old.items ++ further one_text places.now) }
    ensures err { OnErr result (Keeps out.old.items out.new.items) }
{
    for place in places {
        put(b",", out)?;
        put_place(*place, out)?;
    }
    Ok(())
}

// The places with commas between them.
#[tactic(auto, using(std::proofs::lemmas::List::append_assoc, crate::proofs::PrintLemmas::keeps_more))]
fn put_places(places: &[Option<Name>], out: &mut Vec<u8>) -> Result<(), AllocError>
    ensures ok { OnOk result (out.new.items ≡ out.old.items ++ listed one_text places.now) }
    ensures err { OnErr result (Keeps out.old.items out.new.items) }
{
    match places {
        [] => Ok(()),
        [first, rest @ ..] => {
            put_place(*first, out)?;
            put_further_places(rest, out)
        }
    }
}

// Each name behind a comma.
#[tactic(auto, using(std::proofs::lemmas::List::append_assoc, crate::proofs::PrintLemmas::keeps_more))]
fn put_further_names(names: &[Name], out: &mut Vec<u8>) -> Result<(), AllocError>
    ensures ok { OnOk result (out.new.items ≡ out.old.items ++ further name_text names.now) }
    ensures err { OnErr result (Keeps out.old.items out.new.items) }
{
    for name in names {
        put(b",", out)?;
        put_name(*name, out)?;
    }
    Ok(())
}

#[tactic(auto, using(std::proofs::lemmas::List::append_assoc, crate::proofs::PrintLemmas::keeps_more, crate::proofs::PrintLemmas::listed_joined))]
fn put_argument(arg: &TraceArg, out: &mut Vec<u8>) -> Result<(), AllocError>
    ensures ok { OnOk result (out.new.items ≡ out.old.items ++ arg_text (arg_content arg.now)) }
    ensures err { OnErr result (Keeps out.old.items out.new.items) }
{
    if !arg.many {
        return put_places(&arg.names, out);
    }
    put(b"[", out)?;
    put_places(&arg.names, out)?;
    put(b"]", out)
}

// Each argument behind a space.
#[tactic(auto, using(std::proofs::lemmas::List::append_assoc, crate::proofs::PrintLemmas::keeps_more))]
fn put_arguments(args: &[TraceArg], out: &mut Vec<u8>) -> Result<(), AllocError>
    ensures ok { OnOk result (out.new.items ≡ out.old.items ++ flat_map (λ a. codes " " ++ arg_text (arg_content a)) args.now) }
    ensures err { OnErr result (Keeps out.old.items out.new.items) }
{
    for arg in args {
        put(b" ", out)?;
        put_argument(arg, out)?;
    }
    Ok(())
}

// The names with commas between them.
#[tactic(auto, using(std::proofs::lemmas::List::append_assoc, crate::proofs::PrintLemmas::keeps_more))]
fn put_names(names: &[Name], out: &mut Vec<u8>) -> Result<(), AllocError>
    ensures ok { OnOk result (out.new.items ≡ out.old.items ++ listed name_text names.now) }
    ensures err { OnErr result (Keeps out.old.items out.new.items) }
{
    match names {
        [] => Ok(()),
        [first, rest @ ..] => {
            put_name(*first, out)?;
            put_further_names(rest, out)
        }
    }
}

#[tactic(auto, using(std::proofs::lemmas::List::append_assoc, crate::proofs::PrintLemmas::keeps_more, crate::proofs::PrintLemmas::results_none, crate::proofs::PrintLemmas::results_listed))]
fn put_results(names: &[Name], out: &mut Vec<u8>) -> Result<(), AllocError>
    ensures ok { OnOk result (out.new.items ≡ out.old.items ++ results_text names.now) }
    ensures err { OnErr result (Keeps out.old.items out.new.items) }
{
    if names.is_empty() {
        return Ok(());
    }
    put(b" = ", out)?;
    put_names(names, out)
}

fn code_name(code: Option<Code>) -> &'static str
    ensures { result.now ≡ code_text code }
{
    match code {
        None => "void",
        Some(code) => code.name(),
    }
}

#[tactic(auto, using(std::proofs::lemmas::List::append_assoc, crate::proofs::PrintLemmas::keeps_more))]
fn put_code(code: Option<Code>, out: &mut Vec<u8>) -> Result<(), AllocError>
    ensures ok { OnOk result (out.new.items ≡ out.old.items ++ (codes " " ++ code_text code)) }
    ensures err { OnErr result (Keeps out.old.items out.new.items) }
{
    put(b" ", out)?;
    put(code_name(code).as_bytes(), out)
}

#[tactic(auto, using(std::proofs::lemmas::List::append_assoc, crate::proofs::PrintLemmas::keeps_more))]
fn put_payload(payload: &[u8], out: &mut Vec<u8>) -> Result<(), AllocError>
    ensures ok { OnOk result (out.new.items ≡ out.old.items ++ payload_text payload.now) }
    ensures err { OnErr result (Keeps out.old.items out.new.items) }
{
    match payload {
        [] => Ok(()),
        [_, ..] => {
            put(b" : ", out)?;
            put(payload, out)
        }
    }
}

// The front of a begin: its thread and its command.
#[tactic(auto, using(std::proofs::lemmas::List::append_assoc, crate::proofs::PrintLemmas::keeps_more))]
fn put_command(thread: u32, cmd: CommandId, out: &mut Vec<u8>) -> Result<(), AllocError>
    ensures ok { OnOk result (out.new.items ≡ out.old.items ++ (codes "b " ++ (decimal thread ++ (codes " " ++ (row_of cmd).name)))) }
    ensures err { OnErr result (Keeps out.old.items out.new.items) }
{
    put(b"b ", out)?;
    put_number(thread, out)?;
    put(b" ", out)?;
    put(row(cmd).name.as_bytes(), out)
}

// What follows the arguments.
#[tactic(auto, using(std::proofs::lemmas::List::append_assoc, crate::proofs::PrintLemmas::keeps_more))]
fn put_ending(
    results: &[Name],
    code: Option<Code>,
    payload: &[u8],
    out: &mut Vec<u8>,
) -> Result<(), AllocError>
    ensures ok { OnOk result (out.new.items ≡ out.old.items ++ (results_text results.now ++ (codes " " ++ (code_text code ++ payload_text payload.now)))) }
    ensures err { OnErr result (Keeps out.old.items out.new.items) }
{
    put_results(results, out)?;
    put_code(code, out)?;
    put_payload(payload, out)
}

// The spelling of a begin.
#[tactic(auto, using(std::proofs::lemmas::List::append_assoc, crate::proofs::PrintLemmas::keeps_more, crate::proofs::PrintLemmas::args_listed))]
fn put_begin(
    thread: u32,
    cmd: CommandId,
    args: &[TraceArg],
    results: &[Name],
    code: Option<Code>,
    payload: &[u8],
    out: &mut Vec<u8>,
) -> Result<(), AllocError>
    ensures ok { OnOk result (out.new.items ≡ out.old.items ++ spelling (Begin (record { thread = thread; cmd = cmd; args = map arg_content args.now; results = results.now; code = code; payload = payload.now }))) }
    ensures err { OnErr result (Keeps out.old.items out.new.items) }
{
    put_command(thread, cmd, out)?;
    put_arguments(args, out)?;
    put_ending(results, code, payload, out)
}

// The spelling of a return.
#[tactic(auto, using(std::proofs::lemmas::List::append_assoc, crate::proofs::PrintLemmas::keeps_more))]
fn put_return(thread: u32, out: &mut Vec<u8>) -> Result<(), AllocError>
    ensures ok { OnOk result (out.new.items ≡ out.old.items ++ spelling (Return thread)) }
    ensures err { OnErr result (Keeps out.old.items out.new.items) }
{
    put(b"r ", out)?;
    put_number(thread, out)
}

fn put_event(event: &Event, out: &mut Vec<u8>) -> Result<(), AllocError>
    ensures ok { OnOk result (out.new.items ≡ out.old.items ++ spelling (content event.now)) }
    ensures err { OnErr result (Keeps out.old.items out.new.items) }
{
    match event {
        Event::Return { thread } => put_return(*thread, out),
        Event::Begin {
            thread,
            cmd,
            args,
            results,
            code,
            payload,
        } => put_begin(*thread, *cmd, args, results, *code, payload, out),
    }
}

#[tactic(auto, using(std::proofs::lemmas::List::append_assoc, crate::proofs::PrintLemmas::keeps_more))]
fn put_line(event: &Event, out: &mut Vec<u8>) -> Result<(), AllocError>
    ensures ok { OnOk result (out.new.items ≡ out.old.items ++ (spelling (content event.now) ++ codes "\n")) }
    ensures err { OnErr result (Keeps out.old.items out.new.items) }
{
    put_event(event, out)?;
    put(b"\n", out)
}

/// Appends the one line that spells an event of the grammar, with its line feed. After `NoMemory` the bytes are as before.
pub fn print_line(event: &Event, out: &mut Vec<u8>) -> Result<(), NoMemory>
    requires { IsEvent (content event.now) }
    ensures ok { OnOk result (out.new.items ≡ out.old.items ++ (spelling (content event.now) ++ codes "\n")) }
    ensures err { OnErr result (out.new.items ≡ out.old.items) }
{
    let before = out.len();
    match put_line(event, out) {
        Ok(()) => Ok(()),
        Err(_) => {
            out.truncate(before);
            Err(NoMemory)
        }
    }
}
