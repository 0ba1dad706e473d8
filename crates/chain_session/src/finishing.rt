// The return of a thread's open call.
ghost use Rattle.std.specs.Prelude.{◌≡◌, ◌++◌, ℕ, List, Some, IfOk, OnOk, length};
ghost use Rattle.model_driver.specs.Logs.{Log};
ghost use Rattle.trace_format.specs.Content.{Return};
ghost use Rattle.chain_model.specs.Traces.{GivesGuarded};
ghost use Rattle.chain_build.specs.Setup.{SetupContent};
ghost use Rattle.report_text.specs.Setups.{trace_setup};
ghost use Rattle.chain_session.specs.declared.kept.Kept.{Kept};
ghost use Rattle.chain_session.specs.Standing.{Advances, CanCome};
ghost use Rattle.replay_model.specs.Past.{is_skipped};
ghost use Rattle.replay_model.specs.Setup.{Setup};
ghost use Rattle.replay_model.specs.Text.{return_text};
ghost use Rattle.dispatch_chain.specs.Seats.{kinds_of};
ghost use Rattle.chain_session.specs.Finishing.{CanFinish, Finishes};
ghost use Rattle.chain_session.specs.Opened.{opened_of};
ghost use Rattle.chain_session.specs.Raising.{ComesBack, MayRaise, made_at};
ghost use Rattle.chain_session.specs.Shown.{refusal_at};

use crate::call::{OpenCall, returning};
use crate::kept::Kept;
use crate::raising::raise;
use crate::reporting::{Returning, put_return};
use crate::room::Room;
use crate::sending::is_skipped;
use command_tables::NoMemory;
use dispatch_chain::DispatchTable;
use session_parts::{SessionParts, put_made};

// What the line of a call's return is made of.
fn line_of(call: &OpenCall, drivers: u32) -> Returning
    ensures { result ≡ record { number = call.now.number; cmd = call.now.cmd; code = call.now.code; refusal = call.now.refusal; skipped = is_skipped (opened_of call.now); results = length call.now.results.items; drivers = drivers } }
{
    Returning {
        number: call.number,
        cmd: call.cmd,
        code: call.code,
        refusal: call.refusal,
        skipped: is_skipped(call),
        results: call.results.len(),
        drivers,
    }
}

// Adds the line of a call's return.
fn put_line(call: &OpenCall, drivers: u32, born: usize, lines: &mut Vec<u8>) -> Result<(), NoMemory>
    ensures { (s : Setup) → call.now.refusal ≡ refusal_at s call.now.cmd call.now.payload.items → s.drivers ≡ drivers → OnOk result (lines.new.items ≡ lines.old.items ++ return_text s (opened_of call.now) born) }
{
    let count = u32::try_from(born).ok().ok_or(NoMemory)?;
    put_return(line_of(call, drivers), count, lines)
}

// The results of an open call come up, and what is born is kept. Answers how many are born.
fn come_back(
    table: &mut DispatchTable,
    parts: &mut SessionParts,
    room: &mut Room,
    drivers: u32,
    call: &OpenCall,
) -> Result<usize, NoMemory>
    requires table { table.old.rows ≡ kinds_of parts.old.states.kept }
    requires drivers { drivers ≡ parts.old.terminator.drivers }
    requires may { MayRaise parts.old.states.kept parts.old.terminator call.now (made_at parts.old call.now) }
    ensures ok { IfOk result (ComesBack parts.old call.now parts.new) }
    ensures table { table.new.rows ≡ kinds_of parts.new.states.kept }
{
    let returned = returning(call);
    let mut born = room.born.take();
    put_made(
        parts.names.objects(),
        parts.names.retrieved(),
        drivers,
        returned,
        &mut born,
    )?;
    raise(
        table,
        &mut parts.states,
        &mut parts.terminator,
        &mut parts.names,
        call,
        &born,
        room,
    )?;
    parts.names.settle(returned, &born)?;
    let count = born.len();
    room.born.keep(born);
    Ok(count)
}

/// The return of a thread's open call: its results come up, what is born is kept, and its line is added. A count of results that would
/// pass 32 bits is refused as want of memory. After `NoMemory` all that is kept is for dropping alone, and anything may stand behind the
/// lines.
pub(crate) fn finish_call(
    table: &mut DispatchTable,
    kept: &mut Kept,
    room: &mut Room,
    drivers: u32,
    thread: u32,
    lines: &mut Vec<u8>,
) -> Result<(), NoMemory>
    requires table { table.old.rows ≡ kinds_of kept.old.parts.states.kept }
    requires drivers { drivers ≡ kept.old.parts.terminator.drivers }
    requires can { CanFinish kept.old thread }
    ensures ok { OnOk result (Finishes kept.old kept.new thread lines.old.items lines.new.items) }
    ensures table { table.new.rows ≡ kinds_of kept.new.parts.states.kept }
    ensures calls { kept.new.calls ≡ kept.old.calls }
{
    match kept.open_calls.find(thread) {
        None => Ok(()),
        Some(call) => {
            let born = come_back(table, &mut kept.parts, room, drivers, call)?;
            put_line(call, drivers, born, lines)?;
            if let Some(call) = kept.open_calls.close(thread) {
                room.give_back(call);
            }
            Ok(())
        }
    }
}

// What a trace allows may be done, and is one event more.
fn a_return_may_come()
    ensures can { (s : Setup) (x : Kept) (thread : ℕ) → GivesGuarded s → CanCome s (Some x) (Return thread) → CanFinish x thread }
    ensures guarded { (setup : SetupContent) → GivesGuarded (trace_setup setup) }
    ensures advances { (s : Setup) (x new : Kept) (thread : ℕ) (log : Log) (lines0 lines1 : List ℕ) → GivesGuarded s → Finishes x new thread lines0 lines1 → Advances s (Some x) (Some new) (Return thread) log log lines0 lines1 }
{}
