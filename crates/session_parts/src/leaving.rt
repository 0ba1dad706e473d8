// A call that had entered leaves.
ghost use Rattle.std.specs.Prelude.{◌≡◌, ◌≤◌, ◌+◌, ◌*◌, ℕ, List, IfOk, IsOk, OnOk, length, map, vec_capacity};
ghost use Rattle.command_tables.specs.Calls.{CallContent, call_content};
ghost use Rattle.model_driver.specs.Driver.{reply_shown};
ghost use Rattle.chain_model.specs.Simulated.{born_flags};
ghost use Rattle.terminator.specs.Calls.{born_where, drivers_for};
ghost use Rattle.dispatch_chain.specs.Holding.{IsHeldOf};
ghost use Rattle.dispatch_chain.specs.Seats.{kinds_of};
ghost use Rattle.dispatch_chain.specs.Room.{AllHaveBirths, KeepUses};
ghost use Rattle.terminator.specs.Room.{HasRoomForResults, bytes_with};
ghost use Rattle.session_parts.specs.Leaving.{ComesUp, HasComeUp, KeepsChain, MayComeUp, chain_up, opened_again, rising_again, rising_of};
ghost use Rattle.session_parts.specs.Opened.{returning_shown};
ghost use Rattle.session_parts.specs.Opening.{begin_content};
ghost use Rattle.session_parts.specs.Room.{HasRoomToComeUp, TakesResults};
ghost use Rattle.session_parts.specs.Scratch.{FitLists};

use crate::opening::Beginning;
use crate::parts::SessionParts;
use crate::raising::{lost_results, put_flags};
use crate::recalling::put_again;
use crate::results::put_made;
use crate::returning_call::ReturningCall;
use command_tables::{LayerCall, NoMemory};
use dispatch_chain::{DispatchTable, Held, walk_leave};
use model_driver::DriverReply;
use replay_model::Born;
use trace_format::Name;

// Flagged results of a call that was sent come up to those above the first part.
fn rise_flagged(
    table: &DispatchTable,
    parts: &mut SessionParts,
    thread: u32,
    call: &LayerCall,
    held: &Held,
    replies: &[DriverReply],
    made: &[Born],
    lost: &[Name],
    results: &mut [u64],
) -> Result<(), NoMemory>
    requires table { table.now.rows ≡ kinds_of parts.old.states.kept }
    requires flags { born_where results.old ≡ born_flags made.now lost.now }
    requires may { MayComeUp parts.old (record { thread = thread; call = call_content call.now; replies = map reply_shown replies.now; made = made.now; lost = lost.now }) held.now }
    ensures chain { OnOk result ((forms : List CallContent) → IsHeldOf held.now (kinds_of parts.old.states.kept) forms → KeepsChain parts.new.states.kept parts.new.terminator parts.new.names.kept.handed (chain_up parts.old (record { thread = thread; call = call_content call.now; replies = map reply_shown replies.now; made = made.now; lost = lost.now }) forms)) }
    ensures drivers { parts.new.terminator.drivers ≡ parts.old.terminator.drivers }
    ensures rest { parts.new.names.kept ≡ record parts.old.names.kept { handed = parts.new.names.kept.handed } }
    ensures kinds { kinds_of parts.new.states.kept ≡ kinds_of parts.old.states.kept }
    ensures succeeds { HasRoomForResults parts.old.terminator (call_content call.now) results.old → AllHaveBirths (length results.old) parts.old.states.rooms → length made.now ≤ parts.old.names.room.handed → IsOk result }
    ensures births { OnOk result ((n : ℕ) → AllHaveBirths (n + length results.old) parts.old.states.rooms → AllHaveBirths n parts.new.states.rooms) }
    ensures uses { OnOk result (KeepUses parts.old.states.rooms parts.new.states.rooms) }
    ensures spare { parts.old.terminator.spare ≤ parts.new.terminator.spare + length results.old }
    ensures values { parts.old.terminator.values ≤ parts.new.terminator.values + length results.old * length (drivers_for parts.old.terminator (call_content call.now)) }
    ensures bytes { parts.old.terminator.bytes ≤ parts.new.terminator.bytes + length results.old * bytes_with (call_content call.now) }
    ensures names_room { parts.new.names.room ≡ record parts.old.names.room { handed = parts.new.names.room.handed } }
    ensures handed_room { parts.old.names.room.handed ≤ parts.new.names.room.handed + length made.now }
{
    parts.terminator.leave(call, replies, results)?;
    walk_leave(table, &mut parts.states, thread, held, results)?;
    parts.names.hand_each(made, results)?;
    Ok(())
}

// Results of a call that was sent come up. `results` is any memory for them.
fn rise(
    table: &DispatchTable,
    parts: &mut SessionParts,
    thread: u32,
    call: &LayerCall,
    held: &Held,
    replies: &[DriverReply],
    made: &[Born],
    lost: &[Name],
    results: &mut Vec<u64>,
) -> Result<(), NoMemory>
    requires table { table.now.rows ≡ kinds_of parts.old.states.kept }
    requires may { MayComeUp parts.old (record { thread = thread; call = call_content call.now; replies = map reply_shown replies.now; made = made.now; lost = lost.now }) held.now }
    ensures chain { OnOk result ((forms : List CallContent) → IsHeldOf held.now (kinds_of parts.old.states.kept) forms → KeepsChain parts.new.states.kept parts.new.terminator parts.new.names.kept.handed (chain_up parts.old (record { thread = thread; call = call_content call.now; replies = map reply_shown replies.now; made = made.now; lost = lost.now }) forms)) }
    ensures drivers { parts.new.terminator.drivers ≡ parts.old.terminator.drivers }
    ensures rest { parts.new.names.kept ≡ record parts.old.names.kept { handed = parts.new.names.kept.handed } }
    ensures kinds { kinds_of parts.new.states.kept ≡ kinds_of parts.old.states.kept }
    ensures succeeds { length made.now + length lost.now ≤ vec_capacity results.old → ((hs : List ℕ) → length hs ≡ length made.now + length lost.now → HasRoomForResults parts.old.terminator (call_content call.now) hs) →
        AllHaveBirths (length made.now + length lost.now) parts.old.states.rooms → length made.now ≤ parts.old.names.room.handed → IsOk result }
    ensures births { OnOk result ((n : ℕ) → AllHaveBirths (n + (length made.now + length lost.now)) parts.old.states.rooms → AllHaveBirths n parts.new.states.rooms) }
    ensures uses { OnOk result (KeepUses parts.old.states.rooms parts.new.states.rooms) }
    ensures spare { parts.old.terminator.spare ≤ parts.new.terminator.spare + (length made.now + length lost.now) }
    ensures values { parts.old.terminator.values ≤ parts.new.terminator.values + (length made.now + length lost.now) * length (drivers_for parts.old.terminator (call_content call.now)) }
    ensures bytes { parts.old.terminator.bytes ≤ parts.new.terminator.bytes + (length made.now + length lost.now) * bytes_with (call_content call.now) }
    ensures names_room { parts.new.names.room ≡ record parts.old.names.room { handed = parts.new.names.room.handed } }
    ensures handed_room { parts.old.names.room.handed ≤ parts.new.names.room.handed + length made.now }
    ensures results_room { vec_capacity results.old ≤ vec_capacity results.new }
{
    put_flags(made, lost, results)?;
    rise_flagged(
        table, parts, thread, call, held, replies, made, lost, results,
    )
}

// What is born of a call that was sent comes up with these replies of its drivers, and is kept. Answers how many results are born.
fn come_up(
    table: &DispatchTable,
    parts: &mut SessionParts,
    returning: ReturningCall<'_>,
    call: &LayerCall,
    held: &Held,
    replies: &[DriverReply],
    born: &mut Vec<Born>,
    results: &mut Vec<u64>,
) -> Result<usize, NoMemory>
    requires table { table.now.rows ≡ kinds_of parts.old.states.kept }
    requires may { MayComeUp parts.old (rising_of parts.old (returning_shown returning) (call_content call.now) (map reply_shown replies.now)) held.now }
    ensures ok { IfOk result (HasComeUp parts.old (returning_shown returning.entry) (call_content call.now) held.now (map reply_shown replies.now) parts.new) }
    ensures succeeds { length returning.entry.results.now ≤ vec_capacity born.old → HasRoomToComeUp parts.old (returning_shown returning.entry) (call_content call.now) (vec_capacity results.old) → IsOk result }
    ensures room { OnOk result (TakesResults parts.old (returning_shown returning.entry) (call_content call.now) parts.new) }
    ensures born_room { vec_capacity born.old ≤ vec_capacity born.new }
    ensures results_room { vec_capacity results.old ≤ vec_capacity results.new }
    ensures kinds { kinds_of parts.new.states.kept ≡ kinds_of parts.old.states.kept }
{
    put_made(
        parts.names.objects(),
        parts.names.retrieved(),
        parts.terminator.drivers(),
        returning,
        born,
    )?;
    let lost = lost_results(returning.results, born);
    rise(
        table,
        parts,
        returning.thread,
        call,
        held,
        replies,
        born,
        lost,
        results,
    )?;
    parts.names.settle(returning, born)?;
    Ok(born.len())
}

/// A call that was sent leaves with these replies of its drivers, and what is born of it is kept. Answers how many are born. `results` is any
/// memory for its results. After `NoMemory` all is for dropping.
pub(crate) fn leave_sent(
    table: &DispatchTable,
    parts: &mut SessionParts,
    begin: Beginning,
    call: &LayerCall,
    held: &Held,
    replies: &[DriverReply],
    results: &mut Vec<u64>,
) -> Result<usize, NoMemory>
    requires table { table.now.rows ≡ kinds_of parts.old.states.kept }
    requires may { MayComeUp parts.old (rising_again parts.old (begin_content begin) (call_content call.now) (map reply_shown replies.now)) held.now }
    ensures ok { IfOk result (ComesUp parts.old (begin_content begin.entry) (call_content call.now) held.now (map reply_shown replies.now) parts.new) }
    ensures succeeds { FitLists parts.old.names.room.scratch.lists (map (λ a. a.names) (begin_content begin.entry).args) → length begin.entry.results.now ≤ parts.old.names.room.scratch.results → HasRoomToComeUp parts.old (opened_again parts.old (begin_content begin.entry) (call_content call.now)) (call_content call.now) (vec_capacity results.old) → IsOk result }
    ensures room { OnOk result (TakesResults parts.old (opened_again parts.old (begin_content begin.entry) (call_content call.now)) (call_content call.now) parts.new) }
    ensures results_room { vec_capacity results.old ≤ vec_capacity results.new }
    ensures kinds { kinds_of parts.new.states.kept ≡ kinds_of parts.old.states.kept }
{
    let mut scratch = parts.names.take_scratch();
    put_again(parts.names.named(), begin.args, call, &mut scratch.args)?;
    let returning = ReturningCall {
        number: 0,
        thread: begin.thread,
        cmd: begin.cmd,
        args: &scratch.args[..begin.args.len()],
        results: begin.results,
        code: begin.code,
        payload: begin.payload,
        stop: None,
        refused: false,
        drivers: &[],
    };
    let count = come_up(
        table,
        parts,
        returning,
        call,
        held,
        replies,
        &mut scratch.born,
        results,
    )?;
    parts.names.keep_scratch(scratch);
    Ok(count)
}
