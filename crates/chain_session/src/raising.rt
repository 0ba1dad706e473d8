// The results of an open call come up at its return.
ghost use Rattle.std.specs.Prelude.{◌≡◌, List, map, true, OnOk};
ghost use Rattle.command_tables.specs.Calls.{CallContent};
ghost use Rattle.layer_model.specs.Walks.{is_guarded, leave_parts};
ghost use Rattle.chain_model.specs.Simulated.{born_flags};
ghost use Rattle.terminator.specs.Calls.{born_where};
ghost use Rattle.dispatch_chain.specs.Holding.{IsHeldOf};
ghost use Rattle.dispatch_chain.specs.Seats.{kinds_of};
ghost use Rattle.session_parts.specs.Leaving.{KeepsChain, MayRise, chain_at};
ghost use Rattle.chain_session.specs.Raising.{HasAnswers, MayRaise, chain_raised, chain_sent, left_at, left_where, lost_of, routes_at};

use crate::call::OpenCall;
use crate::room::Room;
use crate::sending::is_skipped;
use crate::starting::{start, starts_chain};
use command_tables::NoMemory;
use dispatch_chain::{DispatchTable, Held, LayerStates, Terminator, walk_leave};
use replay_model::Born;
use session_parts::{NameTable, lost_results, put_flags, raise_lost};
use trace_format::Name;

// The results of an open call that are lost, where these are born.
fn lost_by<'a>(call: &'a OpenCall, made: &[Born]) -> &'a [Name]
    ensures { result.now ≡ lost_of call.now made.now }
{
    lost_results(&call.results, made)
}

// What the terminator makes of the replies of a call, by the flags of its results.
#[tactic(auto, using(crate::proofs::Rising::count_so, crate::proofs::Rising::left_so, crate::proofs::Rising::routes_so))]
fn answer(terminator: &mut Terminator, call: &OpenCall, results: &mut [u64]) -> Result<(), NoMemory>
    requires { HasAnswers terminator.old call.now }
    ensures left { OnOk result (record { results = results.new; ids = terminator.new.ids } ≡ left_where terminator.old call.now (born_where results.old)) }
    ensures routes { OnOk result (terminator.new.routes ≡ routes_at terminator.old call.now results.new) }
    ensures drivers { terminator.new.drivers ≡ terminator.old.drivers }
{
    let replies = &call.replies[..call.drivers.len()];
    terminator.leave(&call.bottom, replies, results)
}

// Flagged results of a call that was sent come up to those above the first part, as the call is held by the parts in force.
fn raise_flagged(
    table: &DispatchTable,
    states: &mut LayerStates,
    terminator: &mut Terminator,
    names: &mut NameTable,
    call: &OpenCall,
    held: &Held,
    made: &[Born],
    results: &mut [u64],
) -> Result<(), NoMemory>
    requires table { table.now.rows ≡ kinds_of states.old.kept }
    requires guarded { is_guarded states.old.kept ≡ true }
    requires answers { HasAnswers terminator.old call.now }
    requires rise { MayRise call.now.thread states.old.kept held.now (left_at terminator.old call.now made.now).results }
    requires flags { born_where results.old ≡ born_flags made.now (lost_of call.now made.now) }
    ensures chain { OnOk result ((forms : List CallContent) → IsHeldOf held.now (kinds_of states.old.kept) forms → KeepsChain states.new.kept terminator.new names.new.kept.handed (chain_sent (chain_at states.old.kept terminator.old names.old.kept.handed) call.now forms made.now)) }
    ensures drivers { terminator.new.drivers ≡ terminator.old.drivers }
    ensures rest { names.new.kept ≡ record names.old.kept { handed = names.new.kept.handed } }
    ensures kinds { kinds_of states.new.kept ≡ kinds_of states.old.kept }
{
    answer(terminator, call, results)?;
    walk_leave(table, states, call.thread, held, results)?;
    names.hand_each(made, results)?;
    Ok(())
}

// Results of a call that was sent come up.
fn raise_sent(
    table: &DispatchTable,
    states: &mut LayerStates,
    terminator: &mut Terminator,
    names: &mut NameTable,
    call: &OpenCall,
    held: &Held,
    made: &[Born],
    flags: &mut Vec<u64>,
) -> Result<(), NoMemory>
    requires table { table.now.rows ≡ kinds_of states.old.kept }
    requires guarded { is_guarded states.old.kept ≡ true }
    requires answers { HasAnswers terminator.old call.now }
    requires rise { MayRise call.now.thread states.old.kept held.now (left_at terminator.old call.now made.now).results }
    ensures chain { OnOk result ((forms : List CallContent) → IsHeldOf held.now (kinds_of states.old.kept) forms → KeepsChain states.new.kept terminator.new names.new.kept.handed (chain_sent (chain_at states.old.kept terminator.old names.old.kept.handed) call.now forms made.now)) }
    ensures drivers { terminator.new.drivers ≡ terminator.old.drivers }
    ensures rest { names.new.kept ≡ record names.old.kept { handed = names.new.kept.handed } }
    ensures kinds { kinds_of states.new.kept ≡ kinds_of states.old.kept }
{
    put_flags(made, lost_by(call, made), flags)?;
    raise_flagged(table, states, terminator, names, call, held, made, flags)
}

// The results of a skipped call come up to the parts that it had come to: all are lost.
fn raise_skipped(
    table: &DispatchTable,
    states: &mut LayerStates,
    call: &OpenCall,
    made: &[Born],
    results: &mut Vec<u64>,
) -> Result<(), NoMemory>
    requires table { table.now.rows ≡ kinds_of states.old.kept }
    requires guarded { is_guarded states.old.kept ≡ true }
    ensures states { OnOk result ((forms : List CallContent) → IsHeldOf call.now.held (kinds_of states.old.kept) forms → states.new.kept ≡ (leave_parts call.now.thread states.old.kept forms (map (λ _. 0) (lost_of call.now made.now))).states) }
    ensures kinds { kinds_of states.new.kept ≡ kinds_of states.old.kept }
{
    let lost = lost_by(call, made);
    raise_lost(table, states, call.thread, &call.held, lost, results)
}

/// The results of a call come up to those above the first part. Where the call makes the instance and was sent, its chain comes in force
/// before. After `NoMemory` all is for dropping.
#[tactic(auto, using(crate::proofs::Rising::skipped_raised, crate::proofs::Rising::started_guard, crate::proofs::Rising::sent_rise, crate::proofs::Rising::sent_raised))]
pub(crate) fn raise(
    table: &mut DispatchTable,
    states: &mut LayerStates,
    terminator: &mut Terminator,
    names: &mut NameTable,
    call: &OpenCall,
    made: &[Born],
    room: &mut Room,
) -> Result<(), NoMemory>
    requires table { table.old.rows ≡ kinds_of states.old.kept }
    requires may { MayRaise states.old.kept terminator.old call.now made.now }
    ensures chain { OnOk result ((forms : List CallContent) → IsHeldOf call.now.held (kinds_of states.old.kept) forms → KeepsChain states.new.kept terminator.new names.new.kept.handed (chain_raised (chain_at states.old.kept terminator.old names.old.kept.handed) call.now forms made.now)) }
    ensures drivers { terminator.new.drivers ≡ terminator.old.drivers }
    ensures rest { names.new.kept ≡ record names.old.kept { handed = names.new.kept.handed } }
    ensures table { table.new.rows ≡ kinds_of states.new.kept }
{
    if is_skipped(call) {
        raise_skipped(table, states, call, made, &mut room.handles)
    } else if starts_chain(call) {
        let held = start(table, states, names.handed(), call, room)?;
        raise_sent(
            table,
            states,
            terminator,
            names,
            call,
            &held,
            made,
            &mut room.handles,
        )
    } else {
        raise_sent(
            table,
            states,
            terminator,
            names,
            call,
            &call.held,
            made,
            &mut room.handles,
        )
    }
}
