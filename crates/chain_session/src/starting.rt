// The chain of the call that makes the instance comes in force.
ghost use Rattle.std.specs.Prelude.{◌≡◌, [], true, map, IfOk, OnOk};
ghost use Rattle.command_tables.specs.Calls.{call_content};
ghost use Rattle.layer_model.specs.Walks.{new_part};
ghost use Rattle.chain_model.specs.Simulated.{base_of, fresh_of};
ghost use Rattle.chain_model.specs.Traces.{starts_chain};
ghost use Rattle.dispatch_chain.specs.Holding.{IsHeldOf};
ghost use Rattle.dispatch_chain.specs.Rows.{kinds_placed};
ghost use Rattle.dispatch_chain.specs.Seats.{kinds_of};
ghost use Rattle.chain_session.specs.Opened.{opened_of};
ghost use Rattle.chain_session.specs.Shown.{kinds_chained};

use crate::call::OpenCall;
use crate::room::Room;
use chain_build::Chain;
use command_tables::{CommandId, LayerCall, NoMemory};
use dispatch_chain::{DispatchTable, Held, LayerStates, walk_enter};
use session_parts::{HandedTable, Passed, put_call};

/// Whether a chain comes in force at the return of a call, where that wasn't skipped.
#[tactic(auto, unfolding(command_tables::specs::Tests::same_command))]
pub(crate) fn starts_chain(call: &OpenCall) -> bool
    ensures { result ≡ starts_chain (opened_of call.now) }
{
    call.cmd == CommandId::CreateInstance && call.cmd.succeeds(call.code)
}

// The call as it comes to the first part, without arguments.
fn put_instance(
    handed: &HandedTable,
    call: &OpenCall,
    room: &mut Vec<u64>,
    form: &mut LayerCall,
) -> Result<(), NoMemory>
    ensures { OnOk result (call_content form.new ≡ base_of (opened_of call.now)) }
{
    let passed = Passed {
        cmd: call.cmd,
        asked: u32::try_from(call.results.len()).ok().ok_or(NoMemory)?,
        code: call.code,
        payload: &call.payload,
    };
    put_call(handed, passed, &[], room, form)
}

// The call comes down through new parts.
#[tactic(auto, using(crate::proofs::Fresh::has_no_places, crate::proofs::Fresh::rows_new))]
fn take_in(
    table: &DispatchTable,
    states: &mut LayerStates,
    handed: &HandedTable,
    call: &OpenCall,
    held: &mut Held,
    room: &mut Room,
) -> Result<(), NoMemory>
    requires starts { starts_chain (opened_of call.now) ≡ true }
    requires fresh { states.old.kept ≡ map new_part table.now.rows }
    ensures states { OnOk result (states.new.kept ≡ map (fresh_of (opened_of call.now)) table.now.rows) }
    ensures held { OnOk result (IsHeldOf held.new table.now.rows (map (λ _. base_of (opened_of call.now)) table.now.rows)) }
{
    let mut form = LayerCall::with_room(room.alloc, 0, 0)?;
    put_instance(handed, call, &mut room.handles, &mut form)?;
    let mut verdict = room.take_verdict();
    walk_enter(
        table,
        states,
        call.thread,
        call.number,
        &mut form,
        held,
        &mut verdict,
    )?;
    room.keep_verdict(verdict);
    Ok(())
}

// A chain that comes in force, and the call that makes the instance as its parts hold it.
#[derive(Drop)]
struct NewChain {
    table: DispatchTable,
    states: LayerStates,
    held: Held,
}

fn new_chain(
    table: &DispatchTable,
    chain: &Chain,
    handed: &HandedTable,
    call: &OpenCall,
    room: &mut Room,
) -> Result<NewChain, NoMemory>
    requires { starts_chain (opened_of call.now) ≡ true }
    ensures rows { IfOk result (λ n. n.table.rows ≡ kinds_placed chain.now.parts.items) }
    ensures states { IfOk result (λ n. n.states.kept ≡ map (fresh_of (opened_of call.now)) (kinds_placed chain.now.parts.items)) }
    ensures held { IfOk result (λ n. IsHeldOf n.held (kinds_placed chain.now.parts.items) (map (λ _. base_of (opened_of call.now)) (kinds_placed chain.now.parts.items))) }
{
    let table = table.of_chain(room.alloc, chain)?;
    let mut states = LayerStates::new(room.alloc, chain)?;
    let mut held = Held::new(room.alloc);
    take_in(&table, &mut states, handed, call, &mut held, room)?;
    Ok(NewChain {
        table,
        states,
        held,
    })
}

/// The chain of the call that makes the instance comes in force, where there was none, with the call come down through it. Answers the call
/// as its parts hold it.
pub(crate) fn start(
    table: &mut DispatchTable,
    states: &mut LayerStates,
    handed: &HandedTable,
    call: &OpenCall,
    room: &mut Room,
) -> Result<Held, NoMemory>
    requires starts { starts_chain (opened_of call.now) ≡ true }
    requires table { table.old.rows ≡ kinds_of states.old.kept }
    requires none { states.old.kept ≡ [] }
    ensures states { OnOk result (states.new.kept ≡ map (fresh_of (opened_of call.now)) (kinds_chained call.now.chain)) }
    ensures held { IfOk result (λ held. IsHeldOf held (kinds_chained call.now.chain) (map (λ _. base_of (opened_of call.now)) (kinds_chained call.now.chain))) }
    ensures table { table.new.rows ≡ kinds_of states.new.kept }
{
    match &call.chain {
        None => Ok(Held::new(room.alloc)),
        Some(chain) => {
            let started = new_chain(table, chain, handed, call, room)?;
            *table = started.table;
            *states = started.states;
            Ok(started.held)
        }
    }
}
