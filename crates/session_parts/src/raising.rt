// Which results of a call are born, and how those of a skipped one come up.
ghost use Rattle.std.specs.Prelude.{◌≡◌, ◌≤◌, ◌+◌, ◌++◌, ℕ, List, drop, length, map, true, vec_capacity, IsOk, OnOk};
ghost use Rattle.command_tables.specs.Calls.{CallContent};
ghost use Rattle.layer_model.specs.Walks.{is_guarded, leave_parts};
ghost use Rattle.chain_model.specs.Simulated.{born_flags};
ghost use Rattle.terminator.specs.Calls.{born_where};
ghost use Rattle.dispatch_chain.specs.Holding.{IsHeldOf};
ghost use Rattle.dispatch_chain.specs.Room.{AllHaveBirths, KeepUses};
ghost use Rattle.dispatch_chain.specs.Seats.{kinds_of};

use command_tables::NoMemory;
use dispatch_chain::{DispatchTable, Held, LayerStates, results_are_once, walk_leave};
use replay_model::Born;
use std::alloc::AllocError;
use trace_format::Name;

// Flags each result that is born.
fn flag_born(made: &[Born], flags: &mut Vec<u64>) -> Result<(), AllocError>
    ensures flags { OnOk result (flags.new.items ≡ flags.old.items ++ map (λ _. 1) made.now) }
    ensures count { OnOk result (length flags.new.items ≡ length flags.old.items + length made.now) }
    ensures room { vec_capacity flags.old ≤ vec_capacity flags.new }
    ensures succeeds { length flags.old.items + length made.now ≤ vec_capacity flags.old → IsOk result }
{
    for _ in made {
        flags.push(1)?;
    }
    Ok(())
}

// A lost result has no flag.
fn flag_lost(lost: &[Name], flags: &mut Vec<u64>) -> Result<(), AllocError>
    ensures flags { OnOk result (flags.new.items ≡ flags.old.items ++ map (λ _. 0) lost.now) }
    ensures count { OnOk result (length flags.new.items ≡ length flags.old.items + length lost.now) }
    ensures room { vec_capacity flags.old ≤ vec_capacity flags.new }
    ensures succeeds { length flags.old.items + length lost.now ≤ vec_capacity flags.old → IsOk result }
{
    for _ in lost {
        flags.push(0)?;
    }
    Ok(())
}

/// The results that are lost, where these are born.
#[tactic(auto, using(std::proofs::lemmas::List::drop_all))]
pub fn lost_results<'a>(results: &'a [Name], made: &[Born]) -> &'a [Name]
    ensures { result.now ≡ drop (length made.now) results.now }
{
    if made.len() < results.len() {
        &results[made.len()..]
    } else {
        &[]
    }
}

/// Which results are born, in place of what stood there.
#[tactic(auto, using(crate::proofs::Rising::flags_so))]
pub fn put_flags(made: &[Born], lost: &[Name], flags: &mut Vec<u64>) -> Result<(), AllocError>
    ensures born { OnOk result (born_where flags.new.items ≡ born_flags made.now lost.now) }
    ensures count { OnOk result (length flags.new.items ≡ length made.now + length lost.now) }
    ensures room { vec_capacity flags.old ≤ vec_capacity flags.new }
    ensures succeeds { length made.now + length lost.now ≤ vec_capacity flags.old → IsOk result }
{
    flags.clear();
    flag_born(made, flags)?;
    flag_lost(lost, flags)
}

/// Lost results of a skipped call come up to the parts that it had come to. `results` is any memory for them.
#[tactic(auto, using(crate::proofs::Rising::lost_all))]
pub fn raise_lost(
    table: &DispatchTable,
    states: &mut LayerStates,
    thread: u32,
    held: &Held,
    lost: &[Name],
    results: &mut Vec<u64>,
) -> Result<(), NoMemory>
    requires table { table.now.rows ≡ kinds_of states.old.kept }
    requires guarded { is_guarded states.old.kept ≡ true }
    ensures states { OnOk result ((forms : List CallContent) → IsHeldOf held.now (kinds_of states.old.kept) forms → states.new.kept ≡ (leave_parts thread states.old.kept forms (map (λ _. 0) lost.now)).states) }
    ensures succeeds { length lost.now ≤ vec_capacity results.old → AllHaveBirths (length lost.now) states.old.rooms → IsOk result }
    ensures births { OnOk result ((n : ℕ) → AllHaveBirths (n + length lost.now) states.old.rooms → AllHaveBirths n states.new.rooms) }
    ensures uses { OnOk result (KeepUses states.old.rooms states.new.rooms) }
    ensures room { vec_capacity results.old ≤ vec_capacity results.new }
    ensures kinds { kinds_of states.new.kept ≡ kinds_of states.old.kept }
{
    results.clear();
    flag_lost(lost, results)?;
    results_are_once();
    walk_leave(table, states, thread, held, results)
}
