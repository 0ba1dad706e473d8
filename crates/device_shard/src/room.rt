//! Room for all calls of a plan.
ghost use Rattle.std.specs.Prelude.{◌≡◌, IfOk, OnOk, length, map, vec_capacity};
ghost use Rattle.std.specs.List.{AllByRecursion};
ghost use Rattle.std.specs.Option.{option_map};
ghost use Rattle.session_parts.specs.Parts.{KeepAlike};
ghost use Rattle.chain_session.specs.Splitting.{kinds_in_force};
ghost use Rattle.device_shard.specs.Plans.{stream_planned};
ghost use Rattle.device_shard.specs.Rooms.{IsIdle, IsReady, IsReserved, IsUnused, needs_of};

use crate::counts::{plus, times};
use crate::lane::Lane;
use crate::measure::{Measure, measure_all, results_due};
use chain_session::Session;
use command_tables::{CommandId, LayerCall, NoMemory};
use dispatch_chain::Held;
use lifetime_layer::Verdict;
use session_parts::SessionParts;
use std::alloc::Global;
use trace_format::Event;
use walk_bounds::light_parts_are_roomy;

/// What is kept of a plan beside its log, with room for all that the plan makes.
#[derive(Drop)]
pub(crate) struct PlanRoom {
    pub(crate) parts: SessionParts,
    pub(crate) lanes: Vec<Lane>,
    pub(crate) results: Vec<u64>,
}

// Makes room in parts for calls of so many threads, which may bring so many results in all.
fn reserve(
    parts: &mut SessionParts,
    threads: usize,
    due: usize,
    measure: Measure,
) -> Result<(), NoMemory>
    ensures kept { OnOk result (KeepAlike parts.new parts.old) }
    ensures room { OnOk result (IsReserved (needs_of measure) threads due parts.new) }
{
    // No more ids can be issued.
    if due > u32::MAX as usize {
        return Err(NoMemory);
    }
    let bytes = times(due, measure.bytes)?;
    let each = times(threads, measure.uses)?;
    let uses = plus(threads, each)?;
    parts.names.reserve(due, bytes, measure.wide)?;
    parts.states.reserve(due, uses)?;
    parts.terminator.reserve(due, bytes)?;
    Ok(())
}

// How many parts the chain in force has: each intercepts this command.
fn count_parts(session: &Session) -> usize
    ensures { result ≡ length (kinds_in_force (option_map (λ x. x.value.kept) session.now.started)) }
{
    session.table().at(CommandId::CreateBuffer).len()
}

// The lane of a thread that has made no step, with room for a call in so many parts.
fn new_lane(alloc: Global, parts: usize, measure: Measure) -> Result<Lane, NoMemory>
    ensures { IfOk result (λ lane. IsUnused (needs_of measure) parts lane) }
{
    // Each part finds at most three failures at each argument.
    let each = times(3, measure.args)?;
    let found = times(parts, each)?;
    let call = LayerCall::with_room(alloc, measure.args, measure.bytes)?;
    let held = Held::with_room(alloc, parts, measure.args, measure.bytes)?;
    let verdict = Verdict::with_room(alloc, found.max(1))?;
    Ok(Lane {
        steps: 0,
        call,
        held,
        verdict,
    })
}

// One for each of so many threads.
fn new_lanes(
    alloc: Global,
    threads: usize,
    parts: usize,
    measure: Measure,
) -> Result<Vec<Lane>, NoMemory>
    ensures count { IfOk result (λ lanes. length lanes.items ≡ threads) }
    ensures unused { IfOk result (λ lanes. AllByRecursion (IsUnused (needs_of measure) parts) lanes.items) }
{
    let mut lanes = Vec::with_capacity(alloc, threads)?;
    for _thread in 0..threads {
        let lane = new_lane(alloc, parts, measure)?;
        lanes.push(lane)?;
    }
    Ok(lanes)
}

/// What is kept of a plan with these streams at first: parts that are split from the session, whose parts had so many objects at most.
pub(crate) fn room_for(
    alloc: Global,
    session: &Session,
    streams: &[(u32, Vec<Event>)],
    held: usize,
) -> Result<PlanRoom, NoMemory>
    requires { IsIdle (option_map (λ x. x.value.kept) session.now.started) held }
    ensures { IfOk result (λ room. IsReady (option_map (λ x. x.value.kept) session.now.started) (map stream_planned streams.now) room.parts room.lanes.items (vec_capacity room.results)) }
{
    light_parts_are_roomy();
    let due = results_due(streams)?;
    let born = plus(held, due)?;
    let measure = measure_all(streams, due, born)?;
    let mut parts = session.split()?;
    reserve(&mut parts, streams.len(), due, measure)?;
    let lanes = new_lanes(alloc, streams.len(), count_parts(session), measure)?;
    let results = Vec::with_capacity(alloc, due)?;
    Ok(PlanRoom {
        parts,
        lanes,
        results,
    })
}
