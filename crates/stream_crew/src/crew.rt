//! A worker for each stream.
ghost use Rattle.std.specs.Prelude.{◌≡◌, ◌*◌, ◌+◌, ◌-◌, ◌≤◌, IfOk, List, length, map};
ghost use Rattle.std.specs.List.{AllByRecursion, sum_by};
ghost use Rattle.device_shard.specs.Making.{tokens_given};
ghost use Rattle.device_shard.specs.Plans.{plan_content};
ghost use Rattle.device_shard.specs.Shards.{ShardName};
ghost use Rattle.stream_log.specs.Clock.{tick_view};
ghost use Rattle.model_driver.specs.Seats.{SeatRoom};
ghost use Rattle.merge_model.specs.Planned.{PlannedCall};
ghost use Rattle.stream_crew.specs.Crews.{ArePlanned, AreReady, HaveRoom, HaveThreads, IsUnused, places_of};
ghost use Rattle.stream_crew.specs.Making.{IsNewWorker};
ghost use Rattle.stream_workers.specs.Work.{IsCourse};

use crate::dealing::deal;
use crate::needs::{Most, measure};
use command_tables::NoMemory;
use device_shard::Plan;
use model_driver::{DriverCall, DriverReply};
use std::alloc::Global;
use stream_log::{Seen, StepClock, Tick};
use stream_workers::Worker;
use trace_format::Name;

// The worker of a stream, with room for all its calls, of which none has more than this.
fn new_worker<S: Drop>(
    alloc: Global,
    thread: u32,
    stream: usize,
    places: Vec<usize>,
    tokens: Vec<Option<Seen>>,
    tick: Tick,
    seat: S,
    most: Most,
) -> Result<Worker<S>, NoMemory>
    ensures stream { IfOk result (λ w. (w.thread ≡ thread) × (w.stream ≡ stream)) }
    ensures given { IfOk result (λ w. (w.places ≡ places) × (w.tokens ≡ tokens) × (w.tick ≡ tick) × (w.seat ≡ seat)) }
    ensures made { IfOk result (λ w. IsNewWorker most w) }
{
    let made = vec![in alloc; 0usize; tokens.len()]?;
    let sent = Vec::with_capacity(alloc, places.len())?;
    let call = DriverCall::with_room(alloc, most.handles, most.bytes)?;
    let reply = DriverReply::with_room(alloc, most.results)?;
    Ok(Worker {
        thread,
        stream,
        places,
        tokens,
        made,
        tick,
        seat,
        call,
        reply,
        sent,
    })
}

// Two draws for each of so many calls.
fn draws_for(clock: &StepClock, tick: &mut Tick, places: &[usize]) -> Tick
    requires { (tick.old.clock ≡ clock.now) × (length places.now + length places.now ≤ tick.old.left) }
    ensures given { result ≡ tick_view clock.now (length places.now + length places.now) tick.old.seen }
    ensures kept { tick.new ≡ tick_view clock.now (tick.old.left - (length places.now + length places.now)) tick.old.seen }
{
    let calls = places.len() as u64;
    tick.split(clock, calls + calls)
}

/// A worker for each stream, in order, with its token of each plan's log, its seat, the places of its calls, and room for these: two draws for each.
/// The tokens are those of a new set of shards: by plans and then by streams. `places` says for each stream of each call the number of its
/// plan.
pub fn make_workers<S: Drop>(
    alloc: Global,
    plans: &[Plan],
    threads: &[u32],
    mut places: Vec<Vec<usize>>,
    tokens: Vec<(Name, Seen)>,
    clock: &StepClock,
    tick: &mut Tick,
    mut seats: Vec<S>,
) -> Result<Vec<Worker<S>>, NoMemory>
    requires threads { HaveThreads threads.now (map plan_content plans.now) }
    requires places { length places.items ≡ length threads.now }
    requires seats { length seats.items ≡ length threads.now }
    requires tokens { (names : List ShardName) × (map (λ n. n.plan) names ≡ map plan_content plans.now) × (tokens.items ≡ tokens_given names) }
    requires tick { (tick.old.clock ≡ clock.now) × (sum_by (λ p. 2 * length p.items) places.items ≤ tick.old.left) }
    ensures ready { IfOk result (λ workers. (room : S → SeatRoom) (names : List ShardName) (calls : List (List PlannedCall)) →
        IsCourse (record { names = names; clock = clock.now; plans = map plan_content plans.now }) → tokens.items ≡ tokens_given names →
        ArePlanned (map plan_content plans.now) threads.now calls → map places_of calls ≡ map (λ p. p.items) places.items → HaveRoom room seats.items calls →
        AreReady room (record { names = names; clock = clock.now; plans = map plan_content plans.now }) calls workers.items) }
    ensures threads { IfOk result (λ workers. map (λ w. w.thread) workers.items ≡ threads.now) }
    ensures seats { IfOk result (λ workers. map (λ w. w.seat) workers.items ≡ seats.items) }
    ensures unused { IfOk result (λ workers. AllByRecursion IsUnused workers.items) }
    ensures clock { tick.new.clock ≡ tick.old.clock }
{
    let mut slots = deal(alloc, tokens, plans.len(), threads.len())?;
    slots.reverse();
    places.reverse();
    seats.reverse();
    let mut workers = Vec::new(alloc);
    for number in 0..threads.len() {
        let most = measure(plans, number)?;
        let own = places.pop().unwrap();
        let share = draws_for(clock, tick, &own);
        let held = slots.pop().unwrap();
        let seat = seats.pop().unwrap();
        let worker = new_worker(alloc, threads[number], number, own, held, share, seat, most)?;
        workers.push(worker)?;
    }
    Ok(workers)
}
