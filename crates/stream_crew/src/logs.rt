//! An empty log for each plan.
ghost use Rattle.std.specs.Prelude.{◌≡◌, IfOk, List, length, map, nat_eq};
ghost use Rattle.std.specs.List.{IsDistinct, sum_by};
ghost use Rattle.trace_format.specs.Content.{content};
ghost use Rattle.shard_start.specs.Starting.{events_in};
ghost use Rattle.device_shard.specs.Making.{AreLogs, results_planned};
ghost use Rattle.device_shard.specs.Plans.{plan_content, stream_planned};
ghost use Rattle.device_shard.specs.Sets.{logs_of};
ghost use Rattle.device_shard.specs.Shards.{ShardName, results_at};
ghost use Rattle.stream_crew.specs.Crews.{HaveThreads, IsNewLog};

use crate::counts::plus;
use command_tables::NoMemory;
use device_shard::Plan;
use std::alloc::Global;
use stream_log::{DeviceLog, Owner};
use trace_format::Event;

// How many events streams have.
fn count_events(streams: &[(u32, Vec<Event>)]) -> Result<usize, NoMemory>
    ensures { IfOk result (λ n. n ≡ events_in (map stream_planned streams.now)) }
{
    let mut count = 0usize;
    for stream in streams {
        count = plus(count, stream.1.len())?;
    }
    Ok(count)
}

// How many results an event may bring.
fn results_at(event: &Event) -> usize
    ensures { result ≡ results_at (content event.now) }
{
    match event {
        Event::Begin { results, .. } => results.len(),
        Event::Return { .. } => 0,
    }
}

// How many the events of a thread may bring.
fn results_in(events: &[Event]) -> Result<usize, NoMemory>
    ensures { IfOk result (λ n. n ≡ sum_by results_at (map content events.now)) }
{
    let mut count = 0usize;
    for event in events {
        let more = results_at(event);
        count = plus(count, more)?;
    }
    Ok(count)
}

// How many the calls of streams may bring.
fn count_results(streams: &[(u32, Vec<Event>)]) -> Result<usize, NoMemory>
    ensures { IfOk result (λ n. n ≡ results_planned (map stream_planned streams.now)) }
{
    let mut count = 0usize;
    for stream in streams {
        let more = results_in(&stream.1)?;
        count = plus(count, more)?;
    }
    Ok(count)
}

// The count as a log takes it. A log of more can't be had.
fn room_of(count: usize) -> Result<u32, NoMemory>
    ensures { IfOk result (λ n. n ≡ count) }
{
    if count > u32::MAX as usize {
        return Err(NoMemory);
    }
    Ok(count as u32)
}

// An empty log for a plan.
fn new_log(alloc: Global, plan: &Plan, threads: &[u32]) -> Result<(DeviceLog, Owner), NoMemory>
    requires { IsDistinct nat_eq threads.now }
    ensures { IfOk result (IsNewLog threads.now (plan_content plan.now)) }
{
    let events = count_events(&plan.streams)?;
    let results = count_results(&plan.streams)?;
    let entries = room_of(events)?;
    let most = room_of(results)?;
    let Ok(log) = DeviceLog::new(alloc, entries, most, threads) else {
        return Err(NoMemory);
    };
    Ok(log)
}

/// An empty log for each plan, in order, with room for all its events and results, whose owner holds the token of each thread. The plans have a
/// stream for each of these threads.
pub fn make_logs(
    alloc: Global,
    plans: &[Plan],
    threads: &[u32],
) -> Result<Vec<(DeviceLog, Owner)>, NoMemory>
    requires threads { HaveThreads threads.now (map plan_content plans.now) }
    requires distinct { IsDistinct nat_eq threads.now }
    ensures count { IfOk result (λ logs. length logs.items ≡ length plans.now) }
    ensures logs { IfOk result (λ logs. (names : List ShardName) → map (λ n. n.plan) names ≡ map plan_content plans.now → logs_of names ≡ map (λ l. l.0) logs.items → AreLogs names logs.items) }
{
    let mut logs = Vec::new(alloc);
    for plan in plans {
        let log = new_log(alloc, plan, threads)?;
        logs.push(log)?;
    }
    Ok(logs)
}
