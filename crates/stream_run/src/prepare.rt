//! What is made ready before the first thread starts.
ghost use Rattle.std.specs.Prelude.{◌≡◌, ◌+◌, ◌*◌, IfOk, map, nat_eq};
ghost use Rattle.std.specs.List.{IsDistinct};
ghost use Rattle.stream_log.specs.Clock.{tick_view};
ghost use Rattle.threaded_replay.specs.Files.{file_parts, stream_part};
ghost use Rattle.stream_run.specs.Preparing.{IsPrepared, steps_of};

use command_tables::NoMemory;
use device_shard::Plan;
use std::alloc::{AllocError, Global};
use stream_crew::make_logs;
use stream_log::{DeviceLog, Owner, StepClock, Tick};
use stream_plans::{Planned, plan_calls};
use threaded_replay::StreamFile;
use trace_format::Event;

/// The plans of a file, of each stream the numbers of its calls' plans, the streams' threads, an empty log for each plan, and a clock.
#[derive(Drop)]
pub(crate) struct Prepared {
    pub(crate) plans: Vec<Plan>,
    pub(crate) places: Vec<Vec<usize>>,
    pub(crate) threads: Vec<u32>,
    pub(crate) logs: Vec<(DeviceLog, Owner)>,
    pub(crate) clock: StepClock,
    pub(crate) tick: Tick,
}

// With two steps more for each of so many calls.
fn with_calls(steps: u64, calls: usize) -> Result<u64, NoMemory>
    ensures { IfOk result (λ n. n ≡ steps + 2 * calls) }
{
    let more = (calls as u64).checked_mul(2).ok_or(NoMemory)?;
    steps.checked_add(more).ok_or(NoMemory)
}

// Two for each call: its begin and its return.
fn count_steps(places: &[Vec<usize>]) -> Result<u64, NoMemory>
    ensures { IfOk result (λ n. n ≡ steps_of (map (λ v. v.items) places.now)) }
{
    let mut steps = 0u64;
    for own in places {
        steps = with_calls(steps, own.len())?;
    }
    Ok(steps)
}

// A clock, and a tick with a draw for each step.
fn new_clock(alloc: Global, steps: u64) -> Result<(StepClock, Tick), NoMemory>
    ensures { IfOk result (λ r. r.1 ≡ tick_view r.0 steps 0) }
{
    let Ok(made) = StepClock::new(alloc, steps) else {
        return Err(NoMemory);
    };
    Ok(made)
}

// The threads of streams.
fn threads_in(alloc: Global, streams: &[(u32, Vec<Event>)]) -> Result<Vec<u32>, AllocError>
    ensures { IfOk result (λ v. v.items ≡ map (λ s. s.thread) (map stream_part streams.now)) }
{
    let mut threads = Vec::with_capacity(alloc, streams.len())?;
    for stream in streams {
        threads.push(stream.0)?;
    }
    Ok(threads)
}

/// All that the threads of a file share, and what their workers are made from.
pub(crate) fn prepare(alloc: Global, file: &StreamFile) -> Result<Prepared, NoMemory>
    requires { IsDistinct nat_eq (map (λ s. s.thread) (file_parts file.now).streams) }
    ensures { IfOk result (λ p. IsPrepared (file_parts file.now) p) }
{
    let Planned { plans, places } = plan_calls(alloc, file)?;
    let threads = threads_in(alloc, &file.streams)?;
    let logs = make_logs(alloc, &plans, &threads)?;
    let steps = count_steps(&places)?;
    let (clock, tick) = new_clock(alloc, steps)?;
    Ok(Prepared {
        plans,
        places,
        threads,
        logs,
        clock,
        tick,
    })
}
