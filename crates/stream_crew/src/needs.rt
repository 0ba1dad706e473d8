//! How much room the calls of a stream need.
ghost use Rattle.std.specs.Prelude.{◌≡◌, IfOk, map};
ghost use Rattle.std.specs.List.{AllByRecursion};
ghost use Rattle.trace_format.specs.Content.{BeginEvent, arg_content, content};
ghost use Rattle.shard_room.specs.Needs.{names_in};
ghost use Rattle.device_shard.specs.Plans.{plan_content};
ghost use Rattle.device_shard.specs.Rooms.{names_of};
ghost use Rattle.stream_crew.specs.Needs.{AreBelow, IsBelow, IsBelowAt, IsMore, events_at};

use crate::counts::plus;
use command_tables::NoMemory;
use device_shard::Plan;
use trace_format::{Event, Name, TraceArg};

/// How much a call has at most: arguments in all, results, and bytes of its payload.
#[derive(Clone, Copy)]
pub(crate) struct Most {
    pub(crate) handles: usize,
    pub(crate) results: usize,
    pub(crate) bytes: usize,
}

/// How many names there are in all arguments of a call.
pub fn count_names(args: &[TraceArg]) -> Result<usize, NoMemory>
    ensures { IfOk result (λ n. n ≡ names_in (names_of args.now)) }
{
    let mut count = 0usize;
    for arg in args {
        count = plus(count, arg.names.len())?;
    }
    Ok(count)
}

// With a begin more.
fn with_begin(
    most: Most,
    args: &[TraceArg],
    results: &[Name],
    payload: &[u8],
) -> Result<Most, NoMemory>
    ensures grows { IfOk result (λ m. IsMore most m) }
    ensures below { IfOk result (λ m. (b : BeginEvent) → b.args ≡ map arg_content args.now → b.results ≡ results.now → b.payload ≡ payload.now → IsBelow m b) }
{
    // No call that is read from a file has more.
    if args.len() > 6 {
        return Err(NoMemory);
    }
    let names = count_names(args)?;
    Ok(Most {
        handles: most.handles.max(names),
        results: most.results.max(results.len()),
        bytes: most.bytes.max(payload.len()),
    })
}

// With an event more.
fn with_event(most: Most, event: &Event) -> Result<Most, NoMemory>
    ensures grows { IfOk result (λ m. IsMore most m) }
    ensures below { IfOk result (λ m. IsBelowAt m (content event.now)) }
{
    match event {
        Event::Return { .. } => Ok(most),
        Event::Begin {
            args,
            results,
            payload,
            ..
        } => {
            let more = with_begin(most, args, results, payload)?;
            Ok(more)
        }
    }
}

// With the events of a thread.
fn with_events(most: Most, events: &[Event]) -> Result<Most, NoMemory>
    ensures grows { IfOk result (λ m. IsMore most m) }
    ensures below { IfOk result (λ m. AllByRecursion (IsBelowAt m) (map content events.now)) }
{
    let mut more = most;
    for event in events {
        more = with_event(more, event)?;
    }
    Ok(more)
}

// With the stream that has this number in a plan, where there is one.
fn with_stream(most: Most, plan: &Plan, number: usize) -> Result<Most, NoMemory>
    ensures grows { IfOk result (λ m. IsMore most m) }
    ensures below { IfOk result (λ m. AllByRecursion (IsBelowAt m) (events_at number (plan_content plan.now))) }
{
    match plan.streams.get(number) {
        None => Ok(most),
        Some(stream) => {
            let more = with_events(most, &stream.1)?;
            Ok(more)
        }
    }
}

/// How much each call of the stream with a number has at most, in all plans.
pub(crate) fn measure(plans: &[Plan], number: usize) -> Result<Most, NoMemory>
    ensures { IfOk result (λ m. AreBelow m number (map plan_content plans.now)) }
{
    let mut most = Most {
        handles: 0,
        results: 0,
        bytes: 0,
    };
    for plan in plans {
        most = with_stream(most, plan, number)?;
    }
    Ok(most)
}
