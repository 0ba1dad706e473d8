//! How much room the calls of a stream need in a driver's seat.
ghost use Rattle.std.specs.Prelude.{◌≡◌, ◌+◌, IfOk, length, map};
ghost use Rattle.trace_format.specs.Content.{content};
ghost use Rattle.model_driver.specs.Seats.{joined_room};
ghost use Rattle.shard_room.specs.Needs.{names_in};
ghost use Rattle.device_shard.specs.Rooms.{names_of};
ghost use Rattle.stream_replay.specs.Seating.{needs_at, needs_of_events, room_counted};

use command_tables::NoMemory;
use stream_crew::{count_names, plus};
use trace_format::{Event, Name, TraceArg};

/// So many calls, so many handles of their arguments and results together, and so many bytes of their payloads.
#[derive(Clone, Copy)]
pub(crate) struct Counts {
    pub(crate) calls: u32,
    pub(crate) handles: u32,
    pub(crate) bytes: usize,
}

// The sum of what a seat counts in 32 bits.
fn plus_few(one: u32, other: usize) -> Result<u32, NoMemory>
    ensures { IfOk result (λ n. n ≡ one + other) }
{
    let more = u32::try_from(other).ok().ok_or(NoMemory)?;
    one.checked_add(more).ok_or(NoMemory)
}

// With a begin more.
fn with_begin(
    counts: Counts,
    args: &[TraceArg],
    results: &[Name],
    payload: &[u8],
) -> Result<Counts, NoMemory>
    ensures calls { IfOk result (λ c. c.calls ≡ counts.calls + 1) }
    ensures handles { IfOk result (λ c. c.handles ≡ counts.handles + (names_in (names_of args.now) + length results.now)) }
    ensures bytes { IfOk result (λ c. c.bytes ≡ counts.bytes + length payload.now) }
{
    let names = count_names(args)?;
    let handles = plus(names, results.len())?;
    Ok(Counts {
        calls: plus_few(counts.calls, 1)?,
        handles: plus_few(counts.handles, handles)?,
        bytes: plus(counts.bytes, payload.len())?,
    })
}

// With an event more.
fn with_event(counts: Counts, event: &Event) -> Result<Counts, NoMemory>
    ensures { IfOk result (λ c. room_counted c ≡ joined_room (room_counted counts) (needs_at (content event.now))) }
{
    match event {
        Event::Return { .. } => Ok(counts),
        Event::Begin {
            args,
            results,
            payload,
            ..
        } => {
            let more = with_begin(counts, args, results, payload)?;
            Ok(more)
        }
    }
}

/// How much room the calls of events need. One that can't be counted is refused as want of memory.
pub(crate) fn count_needs(events: &[Event]) -> Result<Counts, NoMemory>
    ensures { IfOk result (λ c. room_counted c ≡ needs_of_events (map content events.now)) }
{
    let mut counts = Counts {
        calls: 0,
        handles: 0,
        bytes: 0,
    };
    for event in events {
        counts = with_event(counts, event)?;
    }
    Ok(counts)
}
