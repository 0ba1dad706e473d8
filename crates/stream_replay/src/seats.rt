//! The seats of a driver for the streams of a file.
ghost use Rattle.std.specs.Prelude.{IfOk, map};
ghost use Rattle.std.specs.List.{AllByRecursion};
ghost use Rattle.trace_format.specs.Content.{content};
ghost use Rattle.model_driver.specs.Seats.{FitsIn, IsEmptyLog, IsPolicy};
ghost use Rattle.threaded_replay.specs.Files.{file_parts};
ghost use Rattle.stream_crew.specs.Crews.{HaveRoom};
ghost use Rattle.stream_run.specs.Preparing.{calls_of_file};
ghost use Rattle.stream_replay.specs.Seating.{needs_of_events};

use crate::counting::count_needs;
use command_tables::NoMemory;
use model_driver::{Policy, SharedDriver};
use std::alloc::Global;
use threaded_replay::StreamFile;
use trace_format::Event;

// A seat with room for the calls of these events.
fn seat_for<D: SharedDriver>(
    alloc: Global,
    events: &[Event],
    policy: Policy,
    driver: &D,
) -> Result<D::Seat, NoMemory>
    ensures room { IfOk result (λ seat. FitsIn (needs_of_events (map content events.now)) (D.room seat)) }
    ensures fresh { IfOk result (λ seat. IsEmptyLog (D.log seat)) }
    ensures policy { IfOk result (λ seat. IsPolicy (D.answers_by seat) policy) }
{
    let counts = count_needs(events)?;
    let seat = driver.seat(alloc, policy, counts.calls, counts.handles, counts.bytes)?;
    Ok(seat)
}

/// A seat of this policy for each stream of a file, in the file's order, with room for all its calls. Room that can't be counted is refused
/// as want of memory.
pub(crate) fn make_seats<D: SharedDriver>(
    alloc: Global,
    file: &StreamFile,
    policy: Policy,
    driver: &D,
) -> Result<Vec<D::Seat>, NoMemory>
    ensures room { IfOk result (λ v. HaveRoom D.room v.items (calls_of_file (file_parts file.now))) }
    ensures fresh { IfOk result (λ v. AllByRecursion (λ seat. IsEmptyLog (D.log seat)) v.items) }
    ensures policy { IfOk result (λ v. AllByRecursion (λ seat. IsPolicy (D.answers_by seat) policy) v.items) }
{
    let mut seats = Vec::new(alloc);
    for stream in &file.streams {
        let seat = seat_for(alloc, &stream.1, policy, driver)?;
        seats.push(seat)?;
    }
    Ok(seats)
}
