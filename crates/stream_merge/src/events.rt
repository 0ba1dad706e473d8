//! The events of entries.
ghost use Rattle.std.specs.Prelude.{◌≡◌, ◌==◌, IfOk, OnOk, length, map};
ghost use Rattle.std.specs.List.{position};
ghost use Rattle.stream_log.specs.Log.{line_of};
ghost use Rattle.trace_format.specs.Content.{content};
ghost use Rattle.threaded_replay.specs.Files.{file_parts, stream_part};
ghost use Rattle.stream_merge.specs.Gathered.{events_gathered};
ghost use Rattle.stream_merge.specs.Passing.{Turned};

use crate::copies::copy_event;
use crate::places::{next_event, place_of};
use command_tables::NoMemory;
use std::alloc::Global;
use stream_log::Entry;
use threaded_replay::StreamFile;
use trace_format::Event;

// Counts a turn of a thread, and adds a copy of its next event. A thread without a stream has none.
fn take_turn(
    alloc: Global,
    streams: &[(u32, Vec<Event>)],
    counts: &mut [usize],
    events: &mut Vec<Event>,
    thread: u32,
) -> Result<(), NoMemory>
    requires { length counts.old ≡ length streams.now }
    ensures { OnOk result (Turned (position (λ s. s.thread == thread) (map stream_part streams.now)) (map stream_part streams.now) counts.old (map content events.old.items) counts.new (map content events.new.items)) }
{
    let Some(place) = place_of(streams, thread) else {
        return Ok(());
    };
    if let Some(event) = next_event(&streams[place].1, &mut counts[place]) {
        events.push(copy_event(alloc, event)?)?;
    }
    Ok(())
}

/// The events of entries, each the next of its thread's stream in the file. There is one for each, where each entry is a turn that has an event.
pub fn gather_events(
    alloc: Global,
    file: &StreamFile,
    entries: &[&Entry],
) -> Result<Vec<Event>, NoMemory>
    ensures { IfOk result (λ events. map content events.items ≡ events_gathered (file_parts file.now).streams (map (λ e. line_of e.now) entries.now)) }
{
    let mut counts = vec![in alloc; 0usize; file.streams.len()]?;
    let mut events = Vec::new(alloc);
    for entry in entries {
        take_turn(alloc, &file.streams, &mut counts, &mut events, entry.thread)?;
    }
    Ok(events)
}
