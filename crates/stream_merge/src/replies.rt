//! The replies to calls that were sent.
ghost use Rattle.std.specs.Prelude.{◌≡◌, ◌≤◌, ◌==◌, [], IfOk, OnOk, length, map, option_map};
ghost use Rattle.std.specs.List.{position, slice_index_or};
ghost use Rattle.command_tables.specs.Calls.{ReplyContent};
ghost use Rattle.stream_log.specs.Log.{line_of};
ghost use Rattle.trace_format.specs.Content.{content};
ghost use Rattle.model_driver.specs.Driver.{reply_shown};
ghost use Rattle.threaded_replay.specs.Files.{file_parts, stream_part};
ghost use Rattle.stream_merge.specs.Gathered.{code_of_event, replies_gathered};
ghost use Rattle.stream_merge.specs.Passing.{Moved, answered, cursor_after, no_cursor, replies_after};

use crate::cursor::Cursor;
use crate::places::{next_event, next_mark, place_of};
use command_tables::{Code, NoMemory};
use model_driver::DriverReply;
use std::alloc::{AllocError, Global};
use stream_log::Entry;
use threaded_replay::StreamFile;
use trace_format::Event;

// The code of a call by its begin.
fn code_of(event: Option<&Event>) -> Option<Code>
    ensures { result ≡ code_of_event (option_map (λ e. content e.now) event.entry) }
{
    match event {
        Some(Event::Begin { code, .. }) => *code,
        Some(Event::Return { .. }) | None => None,
    }
}

// The marks of the stream at a place; none where there are none.
fn marks_at(sent: &[Vec<bool>], place: usize) -> &[bool]
    ensures { result.now ≡ slice_index_or (map (λ s. s.items) sent.now) place [] }
{
    match sent.get(place) {
        Some(marks) => marks,
        None => &[],
    }
}

// A copy of handles.
fn copied(alloc: Global, handles: &[u64]) -> Result<Vec<u64>, AllocError>
    ensures { IfOk result (λ copy. copy.items ≡ handles.now) }
{
    handles.to_vec(alloc)
}

// Puts the handles of a return into the reply at a place, where there is one.
fn answer(
    alloc: Global,
    replies: &mut [DriverReply],
    place: Option<usize>,
    handles: &[u64],
) -> Result<(), NoMemory>
    ensures { OnOk result (map reply_shown replies.new ≡ answered place handles.now (map reply_shown replies.old)) }
{
    let Some(place) = place else {
        return Ok(());
    };
    if place < replies.len() {
        replies[place].handles = copied(alloc, handles)?;
    }
    Ok(())
}

// The cursor at a place, and one at the start where there is none.
fn cursor_at(cursors: &[Cursor], place: usize) -> Cursor
    ensures { result ≡ slice_index_or cursors.now place no_cursor }
{
    match cursors.get(place) {
        Some(cursor) => *cursor,
        None => Cursor {
            events: 0,
            calls: 0,
            waiting: None,
        },
    }
}

// Moves a stream's cursor over an entry of its thread: adds a reply where a call was sent, and answers it at its return.
fn pass_entry(
    alloc: Global,
    events: &[Event],
    marks: &[bool],
    cursor: &mut Cursor,
    replies: &mut Vec<DriverReply>,
    entry: &Entry,
) -> Result<(), NoMemory>
    ensures cursor { OnOk result (cursor.new ≡ cursor_after (map content events.now) marks.now (length replies.old.items) (line_of entry.now) cursor.old) }
    ensures replies { OnOk result (map reply_shown replies.new.items ≡ replies_after (map content events.now) marks.now cursor.old (line_of entry.now) (map reply_shown replies.old.items)) }
{
    let event = next_event(events, &mut cursor.events);
    if !entry.begins {
        answer(alloc, replies, cursor.waiting, &entry.results)?;
        cursor.waiting = None;
        return Ok(());
    }
    cursor.waiting = None;
    if next_mark(marks, &mut cursor.calls) {
        cursor.waiting = Some(replies.len());
        let handles = Vec::new(alloc);
        replies.push(DriverReply {
            code: code_of(event),
            handles,
        })?;
    }
    Ok(())
}

// The same among all streams. An entry whose thread has none counts for nothing.
fn pass(
    alloc: Global,
    streams: &[(u32, Vec<Event>)],
    sent: &[Vec<bool>],
    cursors: &mut [Cursor],
    replies: &mut Vec<DriverReply>,
    entry: &Entry,
) -> Result<(), NoMemory>
    requires { length cursors.old ≡ length streams.now }
    ensures { OnOk result (Moved (position (λ s. s.thread == entry.now.thread) (map stream_part streams.now)) (map stream_part streams.now) (map (λ s. s.items) sent.now) (line_of entry.now)
        cursors.old (map reply_shown replies.old.items) cursors.new (map reply_shown replies.new.items)) }
{
    let Some(place) = place_of(streams, entry.thread) else {
        return Ok(());
    };
    let events = &streams[place].1;
    let marks = marks_at(sent, place);
    let mut cursor = cursor_at(cursors, place);
    pass_entry(alloc, events, marks, &mut cursor, replies, entry)?;
    cursors[place] = cursor;
    Ok(())
}

/// What was replied to the calls that were sent, in the order of their begins: each call's code, and the results of its return. `sent` says of each
/// call of each stream whether it was sent. Each entry is looked at once.
pub fn gather_replies(
    alloc: Global,
    file: &StreamFile,
    sent: &[Vec<bool>],
    entries: &[&Entry],
) -> Result<Vec<DriverReply>, NoMemory>
    ensures { IfOk result (λ replies. map reply_shown replies.items ≡ replies_gathered (file_parts file.now).streams (map (λ s. s.items) sent.now) (map (λ e. line_of e.now) entries.now)) }
{
    let start = Cursor {
        events: 0,
        calls: 0,
        waiting: None,
    };
    let mut cursors = vec![in alloc; start; file.streams.len()]?;
    let mut replies = Vec::new(alloc);
    for entry in entries {
        pass(
            alloc,
            &file.streams,
            sent,
            &mut cursors,
            &mut replies,
            entry,
        )?;
    }
    Ok(replies)
}
