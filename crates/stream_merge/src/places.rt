//! Where a thread's stream stands, and what comes next in it.
ghost use Rattle.std.specs.Prelude.{◌≡◌, ◌==◌, false, length, map, option_map, slice_get};
ghost use Rattle.std.specs.List.{position, slice_index_or};
ghost use Rattle.trace_format.specs.Content.{content};
ghost use Rattle.threaded_replay.specs.Files.{stream_part};
ghost use Rattle.stream_merge.specs.Passing.{advanced};

use trace_format::Event;

// The first place of a stream of the thread.
fn first_place(streams: &[(u32, Vec<Event>)], thread: u32) -> Option<usize>
    ensures { result ≡ position (λ s. s.0 == thread) streams.now }
{
    streams.iter().position(|stream| stream.0 == thread)
}

/// The place of a thread's stream.
pub fn place_of(streams: &[(u32, Vec<Event>)], thread: u32) -> Option<usize>
    ensures { result ≡ position (λ s. s.thread == thread) (map stream_part streams.now) }
{
    first_place(streams, thread)
}

/// The event behind so many of a stream's, and counts it.
pub fn next_event<'a>(events: &'a [Event], count: &mut usize) -> Option<&'a Event>
    ensures event { option_map (λ e. content e.now) result ≡ slice_get (map content events.now) count.old }
    ensures count { count.new ≡ advanced count.old (length events.now) }
{
    let event = events.get(*count)?;
    *count += 1;
    Some(event)
}

/// The mark behind so many of a stream's, and counts it; false behind the last.
pub fn next_mark(marks: &[bool], count: &mut usize) -> bool
    ensures mark { result ≡ slice_index_or marks.now count.old false }
    ensures count { count.new ≡ advanced count.old (length marks.now) }
{
    let Some(mark) = marks.get(*count) else {
        return false;
    };
    *count += 1;
    *mark
}
