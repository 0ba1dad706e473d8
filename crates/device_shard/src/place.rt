//! The place of a thread in a plan, and what stands there.
ghost use Rattle.std.specs.Prelude.{◌≡◌, ◌==◌, ◌<◌, IsSome, Some, find, length, map, position, slice_get};
ghost use Rattle.stream_model.specs.FileParts.{StreamPart};
ghost use Rattle.stream_model.specs.Order.{event_thread};
ghost use Rattle.trace_format.specs.Content.{content};
ghost use Rattle.device_shard.specs.Plans.{plan_content};

use crate::plan::Plan;
use trace_format::Event;

// The first place of a stream of the thread.
fn first_place(streams: &[(u32, Vec<Event>)], thread: u32) -> Option<usize>
    ensures { result ≡ position (λ s. s.0 == thread) streams.now }
{
    streams.iter().position(|stream| stream.0 == thread)
}

/// The place of the thread's stream, from 0. It has one.
pub(crate) fn place_in(plan: &Plan, thread: u32) -> usize
    requires { IsSome (find (λ (s : StreamPart). s.thread == thread) (plan_content plan.now).streams) }
    ensures { slice_get (plan_content plan.now).streams result ≡ find (λ (s : StreamPart). s.thread == thread) (plan_content plan.now).streams }
{
    first_place(&plan.streams, thread).unwrap()
}

/// The event with a number, from 0, of the stream in a place. There is one.
pub fn event_in(plan: &Plan, place: usize, number: usize) -> &Event
    requires { (s : StreamPart) × (slice_get (plan_content plan.now).streams place ≡ Some s) × (number < length s.events) }
    ensures { (s : StreamPart) × (slice_get (plan_content plan.now).streams place ≡ Some s) × (slice_get s.events number ≡ Some (content result.now)) }
{
    &plan.streams[place].1[number]
}

/// The thread of an event.
pub(crate) fn thread_at(event: &Event) -> u32
    ensures { result ≡ event_thread (content event.now) }
{
    match event {
        Event::Begin { thread, .. } | Event::Return { thread } => *thread,
    }
}
