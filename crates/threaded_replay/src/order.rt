//! The order of a file's sections.
ghost use Rattle.std.specs.Prelude.{◌≡◌, ◌==◌};
ghost use Rattle.std.specs.List.{list_any};
ghost use Rattle.trace_format.specs.Content.{content};
ghost use Rattle.stream_model.specs.Order.{event_thread, follows, heading_thread, is_in_order, is_new_stream, takes_thread};

use stream_model::{Heading, MOST_STREAMS};
use trace_format::Event;

/// Whether a heading comes in its order behind another, or first.
fn follows(before: Option<Heading>, heading: Heading) -> bool
    ensures { result ≡ follows before heading }
{
    match before {
        None => matches!(heading, Heading::Setup),
        Some(Heading::Setup | Heading::Stream(_)) => !matches!(heading, Heading::Setup),
        Some(Heading::Teardown) => false,
    }
}

/// Whether a thread is one of these.
fn has_stream(threads: &[u32], thread: u32) -> bool
    ensures { result ≡ list_any (λ t. t == thread) threads.now }
{
    threads.iter().any(|t| *t == thread)
}

// Whether there may be one stream more, and a thread has none yet.
fn is_new_stream(threads: &[u32], thread: u32) -> bool
    ensures { result ≡ is_new_stream threads.now thread }
{
    threads.len() < MOST_STREAMS && !has_stream(threads, thread)
}

/// The thread of a stream's heading.
pub fn heading_thread(heading: Heading) -> Option<u32>
    ensures { result ≡ heading_thread heading }
{
    match heading {
        Heading::Stream(thread) => Some(thread),
        Heading::Setup | Heading::Teardown => None,
    }
}

/// Whether a heading is in its order behind this section and the streams of these threads.
pub fn is_in_order(before: Option<Heading>, threads: &[u32], heading: Heading) -> bool
    ensures { result ≡ is_in_order before threads.now heading }
{
    follows(before, heading)
        && match heading_thread(heading) {
            None => true,
            Some(thread) => is_new_stream(threads, thread),
        }
}

/// The thread of an event.
pub fn event_thread(event: &Event) -> u32
    ensures { result ≡ event_thread (content event.now) }
{
    match event {
        Event::Begin { thread, .. } | Event::Return { thread } => *thread,
    }
}

/// Whether an event of a thread may stand in a section.
pub fn takes_thread(section: Option<Heading>, thread: u32) -> bool
    ensures { result ≡ takes_thread section thread }
{
    match section {
        None => false,
        Some(Heading::Stream(own)) => own == thread,
        Some(Heading::Setup | Heading::Teardown) => true,
    }
}
