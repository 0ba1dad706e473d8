//! How a line that isn't that of an event is read.
ghost use Rattle.std.specs.Prelude.{◌≡◌};
ghost use Rattle.stream_model.specs.FileLines.{heading_of, is_event_line, stream_heading};

use crate::thread::thread;
use stream_model::Heading;

/// Whether a line is that of an event: it begins with `b ` or `r `.
pub fn is_event_line(line: &[u8]) -> bool
    ensures { result ≡ is_event_line line.now }
{
    line.strip_prefix(b"b ").is_some() || line.strip_prefix(b"r ").is_some()
}

// The heading of a stream: `stream`, one space and a thread.
fn stream_heading(line: &[u8]) -> Option<Heading>
    ensures { result ≡ stream_heading line.now }
{
    let thread = thread(line.strip_prefix(b"stream ")?)?;
    Some(Heading::Stream(thread))
}

/// The heading that a line spells.
#[tactic(auto, unfolding(stream_model::specs::FileLines::heading_of))]
pub fn heading_of(line: &[u8]) -> Option<Heading>
    ensures { result ≡ heading_of line.now }
{
    if line == b"setup".as_slice() {
        return Some(Heading::Setup);
    }
    if line == b"teardown".as_slice() {
        return Some(Heading::Teardown);
    }
    stream_heading(line)
}
