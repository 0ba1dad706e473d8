//! Where a name comes from.
use trace_format::Name;

/// Where a name comes from: its written device, and the thread of the stream in which it was given, where it was in one.
#[derive(Clone, Copy, Debug, PartialEq, Eq)]
pub struct Origin {
    pub device: Option<Name>,
    pub stream: Option<u32>,
}
