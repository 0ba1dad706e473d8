//! Why a line of a stream file is refused.
use trace_format::TraceFault;

/// Why a line of a stream file is refused, in the order in which the causes of one line are found.
#[derive(Clone, Copy, Debug, PartialEq, Eq)]
pub enum Refusal {
    /// It is one line too many.
    Lines,
    /// It is too long.
    LineBytes,
    /// It has a fault of a trace: one of the line itself before `Section`, one of its place behind it.
    Fault(TraceFault),
    /// It is no heading, or out of its order, or an event of another thread than its stream's.
    Section,
    /// A call of a stream is on no device.
    NoDevice,
    /// A call of a stream ends a device, makes a swapchain, or takes what another stream was given.
    NotInStream,
    /// A call of a stream takes what is of another device.
    CrossDevice,
    /// It would bring too many names.
    Names,
    /// It is one event too many.
    Events,
    /// It names one device too many.
    Devices,
}
