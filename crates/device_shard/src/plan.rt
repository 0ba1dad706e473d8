//! The plan of a device.
use trace_format::{Event, Name};

/// A device, and for each thread the events of its calls on the device, in their order. Contracts see it by `plan_content`.
pub struct Plan {
    pub device: Name,
    pub streams: Vec<(u32, Vec<Event>)>,
}

impl Drop for Plan {
    fn drop(self) {
        let Plan {
            device: _device,
            streams: _streams,
        } = self;
    }
}
