//! What a trace says of a call on a device: it is known by the setup and the events on this device alone.
//! Promises that whether a call is skipped, and what its drivers are told, is the same beside the calls on other devices as without them.
//! Leaves to others what a stream file is, and what a trace says of its calls.
#![tactic(auto)]

mod laws;

pub use laws::a_device_is_by_itself;
