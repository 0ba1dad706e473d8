//! What is kept of a thread at a device.
use command_tables::LayerCall;
use dispatch_chain::Held;
use lifetime_layer::Verdict;

/// How many steps the thread has made; and, where the last of them was a begin, the call as it stood below the last part, what the parts hold
/// of it, and what was found.
#[derive(Drop)]
pub struct Lane {
    pub(crate) steps: usize,
    pub(crate) call: LayerCall,
    pub(crate) held: Held,
    pub(crate) verdict: Verdict,
}
