//! What the shard of a device starts from: a session that stands for the setup of a stream file, and a plan that is cut from the file.
//! Promises that the plan can be followed from there, what is open and how much was born then, and what a call on the way needs.
//! Leaves to others the file, the log and the code of a step.
#![tactic(auto)]

mod births;
mod calls;
mod cutting;

pub use births::few_objects_were_born;
pub use calls::a_call_on_a_device_is_small;
pub use cutting::a_cut_plan_can_start;
