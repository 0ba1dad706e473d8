//! The plan of each device that the streams of a file name.
//! Promises that a plan has of each stream the events of its calls on the device, as the whole file tells the devices of names, and that there is a
//! plan for each device that a stream names; and that each call of a stream has the number of its device's plan.
//! Leaves to others what a stream file is, how one is read, and how a plan is carried out.
#![tactic(auto)]

mod adding;
mod dealing;
mod filling;
mod laws;
mod naming;
mod numbers;
mod plans;
mod table;

pub use laws::{each_call_is_on_a_planned_device, each_device_is_planned};
pub use plans::{Planned, plan_calls};
