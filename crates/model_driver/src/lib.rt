//! Drivers: what a driver is told, and what it may answer; the drivers of the program and of tests.
//! Promises that each answers the code that it is told, with as many handles as are due, and that a log holds each call.
//! Leaves to others what a call means and which calls a driver is told.
#![tactic(auto)]

mod adverse_driver;
mod call_head;
mod driver;
mod due;
mod flat_calls;
mod flat_lists;
mod given_values;
mod laws;
mod model_driver;
mod recording_driver;
mod recording_shared;
mod seat_driver;
mod shape;
mod shared_driver;
mod shared_model;

pub use adverse_driver::AdverseDriver;
pub use driver::{Driver, DriverCall, DriverReply, Policy};
pub use laws::{rows_of_seats, values_by_policy};
pub use model_driver::ModelDriver;
pub use recording_driver::RecordingDriver;
pub use recording_shared::{RecordingSeat, RecordingShared};
pub use seat_driver::SeatDriver;
pub use shared_driver::SharedDriver;
pub use shared_model::{ModelSeat, SharedModel};
