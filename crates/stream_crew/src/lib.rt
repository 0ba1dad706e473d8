//! What the workers of a file's streams are made from: their logs, their places and their room.
//! Promises that each worker is ready for the calls of its stream.
//! Leaves to others what a plan is, and what a worker does.
#![tactic(auto)]

mod counts;
mod crew;
mod dealing;
mod logs;
mod needs;

pub use counts::plus;
pub use crew::make_workers;
pub use logs::make_logs;
pub use needs::count_names;
