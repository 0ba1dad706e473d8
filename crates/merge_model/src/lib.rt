//! The merges of the streams of a file.
//! Promises that a merge stands between setup and teardown as a whole trace, that turns which are all taken make one, that what it has of a
//! device follows the device's plan, and that the calls of each stream are those of the plans; and shows a merge of a small file by computation.
//! Leaves to others what a stream file is, and who makes a merge.
#![tactic(auto)]

mod devices;
mod planned;
mod rows;
mod turns;
mod whole;

pub use devices::a_device_of_a_merge_follows_its_plan;
pub use planned::each_call_has_its_plan;
pub use turns::turns_make_a_merge;
pub use whole::a_merge_is_a_whole_trace;
