//! What the seats of a run are told, by what the trace says.
//! Promises that each seat's list has gained, in order, the driver calls that the merge makes for its stream's thread, with their replies, and that
//! the replies are one for each driver call of the merge.
//! Leaves to others how a run goes.
#![tactic(auto)]

mod laws;

pub use laws::seats_are_told_what_the_trace_says;
