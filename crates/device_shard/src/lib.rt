//! The state of a device behind one lock, which is the replay of the device's log.
//! Promises that each begin and each return is one entry of the log, with the state that the log so far comes to, and takes no memory.
//! Leaves to others the log itself, who takes the locks, and how logs are merged.
#![tactic(auto)]

mod begin_step;
mod begun;
mod closing;
mod counts;
mod draw;
mod entering;
mod fresh;
mod gathering;
mod lane;
mod laws;
mod locked;
mod making;
mod measure;
mod names;
mod place;
mod plan;
mod return_step;
mod room;
mod set;
mod shard;
mod shard_ref;

pub use begun::Begun;
pub use laws::a_token_knows_what_comes_next;
pub use locked::LockedLog;
pub use names::ShardNames;
pub use place::event_in;
pub use plan::Plan;
pub use set::ShardSet;
pub use shard::Shard;
pub use shard_ref::ShardRef;
