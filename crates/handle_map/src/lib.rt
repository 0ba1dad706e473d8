//! A set of pairs of a type and an id, an index of such pairs whose ids are mostly dense, and a map from such pairs to lists of values, all
//! in order of insertion.
//! Promises that each is its list after every call, for every number of chains, and that room that was made is enough.
//! Leaves to others what the ids and the values stand for.
#![tactic(auto)]

mod bounds;
mod chain;
mod entry;
mod hints;
mod kept_pair;
mod map;
mod pair_index;
mod pair_list;
mod place_rows;
mod set;
mod span;
mod values;

pub use map::HandleMap;
pub use pair_index::PairIndex;
pub use set::HandleSet;
