//! The parts of a session: the states of the chain's layers, the end of the chain, and the names with their objects, with all that a call changes of them.
//! Promises that the begin and the return of a call change them as the definitions say, and take no memory where there is room for them.
//! Leaves to others the open calls and counts of a session, the chain that comes in force, and what the drivers are told.
#![tactic(auto)]

mod bearing;
mod forms;
mod handed;
mod judging;
mod keeping;
mod leaving;
mod name_table;
mod names;
mod opening;
mod parts;
mod raising;
mod recalling;
mod results;
mod returning_call;
mod scratch;

pub use forms::{Passed, put_call};
pub use handed::HandedTable;
pub use judging::stop_of;
pub use name_table::NameTable;
pub use names::put_places;
pub use opening::Beginning;
pub use parts::SessionParts;
pub use raising::{lost_results, put_flags, raise_lost};
pub use results::put_made;
pub use returning_call::ReturningCall;
