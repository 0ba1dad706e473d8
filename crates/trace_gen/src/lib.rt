//! Traces that are made from a number: buffers that are created, asked for their memory requirements and destroyed.
//! What is written to a sink, and what a source gives, is known as a function of the number and of how many turns there are.
//! What a replay of such a trace prints is left to others.
#![tactic(auto)]

mod call;
mod error;
mod laws;
mod rows;
mod source;
mod text;
mod turns;
mod writing;

pub use error::GenError;
pub use laws::{facts_of_stops, facts_of_traces, the_limit_of_turns};
pub use rows::traces_of_zero;
pub use source::GenSource;
pub use turns::MOST_CALLS;
pub use writing::generate;
