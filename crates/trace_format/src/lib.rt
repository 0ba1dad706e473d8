//! The events of a recorded trace, and how a line of the trace spells one.
//! Promises that an event has one spelling, and that reading a line from its front gives the event that it spells or the first fault.
//! Leaves to others what the events do to objects, and where the lines come from.
#![tactic(auto)]

mod event;
mod fault;
mod laws;
mod limits;
mod parse;
mod print;
mod samples;
mod state;
mod thread;

pub use event::{Event, Name, TraceArg};
pub use fault::TraceFault;
pub use laws::{
    a_line_spells_one_event, a_printed_line_is_read_again, reading_agrees_with_spelling,
};
pub use limits::{HEADER, MAX_NAMES, MAX_PLACES, MAX_THREADS, the_limits_of_a_grammar};
pub use parse::{EventRoom, ParseError, parse_line};
pub use print::print_line;
pub use samples::{
    events_after_events, events_with_two_faults, lines_with_one_fault, lines_with_two_faults,
    longest_list, spelled_lines,
};
pub use state::{AcceptError, TraceState};
