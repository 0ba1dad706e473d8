//! Prints what a setup and a chain of layers come to, a line for each note, layer, part and driver; and the lines of a trace's reports and
//! returns, and the last one.
//! Promises that what is appended is the definition's text, byte for byte; the one refusal is want of memory.
//! Leaves to others what the manifests and the chain are (`layer_search`, `chain_build`), and where the text goes.
#![tactic(auto)]

mod chains;
mod libraries;
mod notes;
mod put;
mod reports;
mod returns;
mod rows;
mod tally;

pub use chains::chain_lines;
pub use notes::note_line;
pub use reports::{identifier, report_line};
pub use returns::{end_line, return_line};
pub use tally::Tally;
