//! The words of a command line.
//! Promises what each list of words asks for, and which aren't understood; `clap` reads what passes a check of this crate's own.
//! Leaves to others what a command does.
#![tactic(auto)]

mod check;
mod laws;
mod read;

pub use laws::a_number_is_its_spelling;
pub use read::{ChainWords, GenWords, Request, RunWords, SoakWords, WordsError, read_words};
