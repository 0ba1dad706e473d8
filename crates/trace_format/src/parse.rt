//! How a line is read: each function reads one part of the grammar from the front.
mod arguments;
mod endings;
mod error;
mod line;
mod names;
mod printable;
mod results;
mod room;
mod words;

pub use error::ParseError;
pub use line::parse_line;
pub use room::EventRoom;
