//! What a replay reads from and writes to: a source and a sink of bytes and a tree of files, over memory and over std.
//! Every meaning is a known equation on the bytes, and every fault is counted by the object that had it.
//! What the bytes say is left to the crates above; what a file or a terminal held is told by nobody.
#![tactic(auto)]

mod adapters;
mod faults;
mod file_tree;
mod limit;
mod line;
mod lines;
mod memory_sink;
mod memory_source;
mod memory_tree;
mod reader;
mod sink;
mod source;
mod tree;

pub use adapters::{ReadSource, WriteSink};
pub use faults::{Failed, NoMemory};
pub use file_tree::FsTree;
pub use limit::{MOST_LINE_BYTES, Which, the_limit_of_a_line};
pub use line::{Line, LineError};
pub use lines::{Split, facts_of_lines, split_line};
pub use memory_sink::MemSink;
pub use memory_source::{MemSource, PlainSource, give};
pub use memory_tree::MemTree;
pub use reader::LineReader;
pub use sink::{Sink, put_all};
pub use source::Source;
pub use tree::{Tree, TreeError, TreeRead, facts_of_listings};
