//! Events of a trace.
use command_tables::{Code, CommandId};

/// The name of a result: the `number`-th that a thread's calls were given, from 1. Threads are 1 to 1,024, numbers 1 to 4,194,304.
#[derive(Clone, Copy, Debug, PartialEq, Eq, Hash)]
pub struct Name {
    pub thread: u32,
    pub number: u32,
}

/// An argument: one place, or a list of at most 1,024 places. A place without a name is null.
#[derive(Debug, Drop, PartialEq, Eq)]
pub struct TraceArg {
    pub many: bool,
    pub names: Vec<Option<Name>>,
}

/// An event of a trace.
#[derive(Debug, Drop, PartialEq, Eq)]
pub enum Event {
    /// A thread enters a command.
    Begin {
        thread: u32,
        cmd: CommandId,
        args: Vec<TraceArg>,
        results: Vec<Name>,
        /// The code that the driver is told to answer; none where the command answers nothing.
        code: Option<Code>,
        payload: Vec<u8>,
    },
    /// The open call of a thread returns.
    Return {
        thread: u32,
    },
}
