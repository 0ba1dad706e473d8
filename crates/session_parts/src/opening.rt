// What a begin event says.

use command_tables::{Code, CommandId};
use trace_format::{Name, TraceArg};

/// What a begin event says.
#[derive(Clone, Copy)]
pub struct Beginning<'a> {
    pub thread: u32,
    pub cmd: CommandId,
    pub args: &'a [TraceArg],
    pub results: &'a [Name],
    pub code: Option<Code>,
    pub payload: &'a [u8],
}
