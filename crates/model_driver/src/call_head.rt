// What is kept of a call beside its lists.
use command_tables::{Code, CommandId};

#[derive(Clone, Copy)]
pub struct CallHead {
    pub driver: u32,
    pub cmd: CommandId,
    /// How many parameters it has.
    pub params: usize,
    pub asked: u32,
    pub code: Option<Code>,
}
