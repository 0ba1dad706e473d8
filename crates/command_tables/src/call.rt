//! The call that passes down a chain of layers.
ghost use Rattle.std.specs.Prelude.{◌≡◌, ◌≤◌, IfOk, IsOk, OnErr, OnOk, vec_capacity};
ghost use Rattle.command_tables.specs.Handles.{HasRoom};

use crate::args::HandleArgs;
use crate::memory::{NoMemory, make_room, refill};
use crate::types::{Code, CommandId};
use std::alloc::Global;

/// A call as a layer is given it. Its shape is that of its command's row: a list of handles for each parameter, with exactly
/// one handle where the parameter takes no list.
#[derive(Debug)]
pub struct LayerCall {
    pub cmd: CommandId,
    pub args: HandleArgs<6>,
    /// How many handles the call asks for: at the top the number of its result names.
    pub asked: u32,
    /// The code that the driver is told to answer; none where the command answers nothing.
    pub code: Option<Code>,
    /// What else the call takes, which is passed on.
    pub payload: Vec<u8>,
}

impl Drop for LayerCall {
    fn drop(self) {
        let LayerCall {
            cmd: _cmd,
            args: _args,
            asked: _asked,
            code: _code,
            payload: _payload,
        } = self;
    }
}

impl LayerCall {
    ghost use Rattle.command_tables.specs.Calls.{HasRoomFor, call_content, no_call};

    /// A call without arguments, of the one command that has none, that can hold so many handles and payload bytes with no
    /// further memory.
    pub fn with_room(alloc: Global, handles: usize, bytes: usize) -> Result<LayerCall, NoMemory>
        ensures content { IfOk result (λ call. call_content call ≡ no_call) }
        ensures handles { IfOk result (λ call. HasRoom call.args 6 handles) }
        ensures bytes { IfOk result (λ call. bytes ≤ vec_capacity call.payload) }
    {
        let args = HandleArgs::with_room(alloc, handles)?;
        let payload = Vec::with_capacity(alloc, bytes)?;
        Ok(LayerCall {
            cmd: CommandId::CreateInstance,
            args,
            asked: 0,
            code: None,
            payload,
        })
    }

    /// Becomes another call. After `NoMemory` it is as before; that comes only where there was no room.
    pub fn copy_from(&mut self, other: &LayerCall) -> Result<(), NoMemory>
        ensures ok { OnOk result (call_content self.new ≡ call_content other.now) }
        ensures err { OnErr result (call_content self.new ≡ call_content self.old) }
        ensures succeeds { HasRoomFor self.old (call_content other.now) → IsOk result }
        ensures handles { HasRoom self.new.args self.old.args.slots self.old.args.room }
        ensures bytes { vec_capacity self.old.payload ≤ vec_capacity self.new.payload }
    {
        make_room(&mut self.payload, other.payload.len())?;
        self.args.copy_from(&other.args)?;
        refill(&mut self.payload, &other.payload)?;
        self.cmd = other.cmd;
        self.asked = other.asked;
        self.code = other.code;
        Ok(())
    }
}
