// What the state of a trace keeps of one thread.
ghost use Rattle.std.specs.Prelude.{◌≡◌, ◌+◌, ◌<◌, ◌≤◌, ◌++◌, ◌^◌, [], true, false, length, OnErr, OnOk};
ghost use Rattle.trace_format.specs.Gains.{gained};

use command_tables::ObjectType;
use std::alloc::{AllocError, Global};

/// A thread: whether it has an open call, the number of its last call, and the types of its results, in order.
#[derive(Drop)]
pub struct ThreadState {
    pub is_open: bool,
    pub call: u64,
    pub types: Vec<ObjectType>,
}

/// Adds the types of so many results of a call; a command that makes nothing has none.
fn gain(
    types: &mut Vec<ObjectType>,
    made: Option<ObjectType>,
    count: usize,
) -> Result<(), AllocError>
    requires { length types.old.items + count < 2 ^ 64 }
    ensures ok { OnOk result (types.new.items ≡ types.old.items ++ gained made count) }
    ensures err { OnErr result (types.new.items ≡ types.old.items) }
{
    match made {
        None => Ok(()),
        Some(ty) => {
            let total = types.len() + count;
            types.resize(total, ty)
        }
    }
}

impl ThreadState {
    pub fn new(alloc: Global) -> ThreadState
        ensures is_open { result.is_open ≡ false }
        ensures call { result.call ≡ 0 }
        ensures types { result.types.items ≡ [] }
    {
        ThreadState {
            is_open: false,
            call: 0,
            types: Vec::new(alloc),
        }
    }

    /// Opens a call with so many results of what its command makes.
    pub fn begin(
        &mut self,
        call: u64,
        made: Option<ObjectType>,
        count: usize,
    ) -> Result<(), AllocError>
        requires { count ≤ 1024 }
        ensures is_open { OnOk result (self.new.is_open ≡ true) }
        ensures call { OnOk result (self.new.call ≡ call) }
        ensures types { OnOk result (self.new.types.items ≡ self.old.types.items ++ gained made count) }
        ensures is_open_err { OnErr result (self.new.is_open ≡ self.old.is_open) }
        ensures call_err { OnErr result (self.new.call ≡ self.old.call) }
        ensures types_err { OnErr result (self.new.types.items ≡ self.old.types.items) }
    {
        gain(&mut self.types, made, count)?;
        self.is_open = true;
        self.call = call;
        Ok(())
    }
}
