// The driver at the end of a chain.
ghost use Rattle.std.specs.Prelude.{◌≡◌, ◌≤◌, ◌↔◌, [], None, IfOk, IsTrue, vec_capacity};
ghost use Rattle.command_tables.specs.Calls.{call_content, no_call};
ghost use Rattle.command_tables.specs.Handles.{HasRoom};

use crate::shape::{fits_asked, fits_row};
use command_tables::{Code, LayerCall, NoMemory, row};
use std::alloc::Global;

/// Which handles a model driver answers.
#[derive(Clone, Copy, Debug, PartialEq, Eq)]
pub enum Policy {
    /// 1, 2, 3 and so on, for each driver by itself: what it has not given before.
    Fresh,
    /// The least positive value that the driver hasn't out. A value comes back by a call to this driver that has it as an
    /// argument which its command destroys or frees.
    Reuse,
    /// 1 always.
    Share,
}

/// A call to a driver. No mark of its body counts.
#[derive(Debug)]
pub struct DriverCall {
    /// The driver's place in the chain, from 0.
    pub driver: u32,
    pub body: LayerCall,
}

impl Drop for DriverCall {
    fn drop(self) {
        let DriverCall {
            driver: _driver,
            body: _body,
        } = self;
    }
}

impl DriverCall {
    ghost use Rattle.model_driver.specs.Driver.{call_shown, HasShape};

    /// A call without arguments to the first driver, of the one command that has none, that can hold so many handles and
    /// payload bytes with no further memory.
    pub fn with_room(alloc: Global, handles: usize, bytes: usize) -> Result<DriverCall, NoMemory>
        ensures driver { IfOk result (λ call. call.driver ≡ 0) }
        ensures content { IfOk result (λ call. call_content call.body ≡ no_call) }
        ensures handles { IfOk result (λ call. HasRoom call.body.args 6 handles) }
        ensures bytes { IfOk result (λ call. bytes ≤ vec_capacity call.body.payload) }
    {
        let body = LayerCall::with_room(alloc, handles, bytes)?;
        Ok(DriverCall { driver: 0, body })
    }

    /// Whether the call has the shape of its command's row.
    pub fn has_shape(&self) -> bool
        ensures { IsTrue result ↔ HasShape (call_shown self.now) }
    {
        let row = row(self.body.cmd);
        fits_row(row.params, &self.body.args) && fits_asked(row.effect, self.body.asked)
    }
}

/// What a driver answered.
#[derive(Debug)]
pub struct DriverReply {
    pub code: Option<Code>,
    pub handles: Vec<u64>,
}

impl Drop for DriverReply {
    fn drop(self) {
        let DriverReply {
            code: _code,
            handles: _handles,
        } = self;
    }
}

impl DriverReply {
    /// A reply with no code and no handle that can hold so many handles with no further memory.
    pub fn with_room(alloc: Global, handles: usize) -> Result<DriverReply, NoMemory>
        ensures code { IfOk result (λ reply. reply.code ≡ None) }
        ensures empty { IfOk result (λ reply. reply.handles.items ≡ []) }
        ensures handles { IfOk result (λ reply. handles ≤ vec_capacity reply.handles) }
    {
        Ok(DriverReply {
            code: None,
            handles: Vec::with_capacity(alloc, handles)?,
        })
    }
}

/// A driver: it answers the code that it is told, and any handles but 0.
pub trait Driver {
    ghost use Rattle.std.specs.Prelude.{◌≡◌, ◌∷◌, [], Option, OnOk, OnErr};
    ghost use Rattle.command_tables.specs.Calls.{DriverCallContent, ReplyContent};
    ghost use Rattle.model_driver.specs.declared.driver.Policy.{Policy};
    ghost use Rattle.model_driver.specs.Driver.{call_shown, reply_shown, prepared, HasShape, IsAnsweredBy};
    ghost use Rattle.model_driver.specs.Logs.{Log, logged};

    /// What the driver tells of the calls so far: nothing, their replies, or each call with its reply.
    ghost log: { Self → Log };

    /// The policy by which it answers, where it tells one.
    ghost answers_by: { Self → Option Policy };

    /// What a policy that it is told makes of the driver.
    ghost prepare_gives: { Self → Policy → Self → Type 0 };

    /// What an answered call makes of the driver.
    ghost call_gives: { Self → DriverCallContent → ReplyContent → Self → Type 0 };

    /// Says which handles to answer from now on, to a driver that has a choice.
    fn prepare(&mut self, policy: Policy)
        ensures gives { prepare_gives self.old policy self.new }
        ensures policy { answers_by self.new ≡ prepared (answers_by self.old) policy }
        ensures log { log self.new ≡ log self.old };

    /// Answers a call: with the call's code and, where the call succeeds, as many handles as it asks for. What stood in
    /// `reply` before is gone. After `NoMemory` anything stands there, and the driver is as it was.
    fn call(&mut self, call: &DriverCall, reply: &mut DriverReply) -> Result<(), NoMemory>
        requires { HasShape (call_shown call.now) }
        ensures answers { OnOk result (IsAnsweredBy (call_shown call.now) (reply_shown reply.new)) }
        ensures gives { OnOk result (call_gives self.old (call_shown call.now) (reply_shown reply.new) self.new) }
        ensures policy { answers_by self.new ≡ answers_by self.old }
        ensures ok { OnOk result (log self.new ≡ logged (log self.old) ((call_shown call.now, reply_shown reply.new) ∷ [])) }
        ensures err { OnErr result (log self.new ≡ log self.old) }
        ensures same { OnErr result (self.new ≡ self.old) };
}
