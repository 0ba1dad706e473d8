// A driver that keeps its log.
ghost use Rattle.std.specs.Prelude.{◌≡◌, ◌∷◌, ◌++◌, [], map, Some, IfOk, OnOk, OnErr, take, length};
ghost use Rattle.command_tables.specs.Calls.{call_content, DriverCallContent, ReplyContent};
ghost use Rattle.model_driver.specs.Driver.{call_shown, reply_shown, HasShape, IsAnsweredBy};
ghost use Rattle.model_driver.specs.Logs.{Log, logged, exchanges_shown};

use crate::driver::{Driver, DriverCall, DriverReply, Policy};
use crate::due::handles_due;
use command_tables::{HandleArgs, LayerCall, NoMemory};
use std::alloc::Global;
use std::marker::Model;

/// A driver with the list of its calls, each with its reply.
#[derive(Drop)]
pub struct RecordingDriver<D> {
    inner: D,
    calls: Vec<(DriverCall, DriverReply)>,
}

impl<D> Model for RecordingDriver<D> {
    ghost use Rattle.model_driver.specs.Logs.{Recorded, exchanges_shown};

    ghost Value = { Recorded D };

    ghost view = { λ d. record { inner = d.inner; calls = exchanges_shown d.calls.items } };
}

impl<D: Driver> RecordingDriver<D> {
    pub fn new(alloc: Global, inner: D) -> RecordingDriver<D>
        ensures { result ≡ record { inner = inner; calls = [] } }
    {
        RecordingDriver {
            inner,
            calls: Vec::new(alloc),
        }
    }

    /// The calls so far, each with its reply.
    pub fn log(&self) -> &[(DriverCall, DriverReply)]
        ensures { exchanges_shown result.now ≡ self.now.calls }
    {
        &self.calls
    }
}

// The lists of handles of a call, without its marks.
#[tactic(auto, using(crate::proofs::Copies::one_more, crate::proofs::Copies::all_taken))]
fn copy_lists(alloc: Global, args: &HandleArgs<6>) -> Result<HandleArgs<6>, NoMemory>
    ensures { IfOk result (λ copy. copy.lists ≡ args.now.lists) }
{
    let mut copy = HandleArgs::new(alloc);
    for p in 0..args.len() {
        copy.push_param(args.param(p))?;
    }
    Ok(copy)
}

fn copy_bytes(alloc: Global, bytes: &[u8]) -> Result<Vec<u8>, NoMemory>
    ensures { IfOk result (λ copy. copy.items ≡ bytes.now) }
{
    Ok(Vec::from_slice(alloc, bytes)?)
}

fn copy_call(alloc: Global, call: &DriverCall) -> Result<DriverCall, NoMemory>
    ensures { IfOk result (λ copy. call_shown copy ≡ call_shown call.now) }
{
    let args = copy_lists(alloc, &call.body.args)?;
    let payload = copy_bytes(alloc, &call.body.payload)?;
    Ok(DriverCall {
        driver: call.driver,
        body: LayerCall {
            cmd: call.body.cmd,
            args,
            asked: call.body.asked,
            code: call.body.code,
            payload,
        },
    })
}

impl<D: Driver> Driver for RecordingDriver<D> {
    ghost use Rattle.std.specs.Prelude.{◌≡◌, ◌∷◌, [], ◌++◌};
    ghost use Rattle.model_driver.specs.Logs.{Calls};

    ghost log = { λ d. Calls d.calls };

    ghost answers_by = { λ d. D.answers_by d.inner };

    ghost prepare_gives = { λ before policy behind. D.prepare_gives before.inner policy behind.inner × (behind.calls ≡ before.calls) };

    ghost call_gives = { λ before call reply behind. D.call_gives before.inner call reply behind.inner × (behind.calls ≡ before.calls ++ (call, reply) ∷ []) };

    fn prepare(&mut self, policy: Policy) {
        self.inner.prepare(policy);
    }

    // All memory is taken before the driver is asked, so that no call of its is missing.
    fn call(&mut self, call: &DriverCall, reply: &mut DriverReply) -> Result<(), NoMemory> {
        let alloc = *self.calls.allocator();
        let copy = copy_call(alloc, call)?;
        let mut handles = Vec::with_capacity(alloc, handles_due(call) as usize)?;
        self.calls.reserve(1)?;
        self.inner.call(call, reply)?;
        handles.extend_from_slice(&reply.handles).unwrap();
        let kept = DriverReply {
            code: reply.code,
            handles,
        };
        self.calls.push((copy, kept)).unwrap();
        Ok(())
    }
}
