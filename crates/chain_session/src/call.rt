// Open calls.
ghost use Rattle.std.specs.Prelude.{◌≡◌};
ghost use Rattle.session_parts.specs.Opened.{returning_shown};
ghost use Rattle.chain_session.specs.Opened.{opened_of};

use chain_build::Chain;
use command_tables::{Code, CommandId, LayerCall, NoMemory};
use dispatch_chain::Held;
use model_driver::DriverReply;
use object_model::Argument;
use session_parts::ReturningCall;
use std::alloc::Global;
use trace_format::Name;

/// An open call: how it was judged, the call as it stood above each part that it came to and above the terminator, and what its drivers
/// answered.
pub struct OpenCall {
    pub(crate) number: u64,
    pub(crate) thread: u32,
    pub(crate) cmd: CommandId,
    pub(crate) args: Vec<Vec<Argument>>,
    pub(crate) results: Vec<Name>,
    pub(crate) code: Option<Code>,
    pub(crate) payload: Vec<u8>,
    /// The place that stopped the call.
    pub(crate) stop: Option<u32>,
    /// The code with which its chain is refused.
    pub(crate) refusal: Option<Code>,
    pub(crate) drivers: Vec<u32>,
    pub(crate) replies: Vec<DriverReply>,
    pub(crate) held: Held,
    pub(crate) bottom: LayerCall,
    /// The chain that comes in force where the call succeeds.
    pub(crate) chain: Option<Chain>,
}

impl Drop for OpenCall {
    fn drop(self) {
        let OpenCall {
            number: _number,
            thread: _thread,
            cmd: _cmd,
            args: _args,
            results: _results,
            code: _code,
            payload: _payload,
            stop: _stop,
            refusal: _refusal,
            drivers: _drivers,
            replies: _replies,
            held: _held,
            bottom: _bottom,
            chain: _chain,
        } = self;
    }
}

impl OpenCall {
    /// No call yet. A call is put in its place.
    pub(crate) fn none(alloc: Global) -> Result<OpenCall, NoMemory> {
        let bottom = LayerCall::with_room(alloc, 0, 0)?;
        Ok(OpenCall {
            number: 0,
            thread: 0,
            cmd: CommandId::CreateInstance,
            args: Vec::new(alloc),
            results: Vec::new(alloc),
            code: None,
            payload: Vec::new(alloc),
            stop: None,
            refusal: None,
            drivers: Vec::new(alloc),
            replies: Vec::new(alloc),
            held: Held::new(alloc),
            bottom,
            chain: None,
        })
    }
}

/// An open call as it returns.
pub(crate) fn returning(call: &OpenCall) -> ReturningCall<'_>
    ensures { returning_shown result ≡ opened_of call.now }
{
    ReturningCall {
        number: call.number,
        thread: call.thread,
        cmd: call.cmd,
        args: &call.args,
        results: &call.results,
        code: call.code,
        payload: &call.payload,
        stop: call.stop,
        refused: call.refusal.is_some(),
        drivers: &call.drivers,
    }
}
