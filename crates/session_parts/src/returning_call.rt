// What a return asks of its call.
ghost use Rattle.std.specs.Prelude.{◌≡◌};
ghost use Rattle.replay_model.specs.Past.{is_skipped};
ghost use Rattle.session_parts.specs.Opened.{returning_shown};

use command_tables::{Code, CommandId};
use object_model::Argument;
use trace_format::Name;

/// What a return asks of its call. It is lent by an open call, or by the call's begin and what its names stand for.
#[derive(Clone, Copy)]
pub struct ReturningCall<'a> {
    pub number: u64,
    pub thread: u32,
    pub cmd: CommandId,
    pub args: &'a [Vec<Argument>],
    pub results: &'a [Name],
    pub code: Option<Code>,
    pub payload: &'a [u8],
    /// The place that stopped the call.
    pub stop: Option<u32>,
    /// Whether its chain is refused.
    pub refused: bool,
    pub drivers: &'a [u32],
}

/// Whether such a call was skipped.
pub(crate) fn was_skipped(call: ReturningCall<'_>) -> bool
    ensures { result ≡ is_skipped (returning_shown call.entry) }
{
    call.refused || call.stop.is_some()
}
