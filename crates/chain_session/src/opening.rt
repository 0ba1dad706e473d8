// A call is opened.
ghost use Rattle.std.specs.Prelude.{◌≡◌, [], IfOk, OnOk};
ghost use Rattle.std.specs.Box.{box_value};
ghost use Rattle.session_parts.specs.Opening.{begin_content, opened_first};
ghost use Rattle.chain_session.specs.Opened.{opened_of};

use crate::call::OpenCall;
use crate::names::put_arguments;
use crate::room::{Room, Spares};
use chain_build::Chain;
use command_tables::{Code, NoMemory};
use object_model::Argument;
use session_parts::Beginning;
use session_tables::NamedTable;

// Puts the call of a begin, before it is judged, in place of the one that stood there.
fn put_opened(
    call: &mut OpenCall,
    room: &mut Spares<Argument>,
    names: &NamedTable,
    number: u64,
    begin: Beginning,
    refusal: Option<Code>,
    chain: Option<Chain>,
) -> Result<(), NoMemory>
    ensures opened { OnOk result (opened_of call.new ≡ opened_first number names.now.names (begin_content begin.entry) refusal) }
    ensures unheld { OnOk result (call.new.held.forms ≡ []) }
    ensures replies { OnOk result (call.new.replies.items ≡ []) }
    ensures refusal { OnOk result (call.new.refusal ≡ refusal) }
    ensures chain { OnOk result (call.new.chain ≡ chain) }
{
    put_arguments(room, names, begin.args, &mut call.args)?;
    call.results.clear();
    call.results.extend_from_slice(begin.results)?;
    call.payload.clear();
    call.payload.extend_from_slice(begin.payload)?;
    call.drivers.clear();
    call.replies.clear();
    call.held.clear();
    call.number = number;
    call.thread = begin.thread;
    call.cmd = begin.cmd;
    call.code = begin.code;
    call.stop = None;
    call.refusal = refusal;
    call.chain = chain;
    Ok(())
}

/// The call of a begin, before it is judged.
pub(crate) fn open_call(
    room: &mut Room,
    names: &NamedTable,
    number: u64,
    begin: Beginning,
    refusal: Option<Code>,
    chain: Option<Chain>,
) -> Result<Box<OpenCall>, NoMemory>
    ensures opened { IfOk result (λ b. opened_of (box_value b) ≡ opened_first number names.now.names (begin_content begin.entry) refusal) }
    ensures unheld { IfOk result (λ b. (box_value b).held.forms ≡ []) }
    ensures replies { IfOk result (λ b. (box_value b).replies.items ≡ []) }
    ensures refusal { IfOk result (λ b. (box_value b).refusal ≡ refusal) }
    ensures chain { IfOk result (λ b. (box_value b).chain ≡ chain) }
{
    let mut call = room.take_call()?;
    put_opened(
        &mut call,
        &mut room.places,
        names,
        number,
        begin,
        refusal,
        chain,
    )?;
    Ok(call)
}
