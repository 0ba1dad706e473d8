// How an open call is judged at its begin.
ghost use Rattle.std.specs.Prelude.{◌≡◌, [], false, is_some, None, OnOk};
ghost use Rattle.dispatch_chain.specs.Seats.{kinds_of};
ghost use Rattle.session_tables.specs.Lined.{AreLined};
ghost use Rattle.session_parts.specs.Judging.{FitsCall, Passes};
ghost use Rattle.session_parts.specs.Opening.{begin_content, opened_first};
ghost use Rattle.chain_session.specs.Judging.{IsJudged};
ghost use Rattle.chain_session.specs.Opened.{opened_of};

use crate::call::OpenCall;
use command_tables::NoMemory;
use dispatch_chain::DispatchTable;
use lifetime_layer::Verdict;
use session_parts::{Beginning, SessionParts, stop_of};

// An open call whose chain isn't refused comes down, and stops where that says.
fn judge_passed(
    table: &DispatchTable,
    parts: &mut SessionParts,
    number: u64,
    begin: Beginning,
    room: &mut Vec<u64>,
    call: &mut OpenCall,
    verdict: &mut Verdict,
) -> Result<(), NoMemory>
    requires table { table.now.rows ≡ kinds_of parts.old.states.kept }
    requires allowed { is_some call.old.refusal ≡ false }
    requires opened { opened_of call.old ≡ opened_first number parts.old.names.kept.names (begin_content begin) call.old.refusal }
    requires fits { FitsCall (opened_first number parts.old.names.kept.names (begin_content begin) None) }
    requires lined { AreLined parts.old.names.kept.births }
    requires goes { verdict.old.skip ≡ false }
    requires empty { verdict.old.findings.items ≡ [] }
    requires unheld { call.old.held.forms ≡ [] }
    ensures judged { OnOk result (IsJudged parts.old.names.kept.births parts.old.names.kept.handed parts.old.states.kept (opened_first number parts.old.names.kept.names (begin_content begin.entry) call.old.refusal) call.new verdict.new parts.new.states.kept) }
    ensures passes { OnOk result (Passes parts.old (opened_of call.new) parts.new) }
    ensures refusal { call.new.refusal ≡ call.old.refusal }
    ensures chain { call.new.chain ≡ call.old.chain }
    ensures replies { call.new.replies ≡ call.old.replies }
    ensures kinds { kinds_of parts.new.states.kept ≡ kinds_of parts.old.states.kept }
{
    parts.come_down(
        table,
        number,
        begin,
        &call.args,
        room,
        &mut call.bottom,
        &mut call.held,
        verdict,
    )?;
    call.stop = stop_of(verdict);
    Ok(())
}

/// Judges an open call at its begin: nothing is looked for where its chain is refused.
pub(crate) fn judge(
    table: &DispatchTable,
    parts: &mut SessionParts,
    number: u64,
    begin: Beginning,
    room: &mut Vec<u64>,
    call: &mut OpenCall,
    verdict: &mut Verdict,
) -> Result<(), NoMemory>
    requires table { table.now.rows ≡ kinds_of parts.old.states.kept }
    requires opened { opened_of call.old ≡ opened_first number parts.old.names.kept.names (begin_content begin) call.old.refusal }
    requires fits { FitsCall (opened_first number parts.old.names.kept.names (begin_content begin) None) }
    requires lined { AreLined parts.old.names.kept.births }
    requires goes { verdict.old.skip ≡ false }
    requires empty { verdict.old.findings.items ≡ [] }
    requires unheld { call.old.held.forms ≡ [] }
    ensures judged { OnOk result (IsJudged parts.old.names.kept.births parts.old.names.kept.handed parts.old.states.kept (opened_first number parts.old.names.kept.names (begin_content begin.entry) call.old.refusal) call.new verdict.new parts.new.states.kept) }
    ensures passes { OnOk result (Passes parts.old (opened_of call.new) parts.new) }
    ensures refusal { call.new.refusal ≡ call.old.refusal }
    ensures chain { call.new.chain ≡ call.old.chain }
    ensures replies { call.new.replies ≡ call.old.replies }
    ensures kinds { kinds_of parts.new.states.kept ≡ kinds_of parts.old.states.kept }
{
    if call.refusal.is_some() {
        Ok(())
    } else {
        judge_passed(table, parts, number, begin, room, call, verdict)
    }
}
