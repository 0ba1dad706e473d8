// The begin of a call.
ghost use Rattle.std.specs.Prelude.{◌≡◌, ◌++◌, ◌+◌, ◌<◌, ◌^◌, [], List, true, false, length, map, None, IfErr, IfOk, OnErr, OnOk};
ghost use Rattle.std.specs.Box.{box_value};
ghost use Rattle.std.specs.List.{AllByRecursion};
ghost use Rattle.command_tables.specs.Calls.{call_content};
ghost use Rattle.model_driver.specs.Driver.{HasShape};
ghost use Rattle.object_model.specs.declared.PartKind.{PartKind};
ghost use Rattle.trace_format.specs.Content.{Begin};
ghost use Rattle.replay_model.specs.Past.{is_skipped};
ghost use Rattle.replay_model.specs.Stop.{exceeds_layers};
ghost use Rattle.terminator.specs.Calls.{targets_of};
ghost use Rattle.session_tables.specs.Lined.{AreLined};
ghost use Rattle.chain_build.specs.Setup.{setup_content};
ghost use Rattle.report_text.specs.Setups.{trace_setup};
ghost use Rattle.dispatch_chain.specs.Seats.{kinds_of};
ghost use Rattle.chain_session.specs.Beginning.{BeginsAs, CanBegin, CutShort, Tells};
ghost use Rattle.command_tables.specs.Tests.{same_command};
ghost use Rattle.command_tables.specs.declared.types.CommandId.TheVariants as CommandId;
ghost use Rattle.session_parts.specs.Judging.{FitsCall, Passes};
ghost use Rattle.session_parts.specs.Opening.{begin_content, opened_first};
ghost use Rattle.chain_session.specs.Creation.{IsFault, IsStart, refusal_in};
ghost use Rattle.chain_session.specs.Judging.{IsJudged};
ghost use Rattle.chain_session.specs.Opened.{opened_of};
ghost use Rattle.chain_session.specs.Sending.{calls_due};
ghost use Rattle.chain_session.specs.Shown.{kinds_chained};
ghost use Rattle.chain_session.specs.Telling.{FrontAsked};

use crate::call::OpenCall;
use crate::counting::keep_begun;
use crate::creation::{Creation, create};
use crate::error::SessionError;
use crate::judging::judge;
use crate::kept::Kept;
use crate::opening::open_call;
use crate::reporting::put_reports;
use crate::room::Room;
use crate::sending::send;
use chain_build::{Chain, Setup};
use command_tables::{Code, NoMemory};
use dispatch_chain::DispatchTable;
use lifetime_layer::Verdict;
use model_driver::Driver;
use session_parts::Beginning;

/// The code with which the chain of a call is refused, or the chain that comes in force where the call succeeds.
#[derive(Drop)]
pub(crate) struct Start {
    pub(crate) refusal: Option<Code>,
    pub(crate) chain: Option<Chain>,
}

fn start_of(creation: Creation) -> Start
    ensures refusal { result.refusal ≡ refusal_in creation }
    ensures chain { (kinds : List PartKind) → IsStart kinds creation → kinds_chained result.chain ≡ kinds }
{
    match creation {
        Creation::None => Start {
            refusal: None,
            chain: None,
        },
        Creation::Refused(code) => Start {
            refusal: Some(code),
            chain: None,
        },
        Creation::Starts(chain) => Start {
            refusal: None,
            chain: Some(chain),
        },
    }
}

// The call of a begin, judged.
fn open_judged(
    table: &DispatchTable,
    kept: &mut Kept,
    room: &mut Room,
    number: u64,
    begin: Beginning,
    start: Start,
    verdict: &mut Verdict,
) -> Result<Box<OpenCall>, NoMemory>
    requires table { table.now.rows ≡ kinds_of kept.old.parts.states.kept }
    requires fits { FitsCall (opened_first number kept.old.parts.names.kept.names (begin_content begin) None) }
    requires lined { AreLined kept.old.parts.names.kept.births }
    requires goes { verdict.old.skip ≡ false }
    requires empty { verdict.old.findings.items ≡ [] }
    ensures judged { IfOk result (λ b. IsJudged kept.old.parts.names.kept.births kept.old.parts.names.kept.handed kept.old.parts.states.kept (opened_first number kept.old.parts.names.kept.names (begin_content begin.entry) start.refusal) (box_value b) verdict.new kept.new.parts.states.kept) }
    ensures passes { IfOk result (λ b. Passes kept.old.parts (opened_of (box_value b)) kept.new.parts) }
    ensures refusal { IfOk result (λ b. (box_value b).refusal ≡ start.refusal) }
    ensures chain { IfOk result (λ b. (box_value b).chain ≡ start.chain) }
    ensures replies { IfOk result (λ b. (box_value b).replies.items ≡ []) }
    ensures kept { kept.new ≡ record kept.old { parts = kept.new.parts } }
    ensures kinds { kinds_of kept.new.parts.states.kept ≡ kinds_of kept.old.parts.states.kept }
{
    let mut call = open_call(
        room,
        kept.parts.names.named(),
        number,
        begin,
        start.refusal,
        start.chain,
    )?;
    judge(
        table,
        &mut kept.parts,
        number,
        begin,
        &mut room.handles,
        &mut call,
        verdict,
    )?;
    Ok(call)
}

// The drivers of a call are told, its reports are written, and it is kept.
fn tell_and_keep<D: Driver>(
    kept: &mut Kept,
    room: &mut Room,
    call: Box<OpenCall>,
    begin: Beginning,
    verdict: &Verdict,
    driver: &mut D,
    lines: &mut Vec<u8>,
) -> Result<(), NoMemory>
    requires shapes { is_skipped (opened_of (box_value call)) ≡ false → AllByRecursion HasShape (targets_of kept.old.parts.terminator (call_content (box_value call).bottom)) }
    requires drivers { (box_value call).drivers.items ≡ [] }
    requires replies { (box_value call).replies.items ≡ [] }
    ensures ok { OnOk result (Tells kept.old (box_value call) (begin_content begin.entry) verdict.now kept.new (D.log driver.old) (D.log driver.new) lines.old.items lines.new.items) }
    ensures err { OnErr result (FrontAsked (calls_due kept.old.parts.terminator (box_value call)) (D.log driver.old) (D.log driver.new)) }
    ensures parts { kept.new.parts ≡ kept.old.parts }
    ensures policy { D.answers_by driver.new ≡ D.answers_by driver.old }
{
    let mut call = call;
    let number = call.number;
    send(
        &mut room.replies,
        &kept.parts.terminator,
        &mut call,
        &mut room.targets,
        driver,
    )?;
    put_reports(number, begin.cmd, begin.args, &verdict.findings, lines)?;
    keep_begun(kept, call, verdict.findings.len())?;
    Ok(())
}

/// The begin of a call: what is found at it is written behind the lines of its chain, its drivers are told, and it is kept as an open call.
/// `Chain` comes where the chain of a vkCreateInstance would have more than 64 layers. After an error what is kept is for dropping, the
/// first so many of the drivers were told, and anything may stand behind the lines.
#[tactic(auto, using(crate::proofs::Within::within_created))]
pub(crate) fn begin_call<D: Driver>(
    table: &DispatchTable,
    kept: &mut Kept,
    room: &mut Room,
    number: u64,
    begin: Beginning,
    setup: &Setup,
    driver: &mut D,
    lines: &mut Vec<u8>,
) -> Result<(), SessionError>
    requires table { table.now.rows ≡ kinds_of kept.old.parts.states.kept }
    requires can { CanBegin (trace_setup (setup_content setup.now)) kept.old (begin_content begin) }
    requires number { number ≡ kept.old.calls + 1 }
    requires few { length (setup_content setup.now).drivers.list < 2 ^ 32 }
    ensures ok { OnOk result (BeginsAs (trace_setup (setup_content setup.now)) kept.old (begin_content begin.entry) kept.new (D.log driver.old) (D.log driver.new) lines.old.items lines.new.items) }
    ensures err { OnErr result (CutShort (trace_setup (setup_content setup.now)) kept.old (begin_content begin.entry) (D.log driver.old) (D.log driver.new)) }
    ensures fault { IfErr result (IsFault (same_command begin.entry.cmd CommandId.CreateInstance) ((trace_setup (setup_content setup.now)).outcome begin.entry.payload.now)) }
    ensures within { OnOk result (exceeds_layers (trace_setup (setup_content setup.now)) (Begin (begin_content begin.entry)) ≡ false) }
    ensures untold { OnErr result (exceeds_layers (trace_setup (setup_content setup.now)) (Begin (begin_content begin.entry)) ≡ true → D.log driver.new ≡ D.log driver.old) }
    ensures kinds { kinds_of kept.new.parts.states.kept ≡ kinds_of kept.old.parts.states.kept }
    ensures policy { D.answers_by driver.new ≡ D.answers_by driver.old }
{
    let creation = create(room.alloc, number, begin.cmd, begin.payload, setup, lines)?;
    let start = start_of(creation);
    let mut verdict = room.take_verdict();
    let call = open_judged(table, kept, room, number, begin, start, &mut verdict)?;
    tell_and_keep(kept, room, call, begin, &verdict, driver, lines)?;
    room.keep_verdict(verdict);
    Ok(())
}
