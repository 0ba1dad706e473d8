// The lines of a call's reports, and of its return.
ghost use Rattle.std.specs.Prelude.{◌≡◌, ◌++◌, OnOk, map};
ghost use Rattle.std.specs.List.{flat_map};
ghost use Rattle.command_tables.specs.Table.{row_of};
ghost use Rattle.trace_format.specs.Content.{BeginEvent, arg_content};
ghost use Rattle.lifetime_layer.specs.Reports.{report_of, reports_of};
ghost use Rattle.replay_model.specs.Past.{Opened};
ghost use Rattle.replay_model.specs.Setup.{Setup};
ghost use Rattle.replay_model.specs.Text.{enumerated, report_text, return_text, written_at};
ghost use Rattle.chain_session.specs.Reporting.{IsOf, answer_by, answer_if_skipped, line_at};

use command_tables::{Code, CommandId, NoMemory, row};
use lifetime_layer::Finding;
use report_text::{report_line, return_line};
use trace_format::{Name, TraceArg};

// The name that is written in a place of a call.
fn written(args: &[TraceArg], param: u8, index: u32) -> Option<Name>
    ensures { result ≡ written_at (map arg_content args.now) param index }
{
    match args.get(param as usize) {
        None => None,
        Some(arg) => match arg.names.get(index as usize) {
            None => None,
            Some(name) => *name,
        },
    }
}

// The line of a finding.
fn put_report(
    number: u64,
    cmd: CommandId,
    args: &[TraceArg],
    finding: &Finding,
    lines: &mut Vec<u8>,
) -> Result<(), NoMemory>
    ensures { OnOk result (lines.new.items ≡ lines.old.items ++ line_at number cmd (map arg_content args.now) (report_of finding.now)) }
{
    let name = written(args, finding.param, finding.index);
    report_line(number, row(cmd), finding, name, lines)
}

/// Adds the lines of what is found at a call with a number, a command and arguments. After `NoMemory` anything may stand behind the
/// lines.
pub(crate) fn put_reports(
    number: u64,
    cmd: CommandId,
    args: &[TraceArg],
    findings: &[Finding],
    lines: &mut Vec<u8>,
) -> Result<(), NoMemory>
    ensures { (e : BeginEvent) → e.cmd ≡ cmd → e.args ≡ map arg_content args.now
        → OnOk result (lines.new.items ≡ lines.old.items ++ flat_map (report_text e number) (reports_of findings.now)) }
{
    for finding in findings {
        put_report(number, cmd, args, finding, lines)?;
    }
    Ok(())
}

/// What is kept of a call until its return: its number, its command and its code in the trace, the code of its refused chain, whether it
/// is skipped, and how many results it names and drivers there are.
#[derive(Clone, Copy)]
pub(crate) struct Returning {
    pub number: u64,
    pub cmd: CommandId,
    pub code: Option<Code>,
    pub refusal: Option<Code>,
    pub skipped: bool,
    pub results: usize,
    pub drivers: u32,
}

// What an enumeration of physical devices answers that succeeds.
fn enumerated(drivers: u32, names: usize) -> Code
    ensures { result ≡ enumerated drivers names }
{
    if 0 < names && names < drivers as usize {
        Code::Incomplete
    } else {
        Code::Success
    }
}

fn returns(cmd: CommandId) -> bool
    ensures { result ≡ (row_of cmd).returns }
{
    row(cmd).returns
}

// What a skipped call answers.
fn answer_if_skipped(call: Returning) -> Option<Code>
    ensures { result ≡ answer_if_skipped call }
{
    if call.refusal.is_some() {
        call.refusal
    } else if returns(call.cmd) {
        Some(Code::ErrorValidationFailedExt)
    } else {
        None
    }
}

// What a call answers.
#[tactic(auto, unfolding(command_tables::specs::Tests::same_command))]
fn answer(call: Returning) -> Option<Code>
    ensures { result ≡ answer_by call }
{
    if call.skipped {
        answer_if_skipped(call)
    } else if call.cmd == CommandId::EnumeratePhysicalDevices && call.cmd.succeeds(call.code) {
        Some(enumerated(call.drivers, call.results))
    } else {
        call.code
    }
}

/// Adds the line of a return with so many born results. After `NoMemory` anything may stand behind the lines.
pub(crate) fn put_return(call: Returning, born: u32, lines: &mut Vec<u8>) -> Result<(), NoMemory>
    ensures { (s : Setup) (o : Opened) → IsOf s o call → OnOk result (lines.new.items ≡ lines.old.items ++ return_text s o born) }
{
    return_line(call.number, row(call.cmd), answer(call), born, lines)
}
