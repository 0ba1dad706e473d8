// How a call is judged at its begin.
ghost use Rattle.std.specs.Prelude.{◌≡◌, ◌≤◌, ◌<◌, ◌+◌, ◌++◌, ◌∷◌, [], false, true, is_some, length, map, vec_capacity, IsOk, None, OnOk};
ghost use Rattle.command_tables.specs.Calls.{HasRoomFor, call_content};
ghost use Rattle.command_tables.specs.Table.{row_of, seen_param};
ghost use Rattle.object_model.specs.Findings.{is_failing};
ghost use Rattle.object_model.specs.History.{born_in};
ghost use Rattle.object_model.specs.Rules.{loader_failures, parameter_holds};
ghost use Rattle.lifetime_layer.specs.Reports.{report_of, reports_of};
ghost use Rattle.chain_model.specs.Chained.{form_by};
ghost use Rattle.chain_model.specs.Handed.{handle_in};
ghost use Rattle.chain_model.specs.Simulated.{base_of};
ghost use Rattle.dispatch_chain.specs.Forms.{CanHold, KeepsForm, KeepsForms, form_room};
ghost use Rattle.dispatch_chain.specs.Holding.{IsHeldOf};
ghost use Rattle.dispatch_chain.specs.Room.{AreRoomy, KeepRooms};
ghost use Rattle.dispatch_chain.specs.Rows.{entries_of};
ghost use Rattle.dispatch_chain.specs.Seats.{kinds_of};
ghost use Rattle.session_tables.specs.Shown.{args_shown};
ghost use Rattle.session_parts.specs.Judging as spec;
ghost use Rattle.session_parts.specs.Judging.{FitsCall, IsFound, loader_report, stopped_by, walk_at};
ghost use Rattle.session_parts.specs.Scratch.{AreWithin};
ghost use Rattle.session_parts.specs.Opening.{begin_content, opened_read};

use crate::forms::{Passed, put_call};
use crate::handed::HandedTable;
use crate::opening::Beginning;
use command_tables::{CommandId, LayerCall, NoMemory, Param, Rule, row};
use dispatch_chain::{DispatchTable, Held, LayerStates, walk_enter};
use lifetime_layer::{Finding, Verdict};
use object_model::Argument;
use session_tables::ObjectTable;

fn holds(objects: &ObjectTable, param: &Param, argument: Argument) -> bool
    ensures { result ≡ parameter_holds (born_in objects.now.births) (seen_param param.now) argument }
{
    match argument {
        Argument::Null => param.optional,
        Argument::Unborn => false,
        Argument::The(object) => objects.is_living(object),
    }
}

#[tactic(auto, using(crate::proofs::Loader::failing_unless))]
fn fails_first(objects: &ObjectTable, params: &[Param], args: &[Vec<Argument>]) -> bool
    ensures { result ≡ is_failing (loader_failures (born_in objects.now.births) (map seen_param params.now) (args_shown args.now)) }
{
    match params {
        [] => false,
        [param, ..] => match args {
            [] => false,
            [at, ..] => match at.as_slice() {
                [] => false,
                [argument, ..] => !holds(objects, param, *argument),
            },
        },
    }
}

/// Whether the loader reports a call: its first argument stands for no living object.
pub(crate) fn is_reported(objects: &ObjectTable, cmd: CommandId, args: &[Vec<Argument>]) -> bool
    ensures { result ≡ is_failing (loader_failures (born_in objects.now.births) (row_of cmd).params (args_shown args.now)) }
{
    fails_first(objects, row(cmd).params, args)
}

fn loader_finding() -> Finding
    ensures { report_of result ≡ loader_report }
{
    Finding {
        place: 0,
        param: 0,
        index: 0,
        rule: Rule::Parameter,
        detail: 0,
    }
}

// The place that found something last.
#[tactic(auto, using(crate::proofs::Stopping::last_shown))]
fn last_place(findings: &[Finding]) -> Option<u32>
    ensures { result ≡ spec.last_place (reports_of findings.now) }
{
    match findings.last().copied() {
        None => None,
        Some(finding) => Some(finding.place),
    }
}

/// The place that stopped a call: the last that found something, where it is stopped.
pub fn stop_of(verdict: &Verdict) -> Option<u32>
    ensures { result ≡ stopped_by verdict.now.skip (reports_of verdict.now.findings.items) }
{
    if verdict.skip {
        last_place(&verdict.findings)
    } else {
        None
    }
}

// The loader reports a call, which stops there.
fn report_first(verdict: &mut Verdict) -> Result<(), NoMemory>
    ensures skip { OnOk result (verdict.new.skip ≡ true) }
    ensures reports { OnOk result (reports_of verdict.new.findings.items ≡ reports_of verdict.old.findings.items ++ loader_report ∷ []) }
    ensures findings_room { vec_capacity verdict.old.findings ≤ vec_capacity verdict.new.findings }
    ensures succeeds { length verdict.old.findings.items < vec_capacity verdict.old.findings → IsOk result }
{
    verdict.findings.push(loader_finding())?;
    verdict.skip = true;
    Ok(())
}

// A call that the loader doesn't report comes down to the parts of the chain in force.
fn walk_down(
    table: &DispatchTable,
    states: &mut LayerStates,
    handed: &HandedTable,
    number: u64,
    begin: Beginning,
    args: &[Vec<Argument>],
    room: &mut Vec<u64>,
    form: &mut LayerCall,
    held: &mut Held,
    verdict: &mut Verdict,
) -> Result<(), NoMemory>
    requires table { table.now.rows ≡ kinds_of states.old.kept }
    requires fits { FitsCall (opened_read number (begin_content begin) (args_shown args.now)) }
    requires goes { verdict.old.skip ≡ false }
    requires empty { verdict.old.findings.items ≡ [] }
    ensures reports { OnOk result (reports_of verdict.new.findings.items ≡ (walk_at states.old.kept handed.now.handed (opened_read number (begin_content begin.entry) (args_shown args.now))).found.reports) }
    ensures skip { OnOk result (verdict.new.skip ≡ is_some (walk_at states.old.kept handed.now.handed (opened_read number (begin_content begin.entry) (args_shown args.now))).found.stop) }
    ensures states { OnOk result (states.new.kept ≡ (walk_at states.old.kept handed.now.handed (opened_read number (begin_content begin.entry) (args_shown args.now))).states) }
    ensures bottom { OnOk result (call_content form.new ≡ (walk_at states.old.kept handed.now.handed (opened_read number (begin_content begin.entry) (args_shown args.now))).bottom) }
    ensures held { OnOk result (IsHeldOf held.new (kinds_of states.old.kept) (walk_at states.old.kept handed.now.handed (opened_read number (begin_content begin.entry) (args_shown args.now))).forms) }
    ensures rooms { KeepRooms states.old.rooms states.new.rooms }
    ensures handles_room { vec_capacity room.old ≤ vec_capacity room.new }
    ensures form_room { KeepsForm (form_room form.old) (form_room form.new) }
    ensures held_rooms { KeepsForms held.old.rooms held.new.rooms }
    ensures findings_room { vec_capacity verdict.old.findings ≤ vec_capacity verdict.new.findings }
    ensures succeeds { AreWithin (vec_capacity room.old) (args_shown args.now) → HasRoomFor form.old (form_by (handle_in handed.now.handed) (base_of (opened_read number (begin_content begin.entry) (args_shown args.now))) (args_shown args.now)) →
        AreRoomy (walk_at states.old.kept handed.now.handed (opened_read number (begin_content begin.entry) (args_shown args.now))).states states.old.rooms → length verdict.old.findings.items + length (walk_at states.old.kept handed.now.handed (opened_read number (begin_content begin.entry) (args_shown args.now))).found.reports ≤ vec_capacity verdict.old.findings →
        CanHold held.old.rooms (length (entries_of begin.entry.cmd (kinds_of states.old.kept))) (form_by (handle_in handed.now.handed) (base_of (opened_read number (begin_content begin.entry) (args_shown args.now))) (args_shown args.now)) → IsOk result }
    ensures kinds { kinds_of states.new.kept ≡ kinds_of states.old.kept }
{
    let passed = Passed {
        cmd: begin.cmd,
        asked: begin.results.len() as u32,
        code: begin.code,
        payload: begin.payload,
    };
    put_call(handed, passed, args, room, form)?;
    walk_enter(table, states, begin.thread, number, form, held, verdict)
}

/// Looks at a call whose chain isn't refused: it comes to no part where the loader reports it.
pub(crate) fn look(
    table: &DispatchTable,
    states: &mut LayerStates,
    objects: &ObjectTable,
    handed: &HandedTable,
    number: u64,
    begin: Beginning,
    args: &[Vec<Argument>],
    room: &mut Vec<u64>,
    form: &mut LayerCall,
    held: &mut Held,
    verdict: &mut Verdict,
) -> Result<(), NoMemory>
    requires table { table.now.rows ≡ kinds_of states.old.kept }
    requires fits { FitsCall (opened_read number (begin_content begin) (args_shown args.now)) }
    requires goes { verdict.old.skip ≡ false }
    requires empty { verdict.old.findings.items ≡ [] }
    requires unheld { held.old.forms ≡ [] }
    ensures found { OnOk result (IsFound objects.now.births handed.now.handed states.old.kept (opened_read number (begin_content begin.entry) (args_shown args.now)) (call_content form.new) held.new verdict.new states.new.kept) }
    ensures kinds { kinds_of states.new.kept ≡ kinds_of states.old.kept }
    ensures rooms { KeepRooms states.old.rooms states.new.rooms }
    ensures handles_room { vec_capacity room.old ≤ vec_capacity room.new }
    ensures form_room { KeepsForm (form_room form.old) (form_room form.new) }
    ensures held_rooms { KeepsForms held.old.rooms held.new.rooms }
    ensures findings_room { vec_capacity verdict.old.findings ≤ vec_capacity verdict.new.findings }
    ensures succeeds { AreWithin (vec_capacity room.old) (args_shown args.now) → HasRoomFor form.old (form_by (handle_in handed.now.handed) (base_of (opened_read number (begin_content begin.entry) (args_shown args.now))) (args_shown args.now)) →
        AreRoomy (walk_at states.old.kept handed.now.handed (opened_read number (begin_content begin.entry) (args_shown args.now))).states states.old.rooms → 1 ≤ vec_capacity verdict.old.findings → length (walk_at states.old.kept handed.now.handed (opened_read number (begin_content begin.entry) (args_shown args.now))).found.reports ≤ vec_capacity verdict.old.findings →
        CanHold held.old.rooms (length (entries_of begin.entry.cmd (kinds_of states.old.kept))) (form_by (handle_in handed.now.handed) (base_of (opened_read number (begin_content begin.entry) (args_shown args.now))) (args_shown args.now)) → IsOk result }
{
    if is_reported(objects, begin.cmd, args) {
        report_first(verdict)?;
        Ok(())
    } else {
        walk_down(
            table, states, handed, number, begin, args, room, form, held, verdict,
        )?;
        Ok(())
    }
}
