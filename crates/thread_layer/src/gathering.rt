// The uses and findings of a call, argument by argument.
ghost use Rattle.std.specs.Prelude.{◌≡◌, ◌≤◌, ◌+◌, ◌++◌, length, map, vec_capacity, IsOk, OnOk};
ghost use Rattle.command_tables.specs.Handles.{list_at};
ghost use Rattle.command_tables.specs.Table.{row_of, seen_param};
ghost use Rattle.object_model.specs.Findings.{at_place};
ghost use Rattle.object_model.specs.Objects.{is_in};
ghost use Rattle.object_model.specs.Rules.{params_from, places_from};
ghost use Rattle.object_model.specs.Uses.{overlap_at, uses_in};
ghost use Rattle.layer_model.specs.Parts.{use_failures};
ghost use Rattle.object_records.specs.Shape.{HasParams, arguments_of};
ghost use Rattle.lifetime_layer.specs.Reports.{reports_of};
ghost use Rattle.lifetime_layer.specs.Shape.{HasFewPlaces};
ghost use Rattle.thread_layer.specs.Kept.{use_seen, with_opens};
ghost use Rattle.thread_layer.specs.Findings.{argument_reports, argument_uses};
ghost use Rattle.thread_layer.specs.Room.{HasRoomFor, gathered_room};

use crate::object_use::ObjectUse;
use crate::open_uses::OpenUses;
use crate::uses::{ArgumentPlace, add_uses};
use command_tables::{LayerCall, NoMemory, Param, Rule, row};
use lifetime_layer::{Finding, Verdict};
use object_model::{Argument, Object};
use object_records::{ObjectRecords, argument_at, count_parameters, count_places};

// What a call comes in beside: the objects that are known and the calls that are open, at a place of the chain and on a thread.
#[derive(Clone, Copy)]
pub(crate) struct Beside<'a> {
    pub records: &'a ObjectRecords,
    pub opens: &'a OpenUses,
    pub place: u32,
    pub thread: u32,
}

// What is filled as a call comes in: its uses, and room to list implied objects.
#[derive(Drop)]
pub(crate) struct Gathered {
    pub uses: Vec<ObjectUse>,
    pub implied: Vec<Object>,
}

// A finding where there is a conflict.
fn report(
    place: u32,
    at: ArgumentPlace,
    conflict: Option<u64>,
    verdict: &mut Verdict,
) -> Result<(), NoMemory>
    ensures findings { OnOk result (reports_of verdict.new.findings.items ≡ reports_of verdict.old.findings.items ++ at_place place (overlap_at at.param at.index conflict)) }
    ensures succeeds { length verdict.old.findings.items + length (at_place place (overlap_at at.param at.index conflict)) ≤ vec_capacity verdict.old.findings → IsOk result }
    ensures room { vec_capacity verdict.old.findings ≤ vec_capacity verdict.new.findings }
    ensures skip { verdict.new.skip ≡ verdict.old.skip }
{
    if let Some(number) = conflict {
        verdict.findings.push(Finding {
            place,
            param: at.param,
            index: at.index,
            rule: Rule::Overlap,
            detail: number,
        })?;
    }
    Ok(())
}

// An argument with its uses and its finding.
#[tactic(auto, using(crate::proofs::Gathered::behind))]
fn gather_argument(
    beside: Beside,
    at: ArgumentPlace,
    param: &Param,
    argument: Argument,
    gathered: &mut Gathered,
    verdict: &mut Verdict,
) -> Result<(), NoMemory>
    ensures uses { OnOk result (map use_seen gathered.new.uses.items ≡ map use_seen gathered.old.uses.items ++ argument_uses (with_opens beside.entry.records.now.kept beside.entry.opens.now.opens) at.param (seen_param param.now) at.index argument) }
    ensures findings { OnOk result (reports_of verdict.new.findings.items ≡ reports_of verdict.old.findings.items ++ argument_reports beside.entry.place beside.entry.thread (with_opens beside.entry.records.now.kept beside.entry.opens.now.opens) at.param (seen_param param.now) at.index argument) }
    ensures succeeds { HasRoomFor gathered.old verdict.old (argument_uses (with_opens beside.entry.records.now.kept beside.entry.opens.now.opens) at.param (seen_param param.now) at.index argument) (argument_reports beside.entry.place beside.entry.thread (with_opens beside.entry.records.now.kept beside.entry.opens.now.opens) at.param (seen_param param.now) at.index argument) → IsOk result }
    ensures uses_room { gathered_room gathered.old ≤ gathered_room gathered.new }
    ensures findings_room { vec_capacity verdict.old.findings ≤ vec_capacity verdict.new.findings }
    ensures skip { verdict.new.skip ≡ verdict.old.skip }
{
    let start = gathered.uses.len();
    add_uses(
        beside.records,
        at,
        param,
        argument,
        &mut gathered.implied,
        &mut gathered.uses,
    )?;
    let conflict = beside
        .opens
        .least_conflict(&gathered.uses[start..], beside.thread);
    report(beside.place, at, conflict, verdict)
}

// How many places a parameter has, where there are few in each.
#[tactic(auto, using(crate::proofs::Gathered::few_read))]
fn count_few(call: &LayerCall, p: usize) -> usize
    requires shape { HasParams call.now }
    requires few { HasFewPlaces call.now }
    ensures count { result ≡ length (list_at (arguments_of call.now) p) }
    ensures limit { result ≤ 1024 }
{
    count_places(call, p)
}

#[tactic(auto, using(object_records::proofs::Loops::place_more, object_records::proofs::Loops::places_end))]
fn gather_places(
    beside: Beside,
    call: &LayerCall,
    i: u8,
    param: &Param,
    gathered: &mut Gathered,
    verdict: &mut Verdict,
) -> Result<(), NoMemory>
    requires shape { HasParams call.now }
    requires few { HasFewPlaces call.now }
    ensures uses { OnOk result (map use_seen gathered.new.uses.items ≡ map use_seen gathered.old.uses.items ++ places_from (argument_uses (with_opens beside.entry.records.now.kept beside.entry.opens.now.opens) i (seen_param param.now)) 0 (list_at (arguments_of call.now) i)) }
    ensures findings { OnOk result (reports_of verdict.new.findings.items ≡ reports_of verdict.old.findings.items ++ places_from (argument_reports beside.entry.place beside.entry.thread (with_opens beside.entry.records.now.kept beside.entry.opens.now.opens) i (seen_param param.now)) 0 (list_at (arguments_of call.now) i)) }
    ensures succeeds { HasRoomFor gathered.old verdict.old (places_from (argument_uses (with_opens beside.entry.records.now.kept beside.entry.opens.now.opens) i (seen_param param.now)) 0 (list_at (arguments_of call.now) i)) (places_from (argument_reports beside.entry.place beside.entry.thread (with_opens beside.entry.records.now.kept beside.entry.opens.now.opens) i (seen_param param.now)) 0 (list_at (arguments_of call.now) i)) → IsOk result }
    ensures uses_room { gathered_room gathered.old ≤ gathered_room gathered.new }
    ensures findings_room { vec_capacity verdict.old.findings ≤ vec_capacity verdict.new.findings }
    ensures skip { verdict.new.skip ≡ verdict.old.skip }
{
    for k in 0..count_few(call, i as usize) {
        let at = ArgumentPlace {
            param: i,
            index: k as u32,
        };
        let argument = argument_at(call, i as usize, k);
        gather_argument(beside, at, param, argument, gathered, verdict)?;
    }
    Ok(())
}

#[tactic(auto, using(object_records::proofs::Loops::parameter_more, object_records::proofs::Loops::parameters_end))]
fn gather_params(
    beside: Beside,
    call: &LayerCall,
    params: &[Param],
    gathered: &mut Gathered,
    verdict: &mut Verdict,
) -> Result<(), NoMemory>
    requires shape { HasParams call.now }
    requires few { HasFewPlaces call.now }
    requires row { map seen_param params.now ≡ (row_of call.now.cmd).params }
    ensures uses { OnOk result (map use_seen gathered.new.uses.items ≡ map use_seen gathered.old.uses.items ++ params_from (argument_uses (with_opens beside.entry.records.now.kept beside.entry.opens.now.opens)) 0 (map seen_param params.now) (arguments_of call.now)) }
    ensures findings { OnOk result (reports_of verdict.new.findings.items ≡ reports_of verdict.old.findings.items ++ params_from (argument_reports beside.entry.place beside.entry.thread (with_opens beside.entry.records.now.kept beside.entry.opens.now.opens)) 0 (map seen_param params.now) (arguments_of call.now)) }
    ensures succeeds { HasRoomFor gathered.old verdict.old (params_from (argument_uses (with_opens beside.entry.records.now.kept beside.entry.opens.now.opens)) 0 (map seen_param params.now) (arguments_of call.now)) (params_from (argument_reports beside.entry.place beside.entry.thread (with_opens beside.entry.records.now.kept beside.entry.opens.now.opens)) 0 (map seen_param params.now) (arguments_of call.now)) → IsOk result }
    ensures uses_room { gathered_room gathered.old ≤ gathered_room gathered.new }
    ensures findings_room { vec_capacity verdict.old.findings ≤ vec_capacity verdict.new.findings }
    ensures skip { verdict.new.skip ≡ verdict.old.skip }
{
    let _count = call.args.len();
    let _parameters = count_parameters(call);
    for i in 0..params.len() {
        gather_places(beside, call, i as u8, &params[i], gathered, verdict)?;
    }
    Ok(())
}

/// Gathers the uses of a call, in place of what was gathered, and adds what is found at it.
#[tactic(auto, using(crate::proofs::Gathered::params_placed))]
pub(crate) fn gather(
    beside: Beside,
    call: &LayerCall,
    gathered: &mut Gathered,
    verdict: &mut Verdict,
) -> Result<(), NoMemory>
    requires shape { HasParams call.now }
    requires few { HasFewPlaces call.now }
    ensures uses { OnOk result (map use_seen gathered.new.uses.items ≡ uses_in beside.entry.records.now.kept.births (is_in beside.entry.records.now.kept.living) call.now.cmd (arguments_of call.now)) }
    ensures findings { OnOk result (reports_of verdict.new.findings.items ≡ reports_of verdict.old.findings.items ++ at_place beside.entry.place (use_failures (with_opens beside.entry.records.now.kept beside.entry.opens.now.opens) beside.entry.thread call.now.cmd (arguments_of call.now))) }
    ensures succeeds { length (uses_in beside.entry.records.now.kept.births (is_in beside.entry.records.now.kept.living) call.now.cmd (arguments_of call.now)) ≤ gathered_room gathered.old → length verdict.old.findings.items + length (use_failures (with_opens beside.entry.records.now.kept beside.entry.opens.now.opens) beside.entry.thread call.now.cmd (arguments_of call.now)) ≤ vec_capacity verdict.old.findings → IsOk result }
    ensures uses_room { gathered_room gathered.old ≤ gathered_room gathered.new }
    ensures findings_room { vec_capacity verdict.old.findings ≤ vec_capacity verdict.new.findings }
    ensures skip { verdict.new.skip ≡ verdict.old.skip }
{
    gathered.uses.clear();
    gather_params(beside, call, row(call.cmd).params, gathered, verdict)
}
