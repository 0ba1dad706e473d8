// The rules at each argument of a call.
ghost use Rattle.std.specs.Prelude.{◌≡◌, ◌≤◌, ◌+◌, ◌++◌, ◌==◌, ◌||◌, [], length, map, not, true, vec_capacity, IsOk, OnOk};
ghost use Rattle.command_tables.specs.Handles.{list_at};
ghost use Rattle.command_tables.specs.Table.{row_of, seen_param};
ghost use Rattle.object_model.specs.Findings.{Report, at_place};
ghost use Rattle.object_model.specs.Objects.{is_in};
ghost use Rattle.object_model.specs.Rules.{children_at, failure, params_from, places_from, unless};
ghost use Rattle.layer_model.specs.Parts.{life_failures};
ghost use Rattle.object_records.specs.Shape.{HasParams, arguments_of};
ghost use Rattle.lifetime_layer.specs.Reports.{report_of, reports_at, reports_of};
ghost use Rattle.lifetime_layer.specs.Shape.{HasFewPlaces};

use crate::finding::Finding;
use crate::rules::{count_children, destroys_parent, has_parent, is_valid};
use command_tables::{LayerCall, NoMemory, Param, Rule, row};
use object_model::Argument;
use object_records::{ObjectRecords, argument_at, count_parameters, count_places};

// Where a rule doesn't hold, the finding is added.
fn note(holds: bool, finding: Finding, out: &mut Vec<Finding>) -> Result<(), NoMemory>
    ensures found { OnOk result (reports_of out.new.items ≡ reports_of out.old.items ++ unless holds (report_of finding)) }
    ensures succeeds { length out.old.items + length (unless holds (report_of finding)) ≤ vec_capacity out.old → IsOk result }
    ensures room { vec_capacity out.old ≤ vec_capacity out.new }
    ensures quiet { holds ≡ true → IsOk result }
{
    if !holds {
        out.push(finding)?;
    }
    Ok(())
}

// The rule on children, where it is asked: only then are they counted.
fn note_children(
    records: &ObjectRecords,
    asked: bool,
    argument: Argument,
    finding: Finding,
    out: &mut Vec<Finding>,
) -> Result<(), NoMemory>
    ensures found { OnOk result (reports_of out.new.items ≡ reports_of out.old.items ++ unless (not asked || children_at records.now.kept.births (is_in records.now.kept.living) argument == 0) (record { place = finding.place; failure = failure finding.param finding.index Rule.Children (children_at records.now.kept.births (is_in records.now.kept.living) argument) })) }
    ensures succeeds { length out.old.items + length {A = Report} (unless (not asked || children_at records.now.kept.births (is_in records.now.kept.living) argument == 0) (record { place = finding.place; failure = failure finding.param finding.index Rule.Children (children_at records.now.kept.births (is_in records.now.kept.living) argument) })) ≤ vec_capacity out.old → IsOk result }
    ensures room { vec_capacity out.old ≤ vec_capacity out.new }
    ensures quiet { (not asked || children_at records.now.kept.births (is_in records.now.kept.living) argument == 0) ≡ true → IsOk result }
{
    if !asked {
        return Ok(());
    }
    let children = count_children(records, argument);
    let mut finding = finding;
    finding.rule = Rule::Children;
    finding.detail = children as u64;
    note(children == 0, finding, out)
}

// The rules at one argument.
#[tactic(auto, using(crate::proofs::Reports::three_more, crate::proofs::Quiet::first_holds, crate::proofs::Quiet::second_holds, crate::proofs::Quiet::third_holds, crate::proofs::Room::first_fits, crate::proofs::Room::second_fits, crate::proofs::Room::third_fits))]
fn check_argument(
    records: &ObjectRecords,
    place: u32,
    call: &LayerCall,
    i: u8,
    param: &Param,
    k: u32,
    argument: Argument,
    out: &mut Vec<Finding>,
) -> Result<(), NoMemory>
    requires { HasParams call.now }
    ensures found { OnOk result (reports_of out.new.items ≡ reports_of out.old.items ++ reports_at place records.now.kept call.now.cmd (arguments_of call.now) i (seen_param param.now) k argument) }
    ensures succeeds { length out.old.items + length (reports_at place records.now.kept call.now.cmd (arguments_of call.now) i (seen_param param.now) k argument) ≤ vec_capacity out.old → IsOk result }
    ensures room { vec_capacity out.old ≤ vec_capacity out.new }
    ensures quiet { reports_at place records.now.kept call.now.cmd (arguments_of call.now) i (seen_param param.now) k argument ≡ [] → IsOk result }
{
    let mut finding = Finding {
        place,
        param: i,
        index: k,
        rule: Rule::Parameter,
        detail: 0,
    };
    note(is_valid(records, param.optional, argument), finding, out)?;
    finding.rule = Rule::Parent;
    note(
        has_parent(records, call, param.owner, argument),
        finding,
        out,
    )?;
    let asked = destroys_parent(call.cmd) && i == 0;
    note_children(records, asked, argument, finding, out)
}

// How many places a parameter has.
#[tactic(auto, using(object_records::proofs::Places::length_places))]
fn count_indexes(call: &LayerCall, i: u8) -> u32
    requires shape { HasParams call.now }
    requires few { HasFewPlaces call.now }
    ensures { result ≡ length (list_at (arguments_of call.now) i) }
{
    let _count = call.args.len();
    count_places(call, i as usize) as u32
}

// The rules at the places of a parameter.
#[tactic(auto, using(object_records::proofs::Loops::places_end, crate::proofs::Quiet::place_quiet, crate::proofs::Room::place_fits))]
fn check_places(
    records: &ObjectRecords,
    place: u32,
    call: &LayerCall,
    i: u8,
    param: &Param,
    out: &mut Vec<Finding>,
) -> Result<(), NoMemory>
    requires shape { HasParams call.now }
    requires few { HasFewPlaces call.now }
    ensures found { OnOk result (reports_of out.new.items ≡ reports_of out.old.items ++ places_from (reports_at place records.now.kept call.now.cmd (arguments_of call.now) i (seen_param param.now)) 0 (list_at (arguments_of call.now) i)) }
    ensures succeeds { length out.old.items + length (places_from (reports_at place records.now.kept call.now.cmd (arguments_of call.now) i (seen_param param.now)) 0 (list_at (arguments_of call.now) i)) ≤ vec_capacity out.old → IsOk result }
    ensures room { vec_capacity out.old ≤ vec_capacity out.new }
    ensures quiet { places_from (reports_at place records.now.kept call.now.cmd (arguments_of call.now) i (seen_param param.now)) 0 (list_at (arguments_of call.now) i) ≡ [] → IsOk result }
{
    for k in 0..count_indexes(call, i) {
        let argument = argument_at(call, i as usize, k as usize);
        check_argument(records, place, call, i, param, k, argument, out)?;
    }
    Ok(())
}

// The rules at the places of these parameters, which are those of the call's row.
#[tactic(auto, using(object_records::proofs::Loops::parameters_end))]
fn check_parameters(
    records: &ObjectRecords,
    place: u32,
    call: &LayerCall,
    params: &[Param],
    out: &mut Vec<Finding>,
) -> Result<(), NoMemory>
    requires shape { HasParams call.now }
    requires few { HasFewPlaces call.now }
    requires row { map seen_param params.now ≡ (row_of call.now.cmd).params }
    ensures found { OnOk result (reports_of out.new.items ≡ reports_of out.old.items ++ params_from (reports_at place records.now.kept call.now.cmd (arguments_of call.now)) 0 (map seen_param params.now) (arguments_of call.now)) }
    ensures succeeds { length out.old.items + length (params_from (reports_at place records.now.kept call.now.cmd (arguments_of call.now)) 0 (map seen_param params.now) (arguments_of call.now)) ≤ vec_capacity out.old → IsOk result }
    ensures room { vec_capacity out.old ≤ vec_capacity out.new }
    ensures quiet { params_from (reports_at place records.now.kept call.now.cmd (arguments_of call.now)) 0 (map seen_param params.now) (arguments_of call.now) ≡ [] → IsOk result }
{
    let _parameters = count_parameters(call);
    let _most = call.args.len();
    for i in 0..params.len() {
        check_places(records, place, call, i as u8, &params[i], out)?;
    }
    Ok(())
}

// What is found at a call.
#[tactic(auto, using(crate::proofs::Reports::found_all, crate::proofs::Reports::quiet_all, crate::proofs::Room::all_fit))]
pub(crate) fn check_call(
    records: &ObjectRecords,
    place: u32,
    call: &LayerCall,
    out: &mut Vec<Finding>,
) -> Result<(), NoMemory>
    requires shape { HasParams call.now }
    requires few { HasFewPlaces call.now }
    ensures found { OnOk result (reports_of out.new.items ≡ reports_of out.old.items ++ at_place place (life_failures records.now.kept call.now.cmd (arguments_of call.now))) }
    ensures succeeds { length out.old.items + length (at_place place (life_failures records.now.kept call.now.cmd (arguments_of call.now))) ≤ vec_capacity out.old → IsOk result }
    ensures room { vec_capacity out.old ≤ vec_capacity out.new }
    ensures quiet { at_place place (life_failures records.now.kept call.now.cmd (arguments_of call.now)) ≡ [] → IsOk result }
{
    check_parameters(records, place, call, row(call.cmd).params, out)?;
    Ok(())
}
