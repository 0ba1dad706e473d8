// The lines of reports.
ghost use Rattle.std.specs.Prelude.{◌≡◌, ◌++◌, [], OnOk, codes, decimal, slice_get};
ghost use Rattle.std.specs.Option.{option_map_or};
ghost use Rattle.command_tables.specs.Table.{row_of, seen_param};
ghost use Rattle.trace_format.specs.Grammar.{name_text, one_text};
ghost use Rattle.lifetime_layer.specs.Reports.{report_of};
ghost use Rattle.replay_model.specs.Text as model;

use crate::put::{put, put_number};
use command_tables::{CommandId, NoMemory, Param, Row, Rule, row};
use lifetime_layer::Finding;
use std::alloc::AllocError;
use trace_format::Name;

pub(crate) fn put_command(cmd: CommandId, out: &mut Vec<u8>) -> Result<(), AllocError>
    ensures { OnOk result (out.new.items ≡ out.old.items ++ (row_of cmd).name) }
{
    put(row(cmd).name, out)
}

#[tactic(auto, using(std::proofs::lemmas::List::append_assoc))]
fn put_name(name: Name, out: &mut Vec<u8>) -> Result<(), AllocError>
    ensures { OnOk result (out.new.items ≡ out.old.items ++ name_text name) }
{
    put("%", out)?;
    put_number(u64::from(name.thread), out)?;
    put(".", out)?;
    put_number(u64::from(name.number), out)
}

fn put_argument(name: Option<Name>, out: &mut Vec<u8>) -> Result<(), AllocError>
    ensures { OnOk result (out.new.items ≡ out.old.items ++ one_text name) }
{
    match name {
        None => put("null", out),
        Some(name) => put_name(name, out),
    }
}

// A word behind which a number stands.
#[tactic(auto, using(std::proofs::lemmas::List::append_assoc))]
fn put_counted(word: &str, n: u64, out: &mut Vec<u8>) -> Result<(), AllocError>
    ensures { OnOk result (out.new.items ≡ out.old.items ++ (word.now ++ decimal n)) }
{
    put(word, out)?;
    put_number(n, out)
}

// The place of an argument, at a parameter that takes a list.
#[tactic(auto, using(crate::proofs::Pieces::append_none))]
fn put_index(many: bool, index: u32, out: &mut Vec<u8>) -> Result<(), AllocError>
    ensures { OnOk result (out.new.items ≡ out.old.items ++ model.index_text many index) }
{
    if many {
        put_counted(" index=", u64::from(index), out)?;
    }
    Ok(())
}

// What a rule says beside its argument: how many children there are, or with which call a use conflicts.
#[tactic(auto, using(crate::proofs::Pieces::append_none))]
fn put_detail(rule: Rule, detail: u64, out: &mut Vec<u8>) -> Result<(), AllocError>
    ensures { OnOk result (out.new.items ≡ out.old.items ++ model.detail_text rule detail) }
{
    match rule {
        Rule::Children => put_counted(" children=", detail, out),
        Rule::Overlap => put_counted(" with=", detail, out),
        Rule::Parameter | Rule::Parent => Ok(()),
    }
}

// A command's parameter between what stands before and behind it in an identifier.
#[tactic(auto, using(std::proofs::lemmas::List::append_assoc))]
fn put_between(
    front: &str,
    cmd: CommandId,
    param: &Param,
    back: &str,
    out: &mut Vec<u8>,
) -> Result<(), AllocError>
    ensures { OnOk result (out.new.items ≡ out.old.items ++ (front.now ++ (row_of cmd).name ++ codes "-" ++ param.now.name.now ++ back.now)) }
{
    put(front, out)?;
    put_command(cmd, out)?;
    put("-", out)?;
    put(param.name, out)?;
    put(back, out)
}

fn put_identifier(
    cmd: CommandId,
    param: &Param,
    rule: Rule,
    out: &mut Vec<u8>,
) -> Result<(), AllocError>
    ensures { OnOk result (out.new.items ≡ out.old.items ++ model.identifier (row_of cmd).name param.now.name.now rule) }
{
    match rule {
        Rule::Parameter => put_between("VUID-", cmd, param, "-parameter", out),
        Rule::Parent => put_between("VUID-", cmd, param, "-parent", out),
        Rule::Children => put_between("VKR-", cmd, param, "-children", out),
        Rule::Overlap => put_between("VKR-", cmd, param, "-overlap", out),
    }
}

// The front of a report: the call's number and the place.
#[tactic(auto, using(std::proofs::lemmas::List::append_assoc))]
fn put_place(call: u64, place: u32, out: &mut Vec<u8>) -> Result<(), AllocError>
    ensures { OnOk result (out.new.items ≡ out.old.items ++ (codes "report " ++ decimal call ++ codes " " ++ decimal place ++ codes " ")) }
{
    put_counted("report ", call, out)?;
    put(" ", out)?;
    put_number(u64::from(place), out)?;
    put(" ", out)
}

// What stands behind the argument: its place, what the rule says beside it, and the line's end.
#[tactic(auto, using(std::proofs::lemmas::List::append_assoc))]
fn put_rest(many: bool, finding: &Finding, out: &mut Vec<u8>) -> Result<(), AllocError>
    ensures { OnOk result (out.new.items ≡ out.old.items ++ (model.index_text many finding.now.index ++ model.detail_text finding.now.rule finding.now.detail ++ codes "\n")) }
{
    put_index(many, finding.index, out)?;
    put_detail(finding.rule, finding.detail, out)?;
    put("\n", out)
}

#[tactic(auto, using(std::proofs::lemmas::List::append_assoc))]
fn put_report(
    call: u64,
    cmd: CommandId,
    param: &Param,
    finding: &Finding,
    arg: Option<Name>,
    out: &mut Vec<u8>,
) -> Result<(), AllocError>
    ensures { OnOk result (out.new.items ≡ out.old.items ++ model.report_line call cmd (seen_param param.now) arg (report_of finding.now)) }
{
    put_place(call, finding.place, out)?;
    put_identifier(cmd, param, finding.rule, out)?;
    put(" ", out)?;
    put_argument(arg, out)?;
    put_rest(param.many, finding, out)
}

/// Appends the identifier of a rule at a parameter of a command, which is named by the row's number, and nothing where there is no
/// such parameter. Rules of the Vulkan specification's implicit valid usage begin with `VUID-`, this project's with `VKR-`. After
/// `NoMemory` the bytes are any.
#[tactic(auto, using(crate::proofs::Pieces::append_none))]
pub fn identifier(row: &Row, param: u8, rule: Rule, out: &mut Vec<u8>) -> Result<(), NoMemory>
    ensures { OnOk result (out.new.items ≡ out.old.items ++ option_map_or (λ p. model.identifier (row_of row.now.id).name p.name rule) (slice_get (row_of row.now.id).params param) []) }
{
    match command_tables::row(row.id).params.get(param as usize) {
        None => Ok(()),
        Some(param) => {
            put_identifier(row.id, param, rule, out)?;
            Ok(())
        }
    }
}

/// Appends the line of a finding at the call with a number, whose argument is written so: the call, the place, the rule at the
/// command's parameter, the argument, its index where the parameter takes a list, and the number of children or the call with which
/// a use conflicts. Nothing is appended where the command has no such parameter. After `NoMemory` the bytes are any.
#[tactic(auto, using(crate::proofs::Pieces::append_none))]
pub fn report_line(
    call: u64,
    row: &Row,
    finding: &Finding,
    arg: Option<Name>,
    out: &mut Vec<u8>,
) -> Result<(), NoMemory>
    ensures { OnOk result (out.new.items ≡ out.old.items ++ option_map_or (λ p. model.report_line call row.now.id p arg (report_of finding.now)) (slice_get (row_of row.now.id).params finding.now.param) []) }
{
    match command_tables::row(row.id)
        .params
        .get(finding.param as usize)
    {
        None => Ok(()),
        Some(param) => {
            put_report(call, row.id, param, finding, arg, out)?;
            Ok(())
        }
    }
}
