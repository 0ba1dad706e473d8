// The lines of returns, and the last line.
ghost use Rattle.std.specs.Prelude.{◌≡◌, ◌++◌, OnOk, codes, decimal};
ghost use Rattle.command_tables.specs.Table.{row_of};
ghost use Rattle.trace_format.specs.Grammar.{code_text};
ghost use Rattle.replay_model.specs.Text as model;

use crate::put::{put, put_number};
use crate::reports::put_command;
use crate::tally::Tally;
use command_tables::{Code, CommandId, NoMemory, Row, row};
use std::alloc::AllocError;

fn code_name(code: Option<Code>) -> &'static str
    ensures { result.now ≡ code_text code }
{
    match code {
        None => "void",
        Some(code) => code.name(),
    }
}

// The number of born results, at a command that has results.
#[tactic(auto, using(std::proofs::lemmas::List::append_assoc, crate::proofs::Pieces::append_none))]
fn put_born(cmd: CommandId, born: u32, out: &mut Vec<u8>) -> Result<(), AllocError>
    ensures { OnOk result (out.new.items ≡ out.old.items ++ model.born_text cmd born) }
{
    let effect = row(cmd).effect;
    match effect.type_made() {
        None => Ok(()),
        Some(_) => {
            put(" born=", out)?;
            put_number(u64::from(born), out)
        }
    }
}

// The front of a return's line: the call's number, its command and its answer.
#[tactic(auto, using(std::proofs::lemmas::List::append_assoc))]
fn put_answer(
    call: u64,
    cmd: CommandId,
    answer: Option<Code>,
    out: &mut Vec<u8>,
) -> Result<(), AllocError>
    ensures { OnOk result (out.new.items ≡ out.old.items ++ (codes "ret " ++ decimal call ++ codes " " ++ (row_of cmd).name ++ codes " " ++ code_text answer)) }
{
    put("ret ", out)?;
    put_number(call, out)?;
    put(" ", out)?;
    put_command(cmd, out)?;
    put(" ", out)?;
    put(code_name(answer), out)
}

/// Appends the line of the return of the call with a number: its command, which is named by the row's number, what it answers, and, at a
/// command that has results, how many of them are born. After `NoMemory` the bytes are any.
#[tactic(auto, using(std::proofs::lemmas::List::append_assoc))]
pub fn return_line(
    call: u64,
    row: &Row,
    answer: Option<Code>,
    born: u32,
    out: &mut Vec<u8>,
) -> Result<(), NoMemory>
    ensures { OnOk result (out.new.items ≡ out.old.items ++ (codes "ret " ++ decimal call ++ codes " " ++ (row_of row.now.id).name ++ codes " " ++ code_text answer ++ model.born_text row.now.id born ++ codes "\n")) }
{
    put_answer(call, row.id, answer, out)?;
    put_born(row.id, born, out)?;
    put("\n", out)?;
    Ok(())
}

// The three numbers of the last line.
#[tactic(auto, using(std::proofs::lemmas::List::append_assoc))]
fn put_tally(tally: &Tally, out: &mut Vec<u8>) -> Result<(), AllocError>
    ensures { OnOk result (out.new.items ≡ out.old.items ++ (decimal tally.now.calls ++ codes " skipped=" ++ decimal tally.now.skipped ++ codes " reports=" ++ decimal tally.now.reports)) }
{
    put_number(tally.calls, out)?;
    put(" skipped=", out)?;
    put_number(tally.skipped, out)?;
    put(" reports=", out)?;
    put_number(tally.reports, out)
}

/// Appends the line behind the last event: how many calls there were, how many of them were skipped, and how many reports. After
/// `NoMemory` the bytes are any.
#[tactic(auto, using(std::proofs::lemmas::List::append_assoc))]
pub fn end_line(tally: &Tally, out: &mut Vec<u8>) -> Result<(), NoMemory>
    ensures { OnOk result (out.new.items ≡ out.old.items ++ model.end_line tally.now.calls tally.now.skipped tally.now.reports) }
{
    put("end calls=", out)?;
    put_tally(tally, out)?;
    put("\n", out)?;
    Ok(())
}
