// A call that was judged and sent is kept.
ghost use Rattle.std.specs.Prelude.{◌≡◌, ◌+◌, IfOk, OnOk, if◌then◌else◌};
ghost use Rattle.std.specs.Box.{box_value};
ghost use Rattle.replay_model.specs.Past.{is_skipped};
ghost use Rattle.chain_session.specs.Keeping.{KeepsBegun};
ghost use Rattle.chain_session.specs.Opened.{opened_of};

use crate::call::OpenCall;
use crate::kept::Kept;
use crate::sending::is_skipped;
use command_tables::NoMemory;

// One more is counted where it is so.
fn counted(count: u64, one_more: bool) -> Result<u64, NoMemory>
    ensures { IfOk result (λ n. n ≡ count + (if one_more then 1 else 0)) }
{
    if one_more {
        count.checked_add(1).ok_or(NoMemory)
    } else {
        Ok(count)
    }
}

/// Keeps a call with so many reports as an open one, and counts it. A count that would pass 64 bits is refused as want of memory.
pub(crate) fn keep_begun(
    kept: &mut Kept,
    call: Box<OpenCall>,
    reports: usize,
) -> Result<(), NoMemory>
    ensures kept { OnOk result (KeepsBegun kept.old (box_value call) reports kept.new) }
    ensures parts { kept.new.parts ≡ kept.old.parts }
{
    let skipped = counted(kept.skipped, is_skipped(&call))?;
    let reports = kept.reports.checked_add(reports as u64).ok_or(NoMemory)?;
    kept.calls = call.number;
    kept.skipped = skipped;
    kept.reports = reports;
    kept.open_calls.push(call)?;
    Ok(())
}
