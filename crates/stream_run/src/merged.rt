//! What the threads of a stream file did.
ghost use Rattle.std.specs.Prelude.{◌≡◌, IfOk, map};
ghost use Rattle.std.specs.List.{AllByRecursion};
ghost use Rattle.stream_log.specs.Log.{RisesFrom, line_of};
ghost use Rattle.trace_format.specs.Content.{content};
ghost use Rattle.model_driver.specs.Driver.{reply_shown};
ghost use Rattle.threaded_replay.specs.Files.{file_parts};
ghost use Rattle.log_merge.specs.Numbered.{closed_lines, numbered};
ghost use Rattle.stream_run.specs.Gathering.{IsGathered};

use command_tables::NoMemory;
use log_merge::merge_logs;
use model_driver::DriverReply;
use std::alloc::{AllocError, Global};
use stream_log::Entry;
use stream_merge::{gather_events, gather_replies};
use threaded_replay::StreamFile;
use trace_format::{Event, Name};

/// What the threads of a stream file did: their events by the times of their steps, and by thread where two have one time; the replies to the
/// calls that were sent, in the order of their begins; and each device that a stream names with its closed log, in the order in which the
/// streams first name them.
#[derive(Drop)]
pub struct Merged {
    pub events: Vec<Event>,
    pub replies: Vec<DriverReply>,
    pub logs: Vec<(Name, Vec<Entry>)>,
}

// The entries alone.
fn without_numbers<'a>(
    alloc: Global,
    numbered: &[(usize, &'a Entry)],
) -> Result<Vec<&'a Entry>, AllocError>
    ensures { IfOk result (λ v. map (λ e. line_of e.now) v.items ≡ map (λ x. line_of x.1.now) numbered.now) }
{
    let mut entries = Vec::with_capacity(alloc, numbered.len())?;
    for (_, entry) in numbered {
        entries.push(*entry)?;
    }
    Ok(entries)
}

// The events and the replies that closed logs say in one order.
fn gather(
    alloc: Global,
    file: &StreamFile,
    logs: &[(Name, Vec<Entry>)],
    sent: &[Vec<bool>],
) -> Result<(Vec<Event>, Vec<DriverReply>), NoMemory>
    requires { AllByRecursion (RisesFrom 0) (map closed_lines logs.now) }
    ensures { IfOk result (λ r. IsGathered (file_parts file.now).streams (map (λ s. s.items) sent.now) (map closed_lines logs.now) (map content r.0.items) (map reply_shown r.1.items)) }
{
    let numbered = merge_logs(alloc, logs)?;
    let entries = without_numbers(alloc, &numbered)?;
    let events = gather_events(alloc, file, &entries)?;
    let replies = gather_replies(alloc, file, sent, &entries)?;
    Ok((events, replies))
}

/// What closed logs say. `sent` says of each call of each stream whether it was sent.
pub(crate) fn merged_of(
    alloc: Global,
    file: &StreamFile,
    logs: Vec<(Name, Vec<Entry>)>,
    sent: &[Vec<bool>],
) -> Result<Merged, NoMemory>
    requires { AllByRecursion (RisesFrom 0) (map closed_lines logs.items) }
    ensures logs { IfOk result (λ r. r.logs ≡ logs) }
    ensures gathered { IfOk result (λ r. IsGathered (file_parts file.now).streams (map (λ s. s.items) sent.now) (map closed_lines logs.items) (map content r.events.items) (map reply_shown r.replies.items)) }
{
    let (events, replies) = gather(alloc, file, &logs, sent)?;
    Ok(Merged {
        events,
        replies,
        logs,
    })
}
