//! Several logs become one list.
ghost use Rattle.std.specs.Prelude.{◌≡◌, ◌≤◌, true, IfOk, MatchBool, length, map};
ghost use Rattle.std.specs.List.{AllByRecursion};
ghost use Rattle.stream_log.specs.Log.{RisesFrom, line_of};
ghost use Rattle.log_merge.specs.Halves.{IsMergeBetween, IsMergeOfTwo, in_log};
ghost use Rattle.log_merge.specs.Merged.{AreOrdered, IsLogMerge, may_precede};
ghost use Rattle.log_merge.specs.Numbered.{closed_lines, numbered};

use std::alloc::{AllocError, Global};
use stream_log::Entry;
use trace_format::Name;

// Whether the first of two entries may stand before the second; else the second may before the first.
fn comes_first(a: &(usize, &Entry), b: &(usize, &Entry)) -> bool
    ensures { MatchBool result (may_precede (numbered a.now) (numbered b.now) ≡ true) (may_precede (numbered b.now) (numbered a.now) ≡ true) }
{
    let (_, a) = *a;
    let (_, b) = *b;
    if a.time == b.time {
        return a.thread <= b.thread;
    }
    a.time < b.time
}

// Two lists in order become one.
fn merge_two<'a>(
    alloc: Global,
    xs: &[(usize, &'a Entry)],
    ys: &[(usize, &'a Entry)],
) -> Result<Vec<(usize, &'a Entry)>, AllocError>
    requires { AreOrdered (map numbered xs.now) × AreOrdered (map numbered ys.now) }
    ensures { IfOk result (λ merged. IsMergeOfTwo (map numbered xs.now) (map numbered ys.now) (map numbered merged.items)) }
{
    let mut merged = Vec::with_capacity(alloc, xs.len() + ys.len())?;
    let mut i = 0;
    let mut j = 0;
    while i < xs.len() && j < ys.len() {
        if comes_first(&xs[i], &ys[j]) {
            merged.push(xs[i])?;
            i += 1;
        } else {
            merged.push(ys[j])?;
            j += 1;
        }
    }
    merged.extend_from_slice(&xs[i..])?;
    merged.extend_from_slice(&ys[j..])?;
    Ok(merged)
}

// The entries of a log, each with the log's number.
fn with_number<'a>(
    alloc: Global,
    log: usize,
    entries: &'a [Entry],
) -> Result<Vec<(usize, &'a Entry)>, AllocError>
    ensures { IfOk result (λ v. map numbered v.items ≡ map (in_log log) (map line_of entries.now)) }
{
    let mut v = Vec::with_capacity(alloc, entries.len())?;
    for entry in entries {
        v.push((log, entry))?;
    }
    Ok(v)
}

// The merge of the logs from one number up to another.
fn merge_between<'a>(
    alloc: Global,
    logs: &'a [(Name, Vec<Entry>)],
    from: usize,
    to: usize,
) -> Result<Vec<(usize, &'a Entry)>, AllocError>
    requires inside { to ≤ length logs.now }
    requires rising { AllByRecursion (RisesFrom 0) (map closed_lines logs.now) }
    ensures { IfOk result (λ merged. IsMergeBetween (map closed_lines logs.now) from to (map numbered merged.items)) }
{
    if to <= from {
        return Ok(Vec::new(alloc));
    }
    let count = to - from;
    if count == 1 {
        return with_number(alloc, from, &logs[from].1);
    }
    let middle = from + count / 2;
    let left = merge_between(alloc, logs, from, middle)?;
    let right = merge_between(alloc, logs, middle, to)?;
    merge_two(alloc, &left, &right)
}

/// All entries of closed logs, each with the number of its log, from 0: by time, and by thread where times are the same. Each log's
/// times rise, as those of a closed log do. Logs are merged two at a time, so that an entry of 16 logs is looked at in four merges.
pub fn merge_logs<'a>(
    alloc: Global,
    logs: &'a [(Name, Vec<Entry>)],
) -> Result<Vec<(usize, &'a Entry)>, AllocError>
    requires { AllByRecursion (RisesFrom 0) (map closed_lines logs.now) }
    ensures { IfOk result (λ merged. IsLogMerge (map closed_lines logs.now) (map numbered merged.items)) }
{
    merge_between(alloc, logs, 0, logs.len())
}
