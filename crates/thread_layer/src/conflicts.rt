// With which open calls of other threads uses conflict.
ghost use Rattle.std.specs.Prelude.{◌≡◌, ◌&&◌, ◌==◌, None, Some, cond, length, map, not};
ghost use Rattle.std.specs.List.{flat_map, list_any};
ghost use Rattle.object_model.specs.Uses.{clashes, conflicts_in, least};
ghost use Rattle.thread_layer.specs.Kept.{counted, lesser, opens_of, use_seen};

use crate::object_use::ObjectUse;
use crate::open_call::OpenCall;

#[tactic(auto, unfolding(command_tables::specs::Tests::same_type))]
fn clash(used: &ObjectUse, other: &ObjectUse) -> bool
    ensures { result ≡ clashes (use_seen used.now) (use_seen other.now) }
{
    used.object == other.object && (used.write || other.write)
}

fn any_clash(used: &ObjectUse, others: &[ObjectUse]) -> bool
    ensures { result ≡ list_any (λ other. clashes (use_seen used.now) (use_seen other)) others.now }
{
    others.iter().any(|other| clash(used, other))
}

// Whether a use conflicts with an open call, with its own uses, that is of another thread.
#[tactic(auto, using(crate::proofs::Least::any_seen))]
fn conflicts_with(used: &ObjectUse, thread: u32, call: OpenCall, own: &[ObjectUse]) -> bool
    ensures { result ≡ (not (call.thread == thread) && list_any (clashes (use_seen used.now)) (map use_seen own.now)) }
{
    call.thread != thread && any_clash(used, own)
}

fn lesser(least: Option<u64>, number: u64) -> Option<u64>
    ensures { result ≡ lesser least (Some number) }
{
    match least {
        None => Some(number),
        Some(least) => Some(least.min(number)),
    }
}

// The least number, with that of an open call where a use conflicts with it.
fn with_open(
    used: &ObjectUse,
    thread: u32,
    call: OpenCall,
    own: &[ObjectUse],
    so_far: Option<u64>,
) -> Option<u64>
    ensures { result ≡ lesser so_far (cond (not (call.thread == thread) && list_any (clashes (use_seen used.now)) (map use_seen own.now)) (Some call.number) None) }
{
    if conflicts_with(used, thread, call, own) {
        lesser(so_far, call.number)
    } else {
        so_far
    }
}

// The least number, with those of the open calls with which a use conflicts.
#[tactic(auto, using(crate::proofs::Least::opens_end, crate::proofs::Opens::counted_cut))]
fn with_use(
    used: &ObjectUse,
    thread: u32,
    calls: &[OpenCall],
    held: &[ObjectUse],
    so_far: Option<u64>,
) -> Option<u64>
    requires { counted calls.now ≡ length held.now }
    ensures { result ≡ lesser so_far (least (conflicts_in (opens_of calls.now held.now) thread (use_seen used.now))) }
{
    let _most = held.len();
    let mut least = so_far;
    let mut start = 0;
    for i in 0..calls.len() {
        let end = start + calls[i].count;
        least = with_open(used, thread, calls[i], &held[start..end], least);
        start = end;
    }
    least
}

/// The least number of an open call of another thread with which one of these uses conflicts. The uses of open calls stand in one list.
#[tactic(auto, using(crate::proofs::Least::uses_end))]
pub(crate) fn least_conflict(
    uses: &[ObjectUse],
    thread: u32,
    calls: &[OpenCall],
    held: &[ObjectUse],
) -> Option<u64>
    requires { counted calls.now ≡ length held.now }
    ensures { result ≡ least (flat_map (conflicts_in (opens_of calls.now held.now) thread) (map use_seen uses.now)) }
{
    let mut least = None;
    for i in 0..uses.len() {
        least = with_use(&uses[i], thread, calls, held, least);
    }
    least
}
