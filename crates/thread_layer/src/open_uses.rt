// The open calls with their uses.
ghost use Rattle.std.specs.Prelude.{◌≡◌, ◌≤◌, ◌<◌, ◌+◌, ◌++◌, ◌∷◌, [], ◌==◌, drop, length, map, take, vec_capacity, IfOk, IsOk, OnErr, OnOk};
ghost use Rattle.std.specs.List.{flat_map, remove};
ghost use Rattle.object_model.specs.Uses.{InUse, conflicts_in, least};
ghost use Rattle.thread_layer.specs.Kept.{counted, of_others, opens_of, use_seen};
ghost use Rattle.thread_layer.specs.Room.{uses_held};

use crate::conflicts::least_conflict;
use crate::object_use::ObjectUse;
use crate::open_call::OpenCall;
use command_tables::NoMemory;
use std::alloc::Global;
use std::marker::Model;

/// The calls that are open, the oldest first, with what they used at their begins.
#[derive(Drop)]
pub struct OpenUses {
    calls: Vec<OpenCall>,
    // The uses of one call stand behind those of the other.
    uses: Vec<ObjectUse>,
}

impl Model for OpenUses {
    ghost use Rattle.std.specs.Prelude.{◌≡◌, length, min, vec_capacity};
    ghost use Rattle.thread_layer.specs.Kept.{OpenState, counted, opens_of};

    ghost Value = { OpenState };

    ghost view = { λ o. record { opens = opens_of o.calls.items o.uses.items; room = min (vec_capacity o.calls) (vec_capacity o.uses) } };

    ghost invariant = { λ o. counted o.calls.items ≡ length o.uses.items };
}

// How many uses the first so many calls have.
#[tactic(auto, using(crate::proofs::Opens::counted_next, crate::proofs::Opens::counted_within))]
fn start_of(calls: &[OpenCall], at: usize, uses: &[ObjectUse]) -> usize
    requires within { at < length calls.now }
    requires counted { counted calls.now ≡ length uses.now }
    ensures { result ≡ counted (take at calls.now) }
{
    let _most = uses.len();
    let mut start = 0;
    for i in 0..at {
        start += calls[i].count;
    }
    start
}

// So many uses, from a place on, go behind all others.
fn put_last(uses: &mut [ObjectUse], start: usize, count: usize)
    requires { start + count ≤ length uses.old }
    ensures before { take start uses.new ≡ take start uses.old }
    ensures behind { drop start uses.new ≡ drop count (drop start uses.old) ++ take count (drop start uses.old) }
{
    let end = uses.len();
    uses[start..end].rotate_left(count);
}

// So many uses go from a place on.
#[tactic(auto, using(crate::proofs::Opens::cut_left))]
fn cut(uses: &mut Vec<ObjectUse>, start: usize, count: usize)
    requires { start + count ≤ length uses.old.items }
    ensures items { uses.new.items ≡ take start uses.old.items ++ drop (start + count) uses.old.items }
    ensures count { length uses.new.items + count ≡ length uses.old.items }
    ensures capacity { vec_capacity uses.new ≡ vec_capacity uses.old }
{
    let rest = uses.len() - count;
    put_last(uses.as_mut_slice(), start, count);
    uses.truncate(rest);
}

fn is_of(call: OpenCall, thread: u32) -> bool
    ensures { result ≡ (call.thread == thread) }
{
    call.thread == thread
}

// The call at a place is closed.
fn take_out(calls: &mut Vec<OpenCall>, uses: &mut Vec<ObjectUse>, at: usize)
    requires within { at < length calls.old.items }
    requires counted { counted calls.old.items ≡ length uses.old.items }
    ensures counted { counted calls.new.items ≡ length uses.new.items }
    ensures count { length calls.new.items + 1 ≡ length calls.old.items }
    ensures opens { opens_of calls.new.items uses.new.items ≡ remove (opens_of calls.old.items uses.old.items) at }
    ensures calls_capacity { vec_capacity calls.new ≡ vec_capacity calls.old }
    ensures uses_capacity { vec_capacity uses.new ≡ vec_capacity uses.old }
{
    let start = start_of(calls, at, uses);
    let closed = calls.remove(at);
    cut(uses, start, closed.count);
}

// The call at a place is closed where it is of a thread.
fn close_at(calls: &mut Vec<OpenCall>, uses: &mut Vec<ObjectUse>, at: usize, thread: u32)
    requires within { at < length calls.old.items }
    requires counted { counted calls.old.items ≡ length uses.old.items }
    ensures counted { counted calls.new.items ≡ length uses.new.items }
    ensures within { at ≤ length calls.new.items }
    ensures opens { of_others thread (take at (opens_of calls.new.items uses.new.items)) ++ drop at (opens_of calls.new.items uses.new.items) ≡ of_others thread (take (at + 1) (opens_of calls.old.items uses.old.items)) ++ drop (at + 1) (opens_of calls.old.items uses.old.items) }
    ensures calls_capacity { vec_capacity calls.new ≡ vec_capacity calls.old }
    ensures uses_capacity { vec_capacity uses.new ≡ vec_capacity uses.old }
{
    let call = calls[at];
    if !is_of(call, thread) {
        return;
    }
    take_out(calls, uses, at);
}

// No call of the thread stays open.
fn close_all(calls: &mut Vec<OpenCall>, uses: &mut Vec<ObjectUse>, thread: u32)
    requires { counted calls.old.items ≡ length uses.old.items }
    ensures counted { counted calls.new.items ≡ length uses.new.items }
    ensures opens { opens_of calls.new.items uses.new.items ≡ of_others thread (opens_of calls.old.items uses.old.items) }
    ensures calls_capacity { vec_capacity calls.new ≡ vec_capacity calls.old }
    ensures uses_capacity { vec_capacity uses.new ≡ vec_capacity uses.old }
{
    let mut left = calls.len();
    while left > 0 {
        left -= 1;
        close_at(calls, uses, left, thread);
    }
}

impl OpenUses {
    /// No call is open.
    pub fn new(alloc: Global) -> OpenUses
        ensures { result.opens ≡ [] }
    {
        OpenUses {
            calls: Vec::new(alloc),
            uses: Vec::new(alloc),
        }
    }

    /// Open calls of their own, the same. Of room nothing is said.
    pub fn copy(&self) -> Result<OpenUses, NoMemory>
        ensures { IfOk result (λ copy. copy.opens ≡ self.now.opens) }
    {
        let alloc = *self.calls.allocator();
        Ok(OpenUses {
            calls: Vec::from_slice(alloc, &self.calls)?,
            uses: Vec::from_slice(alloc, &self.uses)?,
        })
    }

    /// The greater of the number of open calls and that of their uses.
    #[tactic(auto, using(crate::proofs::Opens::opens_length, crate::proofs::Opens::held_all))]
    pub fn size(&self) -> usize
        ensures calls { length self.now.opens ≤ result }
        ensures uses { uses_held self.now.opens ≤ result }
    {
        self.calls.len().max(self.uses.len())
    }

    /// Makes room for so many further open calls with so many uses in all. After `NoMemory` the calls are as before, and no room is lost.
    #[tactic(auto, using(crate::proofs::Opens::opens_length, crate::proofs::Opens::held_all))]
    pub fn reserve(&mut self, n: usize) -> Result<(), NoMemory>
        ensures opens { self.new.opens ≡ self.old.opens }
        ensures ok_calls { OnOk result (length self.old.opens + n ≤ self.new.room) }
        ensures ok_uses { OnOk result (uses_held self.old.opens + n ≤ self.new.room) }
        ensures room { self.old.room ≤ self.new.room }
    {
        let size = self.calls.len().max(self.uses.len());
        let room = size.checked_add(n).ok_or(NoMemory)?;
        self.calls.reserve(room - self.calls.len())?;
        self.uses.reserve(room - self.uses.len())?;
        Ok(())
    }

    /// A further call is open, with these uses. After `NoMemory`, which comes only where there was no room, the calls are as before.
    #[tactic(auto, using(crate::proofs::Opens::opens_length, crate::proofs::Opens::held_all, crate::proofs::Opens::opens_more, crate::proofs::Opens::counted_more))]
    pub fn add(&mut self, number: u64, thread: u32, uses: &[ObjectUse]) -> Result<(), NoMemory>
        ensures ok { OnOk result (self.new.opens ≡ self.old.opens ++ record { number = number; thread = thread; uses = map use_seen uses.now } ∷ []) }
        ensures err { OnErr result (self.new.opens ≡ self.old.opens) }
        ensures succeeds { length self.old.opens + 1 ≤ self.old.room → uses_held self.old.opens + length uses.now ≤ self.old.room → IsOk result }
        ensures room { self.old.room ≤ self.new.room }
    {
        self.calls.reserve(1)?;
        self.uses.extend_from_slice(uses)?;
        let call = OpenCall {
            number,
            thread,
            count: uses.len(),
        };
        self.calls.push(call).unwrap();
        Ok(())
    }

    /// No call of a thread stays open; their room stays. Takes no memory.
    pub fn close(&mut self, thread: u32)
        ensures opens { self.new.opens ≡ of_others thread self.old.opens }
        ensures room { self.new.room ≡ self.old.room }
    {
        close_all(&mut self.calls, &mut self.uses, thread);
    }

    /// The least number of an open call of another thread with which one of these uses conflicts.
    pub fn least_conflict(&self, uses: &[ObjectUse], thread: u32) -> Option<u64>
        ensures { result ≡ least (flat_map (conflicts_in self.now.opens thread) (map use_seen uses.now)) }
    {
        least_conflict(uses, thread, &self.calls, &self.uses)
    }
}
