// A driver that answers what is written.
ghost use Rattle.std.specs.Prelude.{◌≡◌, ◌↔◌, [], IsTrue, OnOk, map};
ghost use Rattle.model_driver.specs.Driver.{call_shown, reply_shown, handles_due, are_handles, IsAnsweredBy};

use command_tables::{Code, NoMemory};
use model_driver::{Driver, DriverCall, DriverReply, Policy};
use std::marker::Model;

/// Answers the replies of a list in order, each where it fits the call, and where none is left or the next one doesn't fit it has no memory.
/// It tells the replies that it has given, and to prepare it changes nothing.
#[derive(Drop)]
pub(crate) struct PlayedDriver<'a> {
    replies: &'a [DriverReply],
    next: usize,
}

impl<'a> Model for PlayedDriver<'a> {
    ghost use Rattle.std.specs.Prelude.{◌≤◌, drop, length, map, take};
    ghost use Rattle.model_driver.specs.Driver.{reply_shown};
    ghost use Rattle.stream_replay.specs.Playing.{Played};

    ghost Value = { Played };

    ghost view = { λ d. record { given = map reply_shown (take d.next d.replies.now); left = map reply_shown (drop d.next d.replies.now) } };

    ghost invariant = { λ d. d.next ≤ length d.replies.now };
}

impl<'a> PlayedDriver<'a> {
    pub(crate) fn new(replies: &'a [DriverReply]) -> PlayedDriver<'a>
        ensures given { result.given ≡ [] }
        ensures left { result.left ≡ map reply_shown replies.now }
    {
        PlayedDriver { replies, next: 0 }
    }

    /// Whether just these replies were given.
    pub(crate) fn has_given(&self, replies: &[DriverReply]) -> bool
        ensures { IsTrue result ↔ self.now.given ≡ map reply_shown replies.now }
    {
        same_replies(&self.replies[..self.next], replies)
    }
}

fn same_code(a: Option<Code>, b: Option<Code>) -> bool
    ensures { IsTrue result ↔ a ≡ b }
{
    match (a, b) {
        (None, None) => true,
        (Some(a), Some(b)) => a == b,
        _ => false,
    }
}

// Whether none of them is 0.
fn all_handles(handles: &[u64]) -> bool
    ensures { result ≡ are_handles handles.now }
{
    handles.iter().all(|h| *h >= 1)
}

// How many handles a call must be answered.
fn count_due(call: &DriverCall) -> u32
    ensures { result ≡ handles_due (call_shown call.now) }
{
    if call.body.cmd.succeeds(call.body.code) {
        call.body.asked
    } else {
        0
    }
}

// Whether a driver may answer a call so.
fn fits(call: &DriverCall, reply: &DriverReply) -> bool
    ensures { IsTrue result ↔ IsAnsweredBy (call_shown call.now) (reply_shown reply.now) }
{
    same_code(reply.code, call.body.code)
        && reply.handles.len() == count_due(call) as usize
        && all_handles(&reply.handles)
}

// Puts one reply in place of another. After `NoMemory` anything stands there.
fn copy_reply(from: &DriverReply, to: &mut DriverReply) -> Result<(), NoMemory>
    ensures { OnOk result (reply_shown to.new ≡ reply_shown from.now) }
{
    to.handles.clear();
    to.handles.extend_from_slice(&from.handles)?;
    to.code = from.code;
    Ok(())
}

fn same_reply(a: &DriverReply, b: &DriverReply) -> bool
    ensures { IsTrue result ↔ reply_shown a.now ≡ reply_shown b.now }
{
    same_code(a.code, b.code) && a.handles == b.handles
}

// Whether two lists have the same replies.
fn same_replies(some: &[DriverReply], others: &[DriverReply]) -> bool
    ensures { IsTrue result ↔ map reply_shown some.now ≡ map reply_shown others.now }
{
    if some.len() != others.len() {
        return false;
    }
    for (k, reply) in some.iter().enumerate() {
        if !same_reply(reply, &others[k]) {
            return false;
        }
    }
    true
}

impl<'a> Driver for PlayedDriver<'a> {
    ghost use Rattle.std.specs.Prelude.{◌≡◌, ◌∷◌, [], ◌++◌, None};
    ghost use Rattle.model_driver.specs.Logs.{Replies};

    ghost log = { λ d. Replies d.given };

    ghost answers_by = { λ _. None };

    ghost prepare_gives = { λ before _ behind. behind ≡ before };

    ghost call_gives = { λ before _ reply behind. (behind.given ≡ before.given ++ reply ∷ []) × (before.left ≡ reply ∷ behind.left) };

    fn prepare(&mut self, _policy: Policy) {}

    #[tactic(auto, using(crate::proofs::PlayingLists::next_left, crate::proofs::PlayingLists::next_given))]
    fn call(&mut self, call: &DriverCall, reply: &mut DriverReply) -> Result<(), NoMemory> {
        let Some(written) = self.replies.get(self.next) else {
            return Err(NoMemory);
        };
        if !fits(call, written) {
            return Err(NoMemory);
        }
        copy_reply(written, reply)?;
        self.next += 1;
        Ok(())
    }
}
