// The open calls of all threads.
ghost use Rattle.std.specs.Prelude.{◌≡◌, ◌<◌, ◌^◌, ◌++◌, ◌∷◌, [], filter, length, not, OnErr, OnOk};
ghost use Rattle.std.specs.Box.{box_value};
ghost use Rattle.std.specs.List.{find};
ghost use Rattle.std.specs.Option.{option_map};
ghost use Rattle.replay_model.specs.Past.{is_of};
ghost use Rattle.chain_session.specs.Opened.{opened_of};

use crate::call::OpenCall;
use std::alloc::{AllocError, Global};
use std::marker::Model;

/// The open calls, oldest first. Each stays where it is until it is closed.
pub struct OpenCalls {
    calls: Vec<Box<OpenCall>>,
}

impl Drop for OpenCalls {
    fn drop(self) {
        let OpenCalls { calls: _calls } = self;
    }
}

impl Model for OpenCalls {
    ghost use Rattle.std.specs.Prelude.{List, map};
    ghost use Rattle.std.specs.Box.{box_value};
    ghost use Rattle.chain_session.specs.declared.call.OpenCall.{OpenCall};

    ghost Value = { List OpenCall };

    ghost view = { λ o. map box_value o.calls.items };
}

fn first_of(calls: &[Box<OpenCall>], thread: u32) -> Option<&Box<OpenCall>>
    ensures { option_map (λ b. b.now) result ≡ find (λ b. is_of thread (opened_of (box_value b))) calls.now }
{
    calls.iter().find(|c| c.thread == thread)
}

// Takes out the first call of a thread, where there is one.
fn take_first(calls: &mut Vec<Box<OpenCall>>, thread: u32) -> Option<Box<OpenCall>>
    ensures { filter (λ b. not (is_of thread (opened_of (box_value b)))) calls.new.items ≡ filter (λ b. not (is_of thread (opened_of (box_value b)))) calls.old.items }
{
    for at in 0..calls.len() {
        if calls[at].thread == thread {
            return Some(calls.remove(at));
        }
    }
    None
}

fn leave_others(calls: &mut Vec<Box<OpenCall>>, thread: u32)
    ensures { calls.new.items ≡ filter (λ b. not (is_of thread (opened_of (box_value b)))) calls.old.items }
{
    calls.retain(|c| c.thread != thread);
}

impl OpenCalls {
    /// No call is open. Takes no memory.
    pub(crate) fn new(alloc: Global) -> OpenCalls
        ensures { result ≡ [] }
    {
        OpenCalls {
            calls: Vec::new(alloc),
        }
    }

    /// How many calls are open.
    pub(crate) fn len(&self) -> usize
        ensures len { result ≡ length self.now }
        ensures few { result < 2 ^ 62 }
    {
        self.calls.as_slice().len()
    }

    /// The open call of a thread.
    pub(crate) fn find(&self, thread: u32) -> Option<&OpenCall>
        ensures { option_map (λ c. c.now) result ≡ find (λ c. is_of thread (opened_of c)) self.now }
    {
        match first_of(&self.calls, thread) {
            None => None,
            Some(call) => Some(call),
        }
    }

    /// One call more is open.
    pub(crate) fn push(&mut self, call: Box<OpenCall>) -> Result<(), AllocError>
        ensures ok { OnOk result (self.new ≡ self.old ++ box_value call ∷ []) }
        ensures err { OnErr result (self.new ≡ self.old) }
    {
        self.calls.push(call)?;
        Ok(())
    }

    /// Leaves the open calls of the other threads, and answers the call that is left out, for its room alone.
    pub(crate) fn close(&mut self, thread: u32) -> Option<Box<OpenCall>>
        ensures { self.new ≡ filter (λ c. not (is_of thread (opened_of c))) self.old }
    {
        let closed = take_first(&mut self.calls, thread);
        leave_others(&mut self.calls, thread);
        closed
    }
}
