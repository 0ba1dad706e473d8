// The room of calls that have returned, which the next ones take.
ghost use Rattle.std.specs.Prelude.{◌≡◌, [], false};

use crate::call::OpenCall;
use command_tables::NoMemory;
use lifetime_layer::Verdict;
use model_driver::{DriverCall, DriverReply};
use object_model::Argument;
use replay_model::Born;
use std::alloc::Global;

/// Vectors that are used again.
#[derive(Drop)]
pub(crate) struct Spares<T> {
    alloc: Global,
    vectors: Vec<Vec<T>>,
}

impl<T: Drop> Spares<T> {
    fn new(alloc: Global) -> Spares<T> {
        Spares {
            alloc,
            vectors: Vec::new(alloc),
        }
    }

    /// An empty vector, which has the room of a spare one.
    pub(crate) fn take(&mut self) -> Vec<T>
        ensures { result.items ≡ [] }
    {
        match self.vectors.pop() {
            None => Vec::new(self.alloc),
            Some(mut vector) => {
                vector.clear();
                vector
            }
        }
    }

    /// Keeps a vector's room, unless there is no memory for that.
    pub(crate) fn keep(&mut self, vector: Vec<T>) {
        let _kept = self.vectors.push(vector);
    }
}

/// Replies that are filled again.
#[derive(Drop)]
pub(crate) struct SpareReplies {
    alloc: Global,
    replies: Vec<DriverReply>,
}

impl SpareReplies {
    fn new(alloc: Global) -> SpareReplies {
        SpareReplies {
            alloc,
            replies: Vec::new(alloc),
        }
    }

    /// A reply, whatever it is.
    pub(crate) fn take(&mut self) -> DriverReply {
        match self.replies.pop() {
            None => DriverReply {
                code: None,
                handles: Vec::new(self.alloc),
            },
            Some(reply) => reply,
        }
    }

    // Keeps replies for their room, unless there is no memory for that.
    fn keep(&mut self, replies: &mut Vec<DriverReply>) {
        while let Some(reply) = replies.pop() {
            let _kept = self.replies.push(reply);
        }
    }
}

/// Room for calls, so that a call takes memory only where it is larger than those before it in the same room, or more calls are open than
/// ever before.
#[derive(Drop)]
pub(crate) struct Room {
    pub(crate) alloc: Global,
    /// For parameters of calls that have more than the one before in their room.
    pub(crate) places: Spares<Argument>,
    pub(crate) born: Spares<Born>,
    /// What is handed up of a call's results.
    pub(crate) handles: Vec<u64>,
    /// What the drivers are told of a call.
    pub(crate) targets: Vec<DriverCall>,
    /// For what they answer.
    pub(crate) replies: SpareReplies,
    verdicts: Vec<Verdict>,
    calls: Vec<Box<OpenCall>>,
}

impl Room {
    /// No room yet. It takes no memory.
    pub(crate) fn new(alloc: Global) -> Room {
        Room {
            alloc,
            places: Spares::new(alloc),
            born: Spares::new(alloc),
            handles: Vec::new(alloc),
            targets: Vec::new(alloc),
            replies: SpareReplies::new(alloc),
            verdicts: Vec::new(alloc),
            calls: Vec::new(alloc),
        }
    }

    /// A call, whatever it is.
    pub(crate) fn take_call(&mut self) -> Result<Box<OpenCall>, NoMemory> {
        match self.calls.pop() {
            None => Ok(Box::new(self.alloc, OpenCall::none(self.alloc)?)?),
            Some(call) => Ok(call),
        }
    }

    /// Keeps a call that has returned for its room, unless there is no memory for that.
    pub(crate) fn give_back(&mut self, call: Box<OpenCall>) {
        let mut call = call;
        self.replies.keep(&mut call.replies);
        let _kept = self.calls.push(call);
    }

    /// Nothing is found yet, and the call goes down.
    pub(crate) fn take_verdict(&mut self) -> Verdict
        ensures findings { result.findings.items ≡ [] }
        ensures skip { result.skip ≡ false }
    {
        match self.verdicts.pop() {
            None => Verdict::new(self.alloc),
            Some(mut verdict) => {
                verdict.findings.clear();
                verdict.skip = false;
                verdict
            }
        }
    }

    pub(crate) fn keep_verdict(&mut self, verdict: Verdict) {
        let _kept = self.verdicts.push(verdict);
    }
}
