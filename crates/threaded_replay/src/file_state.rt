//! What the next line of a stream file reads of the earlier ones.
use crate::error::NotTaken;
use crate::order::event_thread;
use crate::sections::Sections;
use std::alloc::Global;
use stream_model::{Heading, Refusal};
use trace_format::{AcceptError, Event, TraceState};

/// The state of the trace that the sections are, one after the other, and what is kept beside it. After a line that isn't taken it is for
/// dropping alone.
#[derive(Drop)]
pub struct FileState {
    pub trace: TraceState,
    pub sections: Sections,
}

impl FileState {
    ghost use Rattle.std.specs.Prelude.{◌≡◌, [], List, option_map};
    ghost use Rattle.std.specs.Result.{result_err};
    ghost use Rattle.trace_format.specs.Accepting.{fault_at_end};
    ghost use Rattle.trace_format.specs.Content.{content};
    ghost use Rattle.trace_format.specs.Grammar.{IsEvent};
    ghost use Rattle.stream_model.specs.FileLines.{FileLine, EventLine, HeadingLine};
    ghost use Rattle.stream_model.specs.Order.{events, refusal_at_end};
    ghost use Rattle.threaded_replay.specs.Kept.{StandsFor};
    ghost use Rattle.threaded_replay.specs.Taking.{StateTakes, TraceTakes};

    /// Nothing was read behind the header.
    pub fn new(alloc: Global) -> FileState
        ensures { StandsFor result [] }
    {
        FileState {
            trace: TraceState::new(alloc),
            sections: Sections::new(alloc),
        }
    }

    // The state of the trace takes an event of the grammar. It has room for every name of a stream file.
    fn accept(&mut self, event: &Event) -> Result<(), NotTaken>
        requires { IsEvent (content event.now) }
        ensures accepts { TraceTakes self.old self.new (content event.now) result }
        ensures sections { self.new.sections ≡ self.old.sections }
    {
        match self.trace.accept(event) {
            Ok(_) => Ok(()),
            Err(AcceptError::Fault(fault)) => Err(NotTaken::Refused(Refusal::Fault(fault))),
            Err(AcceptError::Names) => Err(NotTaken::Refused(Refusal::Names)),
            Err(AcceptError::NoMemory) => Err(NotTaken::NoMemory),
        }
    }

    /// Takes the line of an event, or says why it may not follow: what is wrong with its section comes first, then the faults of a trace, what
    /// no stream may do, and the limits.
    pub fn take_event(&mut self, event: &Event) -> Result<(), NotTaken>
        requires { IsEvent (content event.now) }
        ensures { StateTakes self.old self.new (EventLine (content event.now)) result }
    {
        if !self.sections.has_thread(event_thread(event)) {
            return Err(NotTaken::Refused(Refusal::Section));
        }
        match self.accept(event) {
            Err(error) => Err(error),
            Ok(()) => self.sections.take_event(event),
        }
    }

    /// Takes a heading, or says why it may not follow: it is out of its order, or a call is open.
    pub fn take_heading(&mut self, heading: Heading) -> Result<(), NotTaken>
        ensures { StateTakes self.old self.new (HeadingLine heading) result }
    {
        if !self.sections.has_in_order(heading) {
            return Err(NotTaken::Refused(Refusal::Section));
        }
        match self.trace.finish() {
            Err(fault) => Err(NotTaken::Refused(Refusal::Fault(fault))),
            Ok(()) => {
                self.sections.begin_section(heading)?;
                Ok(())
            }
        }
    }

    // Why a trace may not end here.
    fn open_call(&self) -> Result<(), Refusal>
        ensures { (lines : List FileLine) → StandsFor self.now lines → option_map (λ f. Refusal.Fault f) (fault_at_end (events lines)) ≡ result_err result }
    {
        match self.trace.finish() {
            Ok(()) => Ok(()),
            Err(fault) => Err(Refusal::Fault(fault)),
        }
    }

    /// Why the file may not end here: teardown hasn't come, or a call is open.
    pub fn finish(&self) -> Result<(), Refusal>
        ensures { (lines : List FileLine) → StandsFor self.now lines → refusal_at_end lines ≡ result_err result }
    {
        match self.sections.section {
            Some(Heading::Teardown) => self.open_call(),
            None | Some(Heading::Setup | Heading::Stream(_)) => Err(Refusal::Section),
        }
    }
}
