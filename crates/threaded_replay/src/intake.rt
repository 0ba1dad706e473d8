//! Takes the lines of a stream file, one after the other.
use crate::draft::Draft;
use crate::error::{NotTaken, StreamError, error_at};
use crate::file_state::FileState;
use crate::heading::{heading_of, is_event_line};
use crate::stream_file::StreamFile;
use std::alloc::Global;
use stream_model::{Heading, Refusal};
use trace_format::{Event, ParseError, parse_line};

/// The file that was read so far, and what the next line reads of it. After a line that isn't taken it is for dropping alone.
#[derive(Drop)]
pub struct Intake {
    alloc: Global,
    pub state: FileState,
    pub draft: Draft,
}

impl Intake {
    ghost use Rattle.std.specs.Prelude.{◌≡◌, [], true, false, List, IfErr, IfOk};
    ghost use Rattle.trace_format.specs.Content.{content};
    ghost use Rattle.trace_format.specs.Grammar.{IsEvent};
    ghost use Rattle.stream_model.specs.FileLines.{FileLine, EventLine, HeadingLine, is_event_line};
    ghost use Rattle.threaded_replay.specs.Intakes.{CanEnd, EndsNot, IsIntakeOf, IntakeTakes, TakesText};

    /// Nothing was read behind the header.
    pub fn new(alloc: Global) -> Intake
        ensures { IsIntakeOf result [] }
    {
        Intake {
            alloc,
            state: FileState::new(alloc),
            draft: Draft::new(alloc),
        }
    }

    // Takes an event that was read.
    fn take_event(&mut self, event: Event) -> Result<(), NotTaken>
        requires { IsEvent (content event) }
        ensures { IntakeTakes self.old self.new (EventLine (content event)) result }
    {
        match self.state.take_event(&event) {
            Err(error) => Err(error),
            Ok(()) => {
                self.draft.push(event)?;
                Ok(())
            }
        }
    }

    // Takes a heading that was read.
    fn take_heading(&mut self, heading: Heading) -> Result<(), NotTaken>
        ensures { IntakeTakes self.old self.new (HeadingLine heading) result }
    {
        let section = self.state.sections.section;
        match self.state.take_heading(heading) {
            Err(error) => Err(error),
            Ok(()) => {
                self.draft.end_section(section)?;
                Ok(())
            }
        }
    }

    // Takes a line that begins as an event does.
    fn take_event_line(&mut self, line: &[u8]) -> Result<(), NotTaken>
        requires { is_event_line line.now ≡ true }
        ensures { TakesText self.old self.new line.now result }
    {
        match parse_line(self.alloc, line) {
            Ok(event) => self.take_event(event),
            Err(ParseError::Fault(fault)) => Err(NotTaken::Refused(Refusal::Fault(fault))),
            Err(ParseError::NoMemory) => Err(NotTaken::NoMemory),
        }
    }

    // Takes any other line, which must be a heading.
    fn take_section_line(&mut self, line: &[u8]) -> Result<(), NotTaken>
        requires { is_event_line line.now ≡ false }
        ensures { TakesText self.old self.new line.now result }
    {
        match heading_of(line) {
            None => Err(NotTaken::Refused(Refusal::Section)),
            Some(heading) => self.take_heading(heading),
        }
    }

    /// Takes a line, or says why it is refused.
    pub fn take_line(&mut self, line: &[u8]) -> Result<(), NotTaken>
        ensures { TakesText self.old self.new line.now result }
    {
        if is_event_line(line) {
            self.take_event_line(line)
        } else {
            self.take_section_line(line)
        }
    }

    /// The file, if it may end in front of the line with this number.
    pub fn finish(self, number: u64) -> Result<StreamFile, StreamError>
        ensures file { IfOk result (λ file. (lines : List FileLine) → IsIntakeOf self lines → CanEnd lines file) }
        ensures error { IfErr result (EndsNot self number) }
    {
        let section = self.state.sections.section;
        match self.state.finish() {
            Err(refusal) => Err(error_at(number, refusal)),
            Ok(()) => Ok(self.draft.into_file(section)?),
        }
    }
}
