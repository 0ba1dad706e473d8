//! A stream file while it is read.
use crate::stream_file::StreamFile;
use std::alloc::{AllocError, Global};
use std::mem::replace;
use stream_model::Heading;
use trace_format::Event;

/// A file so far: the sections before the last heading, and the events behind it.
#[derive(Drop)]
pub struct Draft {
    alloc: Global,
    pub file: StreamFile,
    pub events: Vec<Event>,
}

impl Draft {
    ghost use Rattle.std.specs.Prelude.{◌≡◌, ◌∷◌, [], List, IfOk, OnOk};
    ghost use Rattle.trace_format.specs.Content.{content};
    ghost use Rattle.stream_model.specs.FileLines.{FileLine, EventLine, HeadingLine};
    ghost use Rattle.stream_model.specs.FileParts.{parts};
    ghost use Rattle.stream_model.specs.Order as order;
    ghost use Rattle.stream_model.specs.declared.heading.Heading.{Heading};
    ghost use Rattle.threaded_replay.specs.Files.{IsDraftOf, file_parts};

    /// Nothing was read behind the header.
    pub fn new(alloc: Global) -> Draft
        ensures { IsDraftOf result [] }
    {
        Draft {
            alloc,
            file: StreamFile {
                setup: Vec::new(alloc),
                streams: Vec::new(alloc),
                teardown: Vec::new(alloc),
            },
            events: Vec::new(alloc),
        }
    }

    /// Adds an event to the section.
    pub fn push(&mut self, event: Event) -> Result<(), AllocError>
        ensures { OnOk result ((lines : List FileLine) → IsDraftOf self.old lines → IsDraftOf self.new (EventLine (content event) ∷ lines)) }
    {
        self.events.push(event)?;
        Ok(())
    }

    // Puts the events behind the last heading into their section.
    fn put_section(&mut self, section: Option<Heading>) -> Result<(), AllocError>
        ensures file { OnOk result ((lines : List FileLine) → IsDraftOf self.old lines → section ≡ order.section lines → file_parts self.new.file ≡ parts lines) }
        ensures none { self.new.events.items ≡ [] }
    {
        let events = replace(&mut self.events, Vec::new(self.alloc));
        match section {
            None => Ok(()),
            Some(Heading::Setup) => {
                self.file.setup = events;
                Ok(())
            }
            Some(Heading::Stream(thread)) => {
                self.file.streams.push((thread, events))?;
                Ok(())
            }
            Some(Heading::Teardown) => {
                self.file.teardown = events;
                Ok(())
            }
        }
    }

    /// Ends a section: what comes next is behind another heading.
    pub fn end_section(&mut self, section: Option<Heading>) -> Result<(), AllocError>
        ensures { OnOk result ((lines : List FileLine) (heading : Heading) → IsDraftOf self.old lines → section ≡ order.section lines → IsDraftOf self.new (HeadingLine heading ∷ lines)) }
    {
        self.put_section(section)
    }

    /// The whole file, whose last section this is.
    pub fn into_file(self, section: Option<Heading>) -> Result<StreamFile, AllocError>
        ensures { IfOk result (λ file. (lines : List FileLine) → IsDraftOf self lines → section ≡ order.section lines → file_parts file ≡ parts lines) }
    {
        let mut draft = self;
        draft.put_section(section)?;
        Ok(draft.file)
    }
}
