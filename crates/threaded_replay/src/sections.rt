//! What is kept of a file's lines beside the state of its trace: the section, the streams, where names come from, and how much there is.
ghost use Rattle.std.specs.Prelude.{◌≤◌, length};
ghost use Rattle.stream_model.specs.declared.limits.TheConstants.{MOST_DEVICES as DEVICES, MOST_EVENTS as EVENTS, MOST_NAMES as NAMES};
ghost use Rattle.trace_format.specs.declared.limits.TheConstants.{MAX_PLACES as PLACES};

use crate::device_list::{add_device, count_with};
use crate::devices::{makes_devices, owner_written};
use crate::error::NotTaken;
use crate::order::{heading_thread, is_in_order, takes_thread};
use crate::origins::Origins;
use crate::stream_rules::{call_refusal, device_named};
use command_tables::{CommandId, row};
use std::alloc::{AllocError, Global};
use stream_model::{Heading, MOST_DEVICES, MOST_EVENTS, MOST_NAMES, Refusal};
use trace_format::{Event, Name, TraceArg};

/// What is kept of the lines so far. After want of memory it is for dropping alone.
#[derive(Drop)]
pub struct Sections {
    pub section: Option<Heading>,
    pub threads: Vec<u32>,
    pub origins: Origins,
    pub devices: Vec<Name>,
    pub names: usize,
    pub events: usize,
    ghost few_devices: { length devices.items ≤ DEVICES },
    ghost few_names: { names ≤ NAMES },
    ghost few_events: { events ≤ EVENTS },
}

impl Sections {
    ghost use Rattle.std.specs.Prelude.{◌≡◌, ◌≤◌, ◌<◌, ◌+◌, ◌∷◌, ◌^◌, [], None, Some, List, map, length, option_and_then, OnOk};
    ghost use Rattle.command_tables.specs.Table.{row_of};
    ghost use Rattle.trace_format.specs.Content.{Begin, Return, arg_content, content};
    ghost use Rattle.trace_format.specs.Grammar.{IsEvent};
    ghost use Rattle.stream_model.specs.Devices.{owner_written};
    ghost use Rattle.stream_model.specs.FileLines.{FileLine, HeadingLine};
    ghost use Rattle.stream_model.specs.Order.{call_refusal, device_named, heading_thread, is_in_order, limit_passed, takes_thread, with_device};
    ghost use Rattle.threaded_replay.specs.Kept.{KeptOf};
    ghost use Rattle.threaded_replay.specs.Origins.{device_in, stream_in};
    ghost use Rattle.threaded_replay.specs.Taking.{SectionsTake};
    ghost use Rattle.threaded_replay.specs.Calls.{KeepsCall, call_of};

    /// Nothing was read behind the header.
    pub fn new(alloc: Global) -> Sections
        ensures { KeptOf result [] }
    {
        Sections {
            section: None,
            threads: Vec::new(alloc),
            origins: Origins::new(alloc),
            devices: Vec::new(alloc),
            names: 0,
            events: 0,
        }
    }

    /// Whether a heading is in its order.
    pub fn has_in_order(&self, heading: Heading) -> bool
        ensures { result ≡ is_in_order self.now.section self.now.threads.items heading }
    {
        is_in_order(self.section, &self.threads, heading)
    }

    /// Whether an event of a thread may stand in the section.
    pub fn has_thread(&self, thread: u32) -> bool
        ensures { result ≡ takes_thread self.now.section thread }
    {
        takes_thread(self.section, thread)
    }

    /// Begins a section.
    pub fn begin_section(&mut self, heading: Heading) -> Result<(), AllocError>
        ensures { OnOk result ((lines : List FileLine) → KeptOf self.old lines → KeptOf self.new (HeadingLine heading ∷ lines)) }
    {
        if let Some(thread) = heading_thread(heading) {
            self.threads.push(thread)?;
        }
        self.section = Some(heading);
        Ok(())
    }

    // The thread of the stream, where the section is one.
    fn stream(&self) -> Option<u32>
        ensures { result ≡ option_and_then heading_thread self.now.section }
    {
        heading_thread(self.section?)
    }

    // Why a call may not stand in the stream, where the section is one.
    fn call_refusal(&self, cmd: CommandId, args: &[TraceArg]) -> Option<Refusal>
        ensures { result ≡ option_and_then (call_refusal (device_in self.now.origins.rows.items) (stream_in self.now.origins.rows.items) cmd (map arg_content args.now)) (option_and_then heading_thread self.now.section) }
    {
        call_refusal(&self.origins, self.stream()?, cmd, args)
    }

    // The device that a call names, where the section is a stream.
    fn device_named(&self, cmd: CommandId, args: &[TraceArg]) -> Option<Name>
        ensures { result ≡ option_and_then (λ t. device_named (device_in self.now.origins.rows.items) cmd (map arg_content args.now)) (option_and_then heading_thread self.now.section) }
    {
        let _stream = self.stream()?;
        device_named(&self.origins, cmd, args)
    }

    // The written device of the owner of what a call makes or gives.
    fn owner_device(&self, cmd: CommandId, args: &[TraceArg]) -> Option<Name>
        ensures { result ≡ option_and_then (device_in self.now.origins.rows.items) (owner_written (map arg_content args.now) (row_of cmd).effect) }
    {
        self.origins.device(owner_written(args, row(cmd).effect)?)
    }

    // Which limit a call with so many results, on this device, would pass.
    fn limit_passed(&self, results: usize, device: Option<Name>) -> Option<Refusal>
        requires { results ≤ PLACES }
        ensures { result ≡ limit_passed (self.now.names + results) (self.now.events + 1) (length (with_device device self.now.devices.items)) }
    {
        if self.names + results > MOST_NAMES {
            Some(Refusal::Names)
        } else if self.events + 1 > MOST_EVENTS {
            Some(Refusal::Events)
        } else if count_with(&self.devices, device) > MOST_DEVICES {
            Some(Refusal::Devices)
        } else {
            None
        }
    }

    // Keeps a call that isn't refused.
    fn keep_call(
        &mut self,
        cmd: CommandId,
        args: &[TraceArg],
        results: &[Name],
        device: Option<Name>,
    ) -> Result<(), AllocError>
        requires names { self.old.names + length results.now ≤ NAMES }
        requires events { self.old.events + 1 ≤ EVENTS }
        requires devices { length (with_device device self.old.devices.items) ≤ DEVICES }
        ensures { OnOk result (KeepsCall self.old self.new (call_of cmd (map arg_content args.now) results.now) device) }
    {
        let owner = self.owner_device(cmd, args);
        let stream = self.stream();
        self.origins
            .put_results(results, makes_devices(cmd), owner, stream)?;
        add_device(&mut self.devices, device)?;
        self.names += results.len();
        self.events += 1;
        Ok(())
    }

    // Takes the begin of a call.
    fn take_begin(
        &mut self,
        cmd: CommandId,
        args: &[TraceArg],
        results: &[Name],
    ) -> Result<(), NotTaken>
        requires { length results.now ≤ PLACES }
        ensures { SectionsTake self.old self.new (Begin (call_of cmd (map arg_content args.now) results.now)) result }
    {
        if let Some(refusal) = self.call_refusal(cmd, args) {
            return Err(NotTaken::Refused(refusal));
        }
        let device = self.device_named(cmd, args);
        if let Some(refusal) = self.limit_passed(results.len(), device) {
            return Err(NotTaken::Refused(refusal));
        }
        self.keep_call(cmd, args, results, device)?;
        Ok(())
    }

    // Takes a return. It takes no memory.
    fn take_return(&mut self, thread: u32) -> Result<(), NotTaken>
        ensures { SectionsTake self.old self.new (Return thread) result }
    {
        if self.events >= MOST_EVENTS {
            return Err(NotTaken::Refused(Refusal::Events));
        }
        self.events += 1;
        Ok(())
    }

    /// Takes an event of the section that has no fault, or says why it may not stand in its stream, or which limit it would pass.
    pub fn take_event(&mut self, event: &Event) -> Result<(), NotTaken>
        requires { IsEvent (content event.now) }
        ensures { SectionsTake self.old self.new (content event.now) result }
    {
        match event {
            Event::Return { thread } => self.take_return(*thread),
            Event::Begin {
                cmd,
                args,
                results,
                ..
            } => self.take_begin(*cmd, args, results),
        }
    }
}
