// The session.
ghost use Rattle.std.specs.Prelude.{◌≡◌, ◌+◌, ◌<◌, ◌^◌, true, false, length, None, IfErr, IfOk, IsSomeAnd, OnErr, OnOk};
ghost use Rattle.std.specs.Option.{option_map};
ghost use Rattle.command_tables.specs.Tests.{same_command};
ghost use Rattle.command_tables.specs.declared.types.CommandId.TheVariants as CommandId;
ghost use Rattle.trace_format.specs.Content.{Begin, content};
ghost use Rattle.chain_build.specs.Setup.{setup_content};
ghost use Rattle.report_text.specs.Setups.{trace_setup};
ghost use Rattle.dispatch_chain.specs.Seats.{kinds_of};
ghost use Rattle.replay_model.specs.Stop.{exceeds_layers};
ghost use Rattle.session_model.specs.Session.{nothing_kept};
ghost use Rattle.session_parts.specs.Opening.{begin_content};
ghost use Rattle.chain_session.specs.Creation.{IsFault};
ghost use Rattle.chain_session.specs.Shown.{Shows};
ghost use Rattle.chain_session.specs.Splitting.{AreSplit, kinds_in_force};
ghost use Rattle.chain_session.specs.Standing.{Advances, BeginsCall, CanCome, CanReturn, Counts, CutAt, CutBefore, Holds, IsFaultAt, ReturnsAs, calls_before};

use crate::error::SessionError;
use crate::no_chain::NoChain;
use crate::started::Started;
use chain_build::Setup;
use command_tables::NoMemory;
use dispatch_chain::{DispatchTable, Kit};
use model_driver::Driver;
use report_text::Tally;
use session_parts::{Beginning, SessionParts};
use std::alloc::Global;
use trace_format::Event;

/// What is kept of the events of a trace so far. Nothing is kept before the first begin, which brings the setup and the kit.
pub struct Session {
    alloc: Global,
    no_chain: NoChain,
    // Behind a box: whoever passes a session on moves a pointer.
    pub(crate) started: Option<Box<Started>>,
}

impl Drop for Session {
    fn drop(self) {
        let Session {
            alloc: _alloc,
            no_chain: _no_chain,
            started: _started,
        } = self;
    }
}

impl Session {
    /// A session for a trace of which nothing was replayed yet, and whose chains call the functions of this kit. Takes no memory.
    pub fn new(alloc: Global, kit: &Kit) -> Session
        ensures { option_map (λ x. x.value.kept) result.started ≡ None }
    {
        Session {
            alloc,
            no_chain: NoChain::new(alloc, kit),
            started: None,
        }
    }

    /// The rows of the chain in force, or such that no part intercepts a command, where there is no chain. Takes no memory.
    pub fn table(&self) -> &DispatchTable
        ensures { result.now.rows ≡ kinds_in_force (option_map (λ x. x.value.kept) self.now.started) }
    {
        match &self.started {
            None => self.no_chain.table(),
            Some(started) => started.table(),
        }
    }

    /// Parts of their own that keep what the session keeps beside its counts and its open calls, at the moment of this call. They go on by
    /// themselves over the same rows. Of room nothing is said. Before the first begin no driver is known to them.
    pub fn split(&self) -> Result<SessionParts, NoMemory>
        ensures parts { IfOk result (λ parts. AreSplit (option_map (λ x. x.value.kept) self.now.started) parts) }
        ensures kinds { IfOk result (λ parts. kinds_of parts.states.kept ≡ kinds_in_force (option_map (λ x. x.value.kept) self.now.started)) }
    {
        match &self.started {
            None => Ok(SessionParts::new(self.alloc, 0)),
            Some(started) => started.kept.parts.copy(),
        }
    }

    // Nothing is kept yet, under this setup.
    fn start(&mut self, setup: &Setup, kit: &Kit) -> Result<(), NoMemory>
        requires few { length (setup_content setup.now).drivers.list < 2 ^ 32 }
        ensures { OnOk result (IsSomeAnd self.new.started (λ x. Shows (trace_setup (setup_content setup.now)) x.value.kept nothing_kept)) }
    {
        let started = Started::new(self.alloc, setup, kit);
        self.started = Some(Box::new(self.alloc, started)?);
        Ok(())
    }

    // The first begin of a trace.
    fn begin_first<D: Driver>(
        &mut self,
        number: u64,
        begin: Beginning,
        setup: &Setup,
        kit: &Kit,
        driver: &mut D,
        lines: &mut Vec<u8>,
    ) -> Result<(), SessionError>
        requires first { option_map (λ x. x.value.kept) self.old.started ≡ None }
        requires can { CanCome (trace_setup (setup_content setup.now)) (option_map (λ x. x.value.kept) self.old.started) (Begin (begin_content begin)) }
        requires number { number ≡ calls_before (option_map (λ x. x.value.kept) self.old.started) + 1 }
        requires few { length (setup_content setup.now).drivers.list < 2 ^ 32 }
        ensures ok { OnOk result (Advances (trace_setup (setup_content setup.now)) (option_map (λ x. x.value.kept) self.old.started) (option_map (λ x. x.value.kept) self.new.started) (Begin (begin_content begin.entry)) (D.log driver.old) (D.log driver.new) lines.old.items lines.new.items) }
        ensures err { OnErr result (CutBefore (trace_setup (setup_content setup.now)) (option_map (λ x. x.value.kept) self.old.started) (begin_content begin.entry) (D.log driver.old) (D.log driver.new)) }
        ensures fault { IfErr result (IsFault (same_command begin.entry.cmd CommandId.CreateInstance) ((trace_setup (setup_content setup.now)).outcome begin.entry.payload.now)) }
        ensures within { OnOk result (exceeds_layers (trace_setup (setup_content setup.now)) (Begin (begin_content begin.entry)) ≡ false) }
        ensures untold { OnErr result (exceeds_layers (trace_setup (setup_content setup.now)) (Begin (begin_content begin.entry)) ≡ true → D.log driver.new ≡ D.log driver.old) }
        ensures policy { D.answers_by driver.new ≡ D.answers_by driver.old }
    {
        self.start(setup, kit)?;
        match &mut self.started {
            None => Err(SessionError::NoMemory),
            Some(started) => match started.begin(number, begin, setup, driver, lines) {
                Err(error) => Err(error),
                Ok(()) => Ok(()),
            },
        }
    }

    // A begin, by what it says.
    fn begin_with<D: Driver>(
        &mut self,
        number: u64,
        begin: Beginning,
        setup: &Setup,
        kit: &Kit,
        driver: &mut D,
        lines: &mut Vec<u8>,
    ) -> Result<(), SessionError>
        requires can { CanCome (trace_setup (setup_content setup.now)) (option_map (λ x. x.value.kept) self.old.started) (Begin (begin_content begin)) }
        requires number { number ≡ calls_before (option_map (λ x. x.value.kept) self.old.started) + 1 }
        requires few { length (setup_content setup.now).drivers.list < 2 ^ 32 }
        ensures ok { OnOk result (Advances (trace_setup (setup_content setup.now)) (option_map (λ x. x.value.kept) self.old.started) (option_map (λ x. x.value.kept) self.new.started) (Begin (begin_content begin.entry)) (D.log driver.old) (D.log driver.new) lines.old.items lines.new.items) }
        ensures err { OnErr result (CutBefore (trace_setup (setup_content setup.now)) (option_map (λ x. x.value.kept) self.old.started) (begin_content begin.entry) (D.log driver.old) (D.log driver.new)) }
        ensures fault { IfErr result (IsFault (same_command begin.entry.cmd CommandId.CreateInstance) ((trace_setup (setup_content setup.now)).outcome begin.entry.payload.now)) }
        ensures within { OnOk result (exceeds_layers (trace_setup (setup_content setup.now)) (Begin (begin_content begin.entry)) ≡ false) }
        ensures untold { OnErr result (exceeds_layers (trace_setup (setup_content setup.now)) (Begin (begin_content begin.entry)) ≡ true → D.log driver.new ≡ D.log driver.old) }
        ensures policy { D.answers_by driver.new ≡ D.answers_by driver.old }
    {
        match &mut self.started {
            None => self.begin_first(number, begin, setup, kit, driver, lines),
            Some(started) => match started.begin(number, begin, setup, driver, lines) {
                Err(error) => Err(error),
                Ok(()) => Ok(()),
            },
        }
    }

    /// The begin of a call: the lines of its chain and of what is found at it are added, and its drivers are told the call where it isn't
    /// skipped. `Chain` comes where the chain of a vkCreateInstance would have more than 64 layers. After an error the session is for
    /// dropping alone, the first so many of the drivers were told, and anything may stand behind the lines.
    pub fn begin<D: Driver>(
        &mut self,
        number: u64,
        event: &Event,
        setup: &Setup,
        kit: &Kit,
        driver: &mut D,
        lines: &mut Vec<u8>,
    ) -> Result<(), SessionError>
        requires begins { BeginsCall (content event.now) }
        requires can { CanCome (trace_setup (setup_content setup.now)) (option_map (λ x. x.value.kept) self.old.started) (content event.now) }
        requires number { number ≡ calls_before (option_map (λ x. x.value.kept) self.old.started) + 1 }
        requires few { length (setup_content setup.now).drivers.list < 2 ^ 32 }
        ensures ok { OnOk result (Advances (trace_setup (setup_content setup.now)) (option_map (λ x. x.value.kept) self.old.started) (option_map (λ x. x.value.kept) self.new.started) (content event.now) (D.log driver.old) (D.log driver.new) lines.old.items lines.new.items) }
        ensures err { OnErr result (CutAt (trace_setup (setup_content setup.now)) (option_map (λ x. x.value.kept) self.old.started) (content event.now) (D.log driver.old) (D.log driver.new)) }
        ensures fault { IfErr result (IsFaultAt (trace_setup (setup_content setup.now)) (content event.now)) }
        ensures within { OnOk result (exceeds_layers (trace_setup (setup_content setup.now)) (content event.now) ≡ false) }
        ensures untold { OnErr result (exceeds_layers (trace_setup (setup_content setup.now)) (content event.now) ≡ true → D.log driver.new ≡ D.log driver.old) }
        ensures policy { D.answers_by driver.new ≡ D.answers_by driver.old }
    {
        match event {
            Event::Return { .. } => Ok(()),
            Event::Begin {
                thread,
                cmd,
                args,
                results,
                code,
                payload,
            } => {
                let begin = Beginning {
                    thread: *thread,
                    cmd: *cmd,
                    args,
                    results,
                    code: *code,
                    payload,
                };
                self.begin_with(number, begin, setup, kit, driver, lines)
            }
        }
    }

    /// The return of a thread's open call: its line is added. After `NoMemory` the session is for dropping alone, and anything may stand
    /// behind the lines.
    pub fn finish(&mut self, thread: u32, lines: &mut Vec<u8>) -> Result<(), NoMemory>
        requires { CanReturn (option_map (λ x. x.value.kept) self.old.started) thread }
        ensures { OnOk result (ReturnsAs (option_map (λ x. x.value.kept) self.old.started) (option_map (λ x. x.value.kept) self.new.started) thread lines.old.items lines.new.items) }
    {
        match &mut self.started {
            None => Ok(()),
            Some(started) => match started.finish(thread, lines) {
                Err(error) => Err(error),
                Ok(()) => Ok(()),
            },
        }
    }

    /// How many names came to stand for objects, how many objects live and how many calls are open, in one sum. Takes no memory.
    pub fn held(&self) -> usize
        ensures { Holds (option_map (λ x. x.value.kept) self.now.started) result }
    {
        match &self.started {
            None => 0,
            Some(started) => started.kept.held(),
        }
    }

    /// How many calls there were, how many of them were skipped, and how many reports. Takes no memory.
    pub fn tally(&self) -> Tally
        ensures { Counts (option_map (λ x. x.value.kept) self.now.started) result.calls result.skipped result.reports }
    {
        match &self.started {
            None => Tally {
                calls: 0,
                skipped: 0,
                reports: 0,
            },
            Some(started) => Tally {
                calls: started.kept.calls,
                skipped: started.kept.skipped,
                reports: started.kept.reports,
            },
        }
    }
}
