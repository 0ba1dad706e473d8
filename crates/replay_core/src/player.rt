// A replay's session with the state of its trace, line by line.
ghost use Rattle.std.specs.Prelude.{◌≡◌, ◌<◌, ◌^◌, ℕ, [], true, false, length, OnOk, OnErr, IfErr};
ghost use Rattle.std.specs.Option.{option_map};
ghost use Rattle.replay_base.specs.Changes.{changed};
ghost use Rattle.trace_format.specs.Content.{content};
ghost use Rattle.trace_format.specs.State.{SumsUp};
ghost use Rattle.replay_model.specs.Stop.{exceeds_layers};
ghost use Rattle.chain_build.specs.Setup.{setup_content};
ghost use Rattle.report_text.specs.Setups.{trace_setup};
ghost use Rattle.chain_session.specs.Standing.{Advances};
ghost use Rattle.replay_core.specs.Beginning.{CanTake, IsLong, MayTell};
ghost use Rattle.replay_core.specs.Plays.{InStep, PlaysLine, Steps};
ghost use Rattle.replay_core.specs.Traffic.{traffic_of};

use crate::error::ReplayError;
use chain_build::Setup;
use chain_session::{Session, SessionError};
use dispatch_chain::Kit;
use model_driver::Driver;
use replay_base::{Sink, Which, put_all};
use std::alloc::Global;
use trace_format::{AcceptError, Event, EventRoom, ParseError, TraceState};

/// A session and the state of its trace, which stand for the same events, and room for events and lines.
#[derive(Drop)]
pub struct Player {
    pub session: Session,
    pub state: TraceState,
    events: EventRoom,
    lines: Vec<u8>,
}

impl Player {
    /// A player of a session for which nothing was replayed yet.
    pub fn new(alloc: Global, session: Session) -> Player
        ensures session { option_map (λ x. x.value.kept) result.session.started ≡ option_map (λ x. x.value.kept) session.started }
        ensures state { SumsUp result.state [] }
    {
        Player {
            session,
            state: TraceState::new(alloc),
            events: EventRoom::new(alloc),
            lines: Vec::new(alloc),
        }
    }

    // The session takes the event, and its lines stand in `lines` alone.
    fn take<D: Driver>(
        &mut self,
        call: u64,
        event: &Event,
        setup: &Setup,
        kit: &Kit,
        driver: &mut D,
    ) -> Result<(), SessionError>
        requires can { CanTake (trace_setup (setup_content setup.now)) (option_map (λ x. x.value.kept) self.old.session.started) (content event.now) call }
        requires few { length (setup_content setup.now).drivers.list < 2 ^ 32 }
        ensures ok { OnOk result (Advances (trace_setup (setup_content setup.now)) (option_map (λ x. x.value.kept) self.old.session.started) (option_map (λ x. x.value.kept) self.new.session.started) (content event.now) (D.log driver.old) (D.log driver.new) [] self.new.lines.items) }
        ensures within { OnOk result (exceeds_layers (trace_setup (setup_content setup.now)) (content event.now) ≡ false) }
        ensures err { OnErr result (MayTell (trace_setup (setup_content setup.now)) (option_map (λ x. x.value.kept) self.old.session.started) (content event.now) (D.log driver.old) (D.log driver.new)) }
        ensures fault { IfErr result (IsLong (trace_setup (setup_content setup.now)) (content event.now)) }
        ensures state { self.new.state ≡ self.old.state }
        ensures policy { D.answers_by driver.new ≡ D.answers_by driver.old }
    {
        self.lines.clear();
        match event {
            Event::Begin { .. } => {
                self.session
                    .begin(call, event, setup, kit, driver, &mut self.lines)
            }
            Event::Return { thread } => {
                self.session.finish(*thread, &mut self.lines)?;
                Ok(())
            }
        }
    }
    // The event's lines are written before the next is looked at.
    fn step<K: Sink, D: Driver>(
        &mut self,
        call: u64,
        event: &Event,
        setup: &Setup,
        kit: &Kit,
        driver: &mut D,
        out: &mut K,
    ) -> Result<(), ReplayError>
        requires can { CanTake (trace_setup (setup_content setup.now)) (option_map (λ x. x.value.kept) self.old.session.started) (content event.now) call }
        requires few { length (setup_content setup.now).drivers.list < 2 ^ 32 }
        ensures steps { let sink = changed (K.held out.old) (K.held out.new) (K.faults out.old) (K.faults out.new) in
            let traffic = traffic_of (D.log driver.old) (D.log driver.new) sink in
            let old = option_map (λ x. x.value.kept) self.old.session.started in
            let new = option_map (λ x. x.value.kept) self.new.session.started in
            Steps (record { setup = trace_setup (setup_content setup.now); old = old; new = new; event = content event.now; traffic = traffic }) result }
        ensures policy { D.answers_by driver.new ≡ D.answers_by driver.old }
        ensures state { self.new.state ≡ self.old.state }
    {
        match self.take(call, event, setup, kit, driver) {
            Err(SessionError::Chain { .. }) => Err(ReplayError::Limit {
                which: Which::Chain,
            }),
            Err(SessionError::NoMemory) => Err(ReplayError::NoMemory),
            Ok(()) => match put_all(out, &self.lines) {
                Ok(()) => Ok(()),
                Err(_) => Err(ReplayError::Write),
            },
        }
    }

    /// Replays the line with this number, from 1: reads its event, which must be in its place, tells the drivers, and writes the
    /// event's lines.
    pub fn play_line<K: Sink, D: Driver>(
        &mut self,
        text: &[u8],
        number: u64,
        setup: &Setup,
        kit: &Kit,
        driver: &mut D,
        out: &mut K,
    ) -> Result<(), ReplayError>
        requires together { InStep (trace_setup (setup_content setup.now)) self.old.state (option_map (λ x. x.value.kept) self.old.session.started) number }
        requires few { length (setup_content setup.now).drivers.list < 2 ^ 32 }
        ensures plays { let sink = changed (K.held out.old) (K.held out.new) (K.faults out.old) (K.faults out.new) in
            let traffic = traffic_of (D.log driver.old) (D.log driver.new) sink in
            let old = option_map (λ x. x.value.kept) self.old.session.started in
            let new = option_map (λ x. x.value.kept) self.new.session.started in
            PlaysLine (record { setup = trace_setup (setup_content setup.now); text = text.now; number = number; old_state = self.old.state; state = self.new.state; old = old; new = new; traffic = traffic }) result }
        ensures policy { D.answers_by driver.new ≡ D.answers_by driver.old }
    {
        let event = match self.events.parse(text) {
            Ok(event) => event,
            Err(ParseError::NoMemory) => return Err(ReplayError::NoMemory),
            Err(ParseError::Fault(fault)) => {
                return Err(ReplayError::Trace {
                    line: number,
                    fault,
                });
            }
        };
        match self.state.accept(&event) {
            Ok(call) => {
                let stepped = self.step(call, &event, setup, kit, driver, out);
                self.events.give_back(event);
                stepped
            }
            Err(AcceptError::NoMemory) => Err(ReplayError::NoMemory),
            Err(AcceptError::Names) => Err(ReplayError::Limit {
                which: Which::Names,
            }),
            Err(AcceptError::Fault(fault)) => Err(ReplayError::Trace {
                line: number,
                fault,
            }),
        }
    }

    pub fn into_session(self) -> Session
        ensures { option_map (λ x. x.value.kept) result.started ≡ option_map (λ x. x.value.kept) self.session.started }
    {
        self.session
    }
}
