// A session to which a setup and a kit were given.
ghost use Rattle.std.specs.Prelude.{◌≡◌, ◌+◌, ◌<◌, ◌^◌, [], true, false, length, IfErr, OnErr, OnOk};
ghost use Rattle.command_tables.specs.Tests.{same_command};
ghost use Rattle.command_tables.specs.declared.types.CommandId.TheVariants as CommandId;
ghost use Rattle.chain_build.specs.Setup.{setup_content};
ghost use Rattle.report_text.specs.Setups.{trace_setup};
ghost use Rattle.dispatch_chain.specs.Seats.{kinds_of};
ghost use Rattle.replay_model.specs.Setup.{Setup as TraceSetup};
ghost use Rattle.session_model.specs.Session.{nothing_kept};
ghost use Rattle.chain_session.specs.Beginning.{BeginsAs, CanBegin, CutShort};
ghost use Rattle.trace_format.specs.Content.{Begin};
ghost use Rattle.replay_model.specs.Stop.{exceeds_layers};
ghost use Rattle.session_parts.specs.Opening.{begin_content};
ghost use Rattle.chain_session.specs.Creation.{IsFault};
ghost use Rattle.chain_session.specs.Finishing.{CanFinish, Finishes};
ghost use Rattle.chain_session.specs.Shown.{Shows};

use crate::beginning::begin_call;
use crate::error::SessionError;
use crate::finishing::finish_call;
use crate::kept::Kept;
use crate::no_chain::no_parts;
use crate::open_calls::OpenCalls;
use crate::room::Room;
use chain_build::Setup;
use command_tables::NoMemory;
use dispatch_chain::{DispatchTable, Kit};
use model_driver::Driver;
use session_parts::{Beginning, SessionParts};
use std::alloc::Global;

/// What is kept, and the stored rows of the chain in force, which may have no parts.
pub struct Started {
    pub(crate) kept: Kept,
    table: DispatchTable,
    room: Room,
    ghost agrees: { table.rows ≡ kinds_of kept.parts.states.kept },
}

impl Drop for Started {
    fn drop(self) {
        let Started {
            kept: _kept,
            table: _table,
            room: _room,
        } = self;
    }
}

// Nothing is kept yet, above so many drivers.
fn nothing(alloc: Global, drivers: u32) -> Kept
    ensures shows { (s : TraceSetup) → drivers ≡ s.drivers → Shows s result nothing_kept }
    ensures states { result.parts.states.kept ≡ [] }
{
    Kept {
        calls: 0,
        skipped: 0,
        reports: 0,
        parts: SessionParts::new(alloc, drivers),
        open_calls: OpenCalls::new(alloc),
    }
}

impl Started {
    /// Nothing is kept yet, and no chain is in force. Takes no memory.
    pub(crate) fn new(alloc: Global, setup: &Setup, kit: &Kit) -> Started
        requires few { length (setup_content setup.now).drivers.list < 2 ^ 32 }
        ensures { Shows (trace_setup (setup_content setup.now)) result.kept nothing_kept }
    {
        Started {
            kept: nothing(alloc, setup.drivers.list.len() as u32),
            table: no_parts(alloc, kit),
            room: Room::new(alloc),
        }
    }

    /// The rows of the chain in force.
    pub(crate) fn table(&self) -> &DispatchTable
        ensures { result.now.rows ≡ kinds_of self.now.kept.parts.states.kept }
    {
        &self.table
    }

    /// The begin of a call.
    pub(crate) fn begin<D: Driver>(
        &mut self,
        number: u64,
        begin: Beginning,
        setup: &Setup,
        driver: &mut D,
        lines: &mut Vec<u8>,
    ) -> Result<(), SessionError>
        requires can { CanBegin (trace_setup (setup_content setup.now)) self.old.kept (begin_content begin) }
        requires number { number ≡ self.old.kept.calls + 1 }
        requires few { length (setup_content setup.now).drivers.list < 2 ^ 32 }
        ensures ok { OnOk result (BeginsAs (trace_setup (setup_content setup.now)) self.old.kept (begin_content begin.entry) self.new.kept (D.log driver.old) (D.log driver.new) lines.old.items lines.new.items) }
        ensures err { OnErr result (CutShort (trace_setup (setup_content setup.now)) self.old.kept (begin_content begin.entry) (D.log driver.old) (D.log driver.new)) }
        ensures fault { IfErr result (IsFault (same_command begin.entry.cmd CommandId.CreateInstance) ((trace_setup (setup_content setup.now)).outcome begin.entry.payload.now)) }
        ensures within { OnOk result (exceeds_layers (trace_setup (setup_content setup.now)) (Begin (begin_content begin.entry)) ≡ false) }
        ensures untold { OnErr result (exceeds_layers (trace_setup (setup_content setup.now)) (Begin (begin_content begin.entry)) ≡ true → D.log driver.new ≡ D.log driver.old) }
        ensures policy { D.answers_by driver.new ≡ D.answers_by driver.old }
    {
        begin_call(
            &self.table,
            &mut self.kept,
            &mut self.room,
            number,
            begin,
            setup,
            driver,
            lines,
        )
    }

    /// The return of a thread's open call.
    pub(crate) fn finish(&mut self, thread: u32, lines: &mut Vec<u8>) -> Result<(), NoMemory>
        requires { CanFinish self.old.kept thread }
        ensures { OnOk result (Finishes self.old.kept self.new.kept thread lines.old.items lines.new.items) }
    {
        let drivers = self.kept.parts.terminator.drivers();
        finish_call(
            &mut self.table,
            &mut self.kept,
            &mut self.room,
            drivers,
            thread,
            lines,
        )
    }
}
