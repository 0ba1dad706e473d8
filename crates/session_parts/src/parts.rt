// What a begin and a return change of a session, beside its open calls and counts.
ghost use Rattle.std.specs.Prelude.{◌≡◌, ◌≤◌, [], false, map, vec_capacity, IfOk, IsOk, OnOk};
ghost use Rattle.command_tables.specs.Calls.{call_content};
ghost use Rattle.replay_model.specs.Past.{Opened, is_skipped};
ghost use Rattle.session_model.specs.Living.{ArePast};
ghost use Rattle.session_tables.specs.Lined.{AreLined};
ghost use Rattle.session_tables.specs.Shown.{args_shown};
ghost use Rattle.dispatch_chain.specs.Seats.{kinds_of};
ghost use Rattle.layer_model.specs.Ids.{no_ids};
ghost use Rattle.trace_format.specs.Content.{content};
ghost use Rattle.session_parts.specs.Entering.{CanEnter, CanEnterAt, Enters, EntersAt};
ghost use Rattle.model_driver.specs.Driver.{reply_shown};
ghost use Rattle.session_parts.specs.Judging.{ComesDown, FitsCall};
ghost use Rattle.session_parts.specs.Leaving.{CanLeave, CanLeaveAt, Leaves, LeavesAt};
ghost use Rattle.session_parts.specs.Names.{TakesRoom, no_names};
ghost use Rattle.session_parts.specs.Opening.{begin_content, opened_read};
ghost use Rattle.session_parts.specs.Room.{HasRoomToComeDown, HasRoomToEnter, HasRoomToEnterAt, HasRoomToLeave, HasRoomToLeaveAt, LosesNoRoom, TakesResultsAt, TakesResultsWith};
ghost use Rattle.session_parts.specs.Parts.{KeepAlike};

use crate::judging::look;
use crate::leaving::leave_sent;
use crate::name_table::NameTable;
use crate::names::put_first;
use crate::opening::Beginning;
use crate::raising::raise_lost;
use command_tables::{CommandId, LayerCall, NoMemory, row};
use dispatch_chain::{DispatchTable, Held, LayerStates, Terminator};
use lifetime_layer::Verdict;
use model_driver::DriverReply;
use object_model::Argument;
use std::alloc::Global;
use trace_format::Event;

/// What the parts of the chain keep, what its end keeps, and the names with their objects.
pub struct SessionParts {
    pub states: LayerStates,
    pub terminator: Terminator,
    pub names: NameTable,
}

impl Drop for SessionParts {
    fn drop(self) {
        let SessionParts {
            states: _states,
            terminator: _terminator,
            names: _names,
        } = self;
    }
}

// What a call ends, unless it is skipped.
#[tactic(auto, using(crate::proofs::Ended::ends_so, crate::proofs::Ended::stays_so))]
fn end_some(names: &mut NameTable, cmd: CommandId, args: &[Vec<Argument>], skipped: bool)
    requires { AreLined names.old.kept.births }
    ensures past { (o : Opened) → o.cmd ≡ cmd → o.args ≡ args_shown args.now → is_skipped o ≡ skipped → ArePast names.old.kept.births o names.new.kept.births }
    ensures rest { names.new.kept ≡ record names.old.kept { births = names.new.kept.births } }
    ensures room { TakesRoom 0 0 names.old.room names.new.room }
{
    if !skipped {
        let effect = row(cmd).effect;
        names.end_some(args, effect);
    }
}

impl SessionParts {
    /// There is no chain, and nothing is kept yet, above so many drivers. Takes no memory.
    pub fn new(alloc: Global, drivers: u32) -> SessionParts
        ensures states { result.states.kept ≡ [] }
        ensures ids { result.terminator.ids ≡ no_ids }
        ensures routes { result.terminator.routes ≡ [] }
        ensures drivers { result.terminator.drivers ≡ drivers }
        ensures names { result.names.kept ≡ no_names }
    {
        SessionParts {
            states: LayerStates::none(alloc),
            terminator: Terminator::new(alloc, drivers),
            names: NameTable::new(alloc),
        }
    }

    /// Parts of their own that keep the same. Of room nothing is said.
    pub fn copy(&self) -> Result<SessionParts, NoMemory>
        ensures alike { IfOk result (λ copy. KeepAlike copy self.now) }
        ensures kinds { IfOk result (λ copy. kinds_of copy.states.kept ≡ kinds_of self.now.states.kept) }
    {
        Ok(SessionParts {
            states: self.states.copy()?,
            terminator: self.terminator.copy()?,
            names: self.names.copy()?,
        })
    }

    /// A call whose chain isn't refused comes down, with what its arguments stand for: the loader or the parts find what they find, which skips it
    /// or not, and what it ends ends where it isn't skipped. `room` is any memory for the handles of one parameter. After `NoMemory` all is
    /// for dropping.
    pub fn come_down(
        &mut self,
        table: &DispatchTable,
        number: u64,
        begin: Beginning,
        args: &[Vec<Argument>],
        room: &mut Vec<u64>,
        form: &mut LayerCall,
        held: &mut Held,
        verdict: &mut Verdict,
    ) -> Result<(), NoMemory>
        requires table { table.now.rows ≡ kinds_of self.old.states.kept }
        requires fits { FitsCall (opened_read number (begin_content begin) (args_shown args.now)) }
        requires lined { AreLined self.old.names.kept.births }
        requires goes { verdict.old.skip ≡ false }
        requires empty { verdict.old.findings.items ≡ [] }
        requires unheld { held.old.forms ≡ [] }
        ensures down { OnOk result (ComesDown self.old (opened_read number (begin_content begin.entry) (args_shown args.now)) (call_content form.new) held.new verdict.new self.new) }
        ensures handles_room { vec_capacity room.old ≤ vec_capacity room.new }
        ensures room { OnOk result (LosesNoRoom self.old form.old held.old verdict.old self.new form.new held.new verdict.new) }
        ensures succeeds { HasRoomToComeDown self.old (opened_read number (begin_content begin.entry) (args_shown args.now)) (vec_capacity room.old) form.old held.old (vec_capacity verdict.old.findings) → IsOk result }
        ensures kinds { kinds_of self.new.states.kept ≡ kinds_of self.old.states.kept }
    {
        look(
            table,
            &mut self.states,
            self.names.objects(),
            self.names.handed(),
            number,
            begin,
            args,
            room,
            form,
            held,
            verdict,
        )?;
        end_some(&mut self.names, begin.cmd, args, verdict.skip);
        Ok(())
    }

    // The begin of a call enters, by what it says.
    fn enter_with(
        &mut self,
        table: &DispatchTable,
        number: u64,
        begin: Beginning,
        call: &mut LayerCall,
        held: &mut Held,
        verdict: &mut Verdict,
    ) -> Result<(), NoMemory>
        requires table { table.now.rows ≡ kinds_of self.old.states.kept }
        requires can { CanEnter self.old number (begin_content begin) }
        requires goes { verdict.old.skip ≡ false }
        requires empty { verdict.old.findings.items ≡ [] }
        requires unheld { held.old.forms ≡ [] }
        ensures ok { OnOk result (Enters self.old number (begin_content begin.entry) (call_content call.new) held.new verdict.new self.new) }
        ensures room { OnOk result (LosesNoRoom self.old call.old held.old verdict.old self.new call.new held.new verdict.new) }
        ensures succeeds { HasRoomToEnter self.old number (begin_content begin.entry) call.old held.old (vec_capacity verdict.old.findings) → IsOk result }
        ensures kinds { kinds_of self.new.states.kept ≡ kinds_of self.old.states.kept }
    {
        let mut scratch = self.names.take_scratch();
        put_first(self.names.named(), begin.args, &mut scratch.args)?;
        self.come_down(
            table,
            number,
            begin,
            &scratch.args[..begin.args.len()],
            &mut scratch.handles,
            call,
            held,
            verdict,
        )?;
        self.names.keep_scratch(scratch);
        Ok(())
    }

    /// The begin of a call enters, which isn't that of a `vkCreateInstance` whose chain is refused. In `verdict` stands what the loader or the
    /// parts of the chain in force, whose rows `table` has, find at it, and whether it is skipped for that. Where it isn't skipped, `call` is
    /// then the call below the last part, of which the terminator makes what the drivers are told. `held` holds it for its return. Takes no
    /// memory, and so doesn't answer `NoMemory`, where there is room for the call, and loses no room. After `NoMemory` all is for dropping.
    pub fn enter(
        &mut self,
        table: &DispatchTable,
        number: u64,
        event: &Event,
        call: &mut LayerCall,
        held: &mut Held,
        verdict: &mut Verdict,
    ) -> Result<(), NoMemory>
        requires table { table.now.rows ≡ kinds_of self.old.states.kept }
        requires can { CanEnterAt self.old number (content event.now) }
        ensures ok { OnOk result (EntersAt self.old number (content event.now) (call_content call.new) held.new verdict.new self.new) }
        ensures room { OnOk result (LosesNoRoom self.old call.old held.old verdict.old self.new call.new held.new verdict.new) }
        ensures succeeds { HasRoomToEnterAt self.old number (content event.now) call.old held.old (vec_capacity verdict.old.findings) → IsOk result }
        ensures kinds { kinds_of self.new.states.kept ≡ kinds_of self.old.states.kept }
    {
        match event {
            Event::Return { .. } => Ok(()),
            Event::Begin {
                thread,
                cmd,
                args,
                results,
                code,
                payload,
            } => {
                let begin = Beginning {
                    thread: *thread,
                    cmd: *cmd,
                    args,
                    results,
                    code: *code,
                    payload,
                };
                held.clear();
                verdict.findings.clear();
                verdict.skip = false;
                self.enter_with(table, number, begin, call, held, verdict)
            }
        }
    }

    // The call of a begin leaves, by what it says.
    #[tactic(auto, using(crate::proofs::Departing::can_guarded, crate::proofs::Departing::leaves_skipped))]
    fn leave_with(
        &mut self,
        table: &DispatchTable,
        begin: Beginning,
        call: &LayerCall,
        held: &Held,
        skipped: bool,
        replies: &[DriverReply],
        results: &mut Vec<u64>,
    ) -> Result<u32, NoMemory>
        requires table { table.now.rows ≡ kinds_of self.old.states.kept }
        requires can { CanLeave self.old (begin_content begin) (call_content call.now) held.now skipped (map reply_shown replies.now) }
        ensures ok { IfOk result (Leaves self.old (begin_content begin.entry) (call_content call.now) held.now skipped (map reply_shown replies.now) self.new) }
        ensures takes { OnOk result (TakesResultsWith self.old (begin_content begin.entry) (call_content call.now) skipped self.new) }
        ensures succeeds { HasRoomToLeave self.old (begin_content begin.entry) (call_content call.now) skipped (vec_capacity results.old) → IsOk result }
        ensures room { vec_capacity results.old ≤ vec_capacity results.new }
        ensures kinds { kinds_of self.new.states.kept ≡ kinds_of self.old.states.kept }
    {
        if skipped {
            raise_lost(
                table,
                &mut self.states,
                begin.thread,
                held,
                begin.results,
                results,
            )?;
            Ok(0)
        } else {
            let born = leave_sent(table, self, begin, call, held, replies, results)?;
            let count = u32::try_from(born).ok().ok_or(NoMemory)?;
            Ok(count)
        }
    }

    /// The call of a begin leaves, which isn't that of a `vkCreateInstance` that makes the instance. `call`, `held` and `verdict` are what
    /// `enter` left of it, and `replies` are its drivers', one for each call that they were told, in that order; a skipped one has none. What
    /// is born of it is kept, and the answer is how many of its results are born. `results` is any memory for them. A count that would pass
    /// 32 bits is refused as want of memory. Takes no memory, and so doesn't answer `NoMemory`, where there is room for the results, and takes
    /// no more room than theirs. After `NoMemory` all is for dropping.
    pub fn leave(
        &mut self,
        table: &DispatchTable,
        event: &Event,
        call: &LayerCall,
        held: &Held,
        verdict: &Verdict,
        replies: &[DriverReply],
        results: &mut Vec<u64>,
    ) -> Result<u32, NoMemory>
        requires table { table.now.rows ≡ kinds_of self.old.states.kept }
        requires can { CanLeaveAt self.old (content event.now) (call_content call.now) held.now verdict.now.skip (map reply_shown replies.now) }
        ensures ok { IfOk result (LeavesAt self.old (content event.now) (call_content call.now) held.now verdict.now.skip (map reply_shown replies.now) self.new) }
        ensures takes { OnOk result (TakesResultsAt self.old (content event.now) (call_content call.now) verdict.now.skip self.new) }
        ensures succeeds { HasRoomToLeaveAt self.old (content event.now) (call_content call.now) verdict.now.skip (vec_capacity results.old) → IsOk result }
        ensures room { vec_capacity results.old ≤ vec_capacity results.new }
        ensures kinds { kinds_of self.new.states.kept ≡ kinds_of self.old.states.kept }
    {
        match event {
            Event::Return { .. } => Ok(0),
            Event::Begin {
                thread,
                cmd,
                args,
                results: names,
                code,
                payload,
            } => {
                let begin = Beginning {
                    thread: *thread,
                    cmd: *cmd,
                    args,
                    results: names,
                    code: *code,
                    payload,
                };
                self.leave_with(table, begin, call, held, verdict.skip, replies, results)
            }
        }
    }
}
