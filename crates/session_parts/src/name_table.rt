// What a session keeps of names and objects.
ghost use Rattle.std.specs.Prelude.{◌≡◌, ◌≤◌, ◌+◌, ◌*◌, ◌++◌, length, map, IfOk, IsOk, OnOk};
ghost use Rattle.object_model.specs.declared.Object.{Object};
ghost use Rattle.trace_format.specs.declared.event.Name.{Name};
ghost use Rattle.object_model.specs.Keys.{key_payload};
ghost use Rattle.command_tables.specs.Table.{row_of};
ghost use Rattle.object_model.specs.History.{births_given, ends_by};
ghost use Rattle.replay_model.specs.Past.{named_of, object_in, objects_of, retrieved_by};
ghost use Rattle.session_tables.specs.Lined.{AreAdded, AreLeft, AreLined, owners_made};
ghost use Rattle.session_tables.specs.Shown.{args_shown};
ghost use Rattle.chain_model.specs.Handed.{hand_all, handle_in};
ghost use Rattle.session_parts.specs.Names.{CanKeep, CanSettle, TakesRoom, no_names};
ghost use Rattle.session_parts.specs.Scratch.{HoldsCalls, scratch_room};
ghost use Rattle.session_parts.specs.Opened.{returning_shown};

use crate::handed::HandedTable;
use crate::keeping::settle;
use crate::returning_call::ReturningCall;
use crate::scratch::Scratch;
use command_tables::{Effect, NoMemory};
use object_model::Argument;
use replay_model::Born;
use session_tables::{ObjectTable, RetrievedTable};
use std::alloc::{AllocError, Global};
use std::marker::Model;
use std::mem;

/// The names that stand for objects; the births of what lives; the retrieved objects with their owners and keys; and the handle of each object
/// that was born, as it stands above the first part of the chain. Contracts see besides for how much more there is room.
pub struct NameTable {
    alloc: Global,
    named: session_tables::NamedTable,
    objects: ObjectTable,
    retrieved: RetrievedTable,
    handed: HandedTable,
    // What the steps of a call that enters and of its return fill.
    scratch: Scratch,
}

impl Drop for NameTable {
    fn drop(self) {
        let NameTable {
            alloc: _alloc,
            named: _named,
            objects: _objects,
            retrieved: _retrieved,
            handed: _handed,
            scratch: _scratch,
        } = self;
    }
}

impl Model for NameTable {
    ghost use Rattle.session_parts.specs.Names.{NameTableState};
    ghost use Rattle.session_parts.specs.Scratch.{scratch_room};

    ghost Value = { NameTableState };

    ghost view = { λ t. record { kept = record { names = t.named.names; count = t.named.count; births = t.objects.births; retrieved = t.retrieved.kept; handed = t.handed.handed }; room = record { names = t.named.spare; births = t.objects.spare; links = t.objects.links; owners = t.objects.owners; handed = t.handed.spare; retrieved = t.retrieved.spare; bytes = t.retrieved.bytes; scratch = scratch_room t.scratch } } };
}

impl NameTable {
    /// No names and no objects. Takes no memory.
    pub fn new(alloc: Global) -> NameTable
        ensures { result.kept ≡ no_names }
    {
        NameTable {
            alloc,
            named: session_tables::NamedTable::new(alloc),
            objects: ObjectTable::new(alloc),
            retrieved: RetrievedTable::new(alloc),
            handed: HandedTable::new(alloc),
            scratch: Scratch::new(alloc),
        }
    }

    /// A table of its own that keeps the same. Of room nothing is said.
    pub fn copy(&self) -> Result<NameTable, NoMemory>
        ensures { IfOk result (λ copy. copy.kept ≡ self.now.kept) }
    {
        Ok(NameTable {
            alloc: self.alloc,
            named: self.named.copy()?,
            objects: self.objects.copy()?,
            retrieved: self.retrieved.copy()?,
            handed: self.handed.copy()?,
            scratch: Scratch::new(self.alloc),
        })
    }

    /// Makes room for so many further results with so many bytes of payloads, and for calls with so many arguments at each parameter and
    /// as many results each. After `NoMemory` what is kept is as before, and no room is lost.
    pub fn reserve(&mut self, results: usize, bytes: usize, args: usize) -> Result<(), NoMemory>
        ensures kept { self.new.kept ≡ self.old.kept }
        ensures ok { OnOk result (CanKeep results bytes self.new.room) }
        ensures scratch { OnOk result (HoldsCalls args results self.new.room.scratch) }
        ensures room { TakesRoom 0 0 self.old.room self.new.room }
    {
        self.named.reserve(results)?;
        self.objects.reserve(results)?;
        self.retrieved.reserve(results, bytes)?;
        self.handed.reserve(results)?;
        self.scratch.reserve(args, results)?;
        Ok(())
    }

    /// The names with their objects.
    pub fn named(&self) -> &session_tables::NamedTable
        ensures names { result.now.names ≡ self.now.kept.names }
        ensures count { result.now.count ≡ self.now.kept.count }
    {
        &self.named
    }

    /// What lives.
    pub fn objects(&self) -> &ObjectTable
        ensures { result.now.births ≡ self.now.kept.births }
    {
        &self.objects
    }

    /// The retrieved objects.
    pub fn retrieved(&self) -> &RetrievedTable
        ensures { result.now.kept ≡ self.now.kept.retrieved }
    {
        &self.retrieved
    }

    /// The handles above the first part.
    pub fn handed(&self) -> &HandedTable
        ensures { result.now.handed ≡ self.now.kept.handed }
    {
        &self.handed
    }

    /// Takes what the steps of a call fill.
    pub(crate) fn take_scratch(&mut self) -> Scratch
        ensures kept { self.new.kept ≡ self.old.kept }
        ensures room { self.new.room ≡ record self.old.room { scratch = self.new.room.scratch } }
        ensures scratch { scratch_room result ≡ self.old.room.scratch }
    {
        mem::replace(&mut self.scratch, Scratch::new(self.alloc))
    }

    /// Keeps it for the next call.
    pub(crate) fn keep_scratch(&mut self, scratch: Scratch)
        ensures kept { self.new.kept ≡ self.old.kept }
        ensures room { self.new.room ≡ record self.old.room { scratch = scratch_room scratch } }
    {
        self.scratch = scratch;
    }

    /// Ends what a call ends. Takes no memory.
    pub(crate) fn end_some(&mut self, args: &[Vec<Argument>], effect: Effect)
        requires { AreLined self.old.kept.births }
        ensures left { AreLeft self.old.kept.births (ends_by self.old.kept.births (args_shown args.now) effect) self.new.kept.births }
        ensures rest { self.new.kept ≡ record self.old.kept { births = self.new.kept.births } }
        ensures room { TakesRoom 0 0 self.old.room self.new.room }
    {
        self.objects.end_some(args, effect);
    }

    /// Gives each object that a call made its handle: the results that aren't lost, in turn.
    pub fn hand_each(&mut self, made: &[Born], handles: &[u64]) -> Result<(), AllocError>
        ensures handed { OnOk result ((o : Object) → handle_in self.new.kept.handed o ≡ handle_in (hand_all self.old.kept.handed made.now handles.now) o) }
        ensures rest { self.new.kept ≡ record self.old.kept { handed = self.new.kept.handed } }
        ensures succeeds { length made.now ≤ self.old.room.handed → IsOk result }
        ensures room { self.new.room ≡ record self.old.room { handed = self.new.room.handed } }
        ensures handed_room { self.old.room.handed ≤ self.new.room.handed + length made.now }
    {
        self.handed.hand_each(made, handles)
    }

    /// Adds what a call made: its names, its births and what it retrieved first. Where there is room for so many, this takes no memory.
    pub fn settle(&mut self, call: ReturningCall<'_>, born: &[Born]) -> Result<(), AllocError>
        ensures names { OnOk result ((q : Name) → object_in self.new.kept.names q ≡ object_in (self.old.kept.names ++ map named_of born.now) q) }
        ensures count { OnOk result (self.new.kept.count ≡ self.old.kept.count + length born.now) }
        ensures births { OnOk result (AreAdded self.old.kept.births (births_given self.old.kept.births (args_shown call.entry.args.now) (row_of call.entry.cmd).effect (objects_of born.now)) self.new.kept.births) }
        ensures retrieved { OnOk result (self.new.kept.retrieved ≡ self.old.kept.retrieved ++ retrieved_by self.old.kept.births (returning_shown call.entry) born.now) }
        ensures handed { self.new.kept.handed ≡ self.old.kept.handed }
        ensures succeeds { length (owners_made self.old.kept.births (args_shown call.entry.args.now) (row_of call.entry.cmd).effect) ≤ 3 → CanSettle (length born.now) (length born.now * length (key_payload call.entry.cmd call.entry.payload.now)) self.old.room → IsOk result }
        ensures handed_room { self.new.room.handed ≡ self.old.room.handed }
        ensures room { length (owners_made self.old.kept.births (args_shown call.entry.args.now) (row_of call.entry.cmd).effect) ≤ 3 → TakesRoom (length born.now) (length born.now * length (key_payload call.entry.cmd call.entry.payload.now)) self.old.room self.new.room }
    {
        settle(
            self.alloc,
            call,
            born,
            &mut self.named,
            &mut self.objects,
            &mut self.retrieved,
        )
    }
}
