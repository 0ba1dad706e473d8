// The handles of objects above the first part of a chain.
ghost use Rattle.std.specs.Prelude.{◌≡◌, ◌≤◌, ◌+◌, [], length, IfOk, IsOk, OnOk, OnErr};
ghost use Rattle.object_model.specs.declared.Object.{Object};
ghost use Rattle.chain_model.specs.Handed.{hand_all, hand_one, handle_in};

use object_model::Object;
use replay_model::Born;
use session_tables::ObjectPlaces;
use std::alloc::{AllocError, Global};
use std::marker::Model;

/// The handle above the first part for each object that is born, in any order. An object is found by its number. Contracts see besides how many
/// further ones can be handed with no further memory.
pub struct HandedTable {
    handles: ObjectPlaces<u64>,
}

impl Drop for HandedTable {
    fn drop(self) {
        let HandedTable { handles: _handles } = self;
    }
}

impl Model for HandedTable {
    ghost use Rattle.session_tables.specs.Filing.{places_room};
    ghost use Rattle.session_parts.specs.Handed.{HandedState, handed_shown};

    ghost Value = { HandedState };

    ghost view = { λ t. record { handed = handed_shown t.handles; spare = places_room t.handles } };
}

impl HandedTable {
    /// No objects.
    pub fn new(alloc: Global) -> HandedTable
        ensures { result.handed ≡ [] }
    {
        HandedTable {
            handles: ObjectPlaces::new(alloc, 0),
        }
    }

    /// A table of its own with the same handles. Of room nothing is said.
    pub fn copy(&self) -> Result<HandedTable, AllocError>
        ensures { IfOk result (λ copy. copy.handed ≡ self.now.handed) }
    {
        Ok(HandedTable {
            handles: self.handles.copy()?,
        })
    }

    /// The handle of an object, and 0 where it has none.
    pub fn handle(&self, object: Object) -> u64
        ensures { result ≡ handle_in self.now.handed object }
    {
        self.handles.get(object).unwrap_or(0)
    }

    /// Makes room for the handles of so many further objects. `AllocError` comes too where more than 2^32 - 1 would stand beside the rows; after
    /// it the handles are as before, and no room is lost.
    pub fn reserve(&mut self, n: usize) -> Result<(), AllocError>
        ensures handed { self.new.handed ≡ self.old.handed }
        ensures ok { OnOk result (n ≤ self.new.spare) }
        ensures spare { self.old.spare ≤ self.new.spare }
    {
        self.handles.reserve(n)
    }

    /// Gives an object this handle in place of the one that it had, in memory up to the object's number where there is no room. `AllocError`
    /// comes too where 2^32 - 1 stand beside the rows.
    pub fn hand(&mut self, object: Object, handle: u64) -> Result<(), AllocError>
        ensures ok { OnOk result ((o : Object) → handle_in self.new.handed o ≡ handle_in (hand_one object handle self.old.handed) o) }
        ensures err { OnErr result ((o : Object) → handle_in self.new.handed o ≡ handle_in self.old.handed o) }
        ensures succeeds { 1 ≤ self.old.spare → IsOk result }
        ensures spare { self.old.spare ≤ self.new.spare + 1 }
    {
        self.handles.put(object, handle)
    }

    /// Gives each object that a call made its handle: the results that aren't lost, in turn.
    pub fn hand_each(&mut self, made: &[Born], handles: &[u64]) -> Result<(), AllocError>
        ensures ok { OnOk result ((o : Object) → handle_in self.new.handed o ≡ handle_in (hand_all self.old.handed made.now handles.now) o) }
        ensures succeeds { length made.now ≤ self.old.spare → IsOk result }
        ensures spare { self.old.spare ≤ self.new.spare + length made.now }
    {
        for (born, handle) in made.iter().zip(handles) {
            self.hand(born.object, *handle)?;
        }
        Ok(())
    }
}
