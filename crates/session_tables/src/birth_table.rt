// The births of the objects that live.
ghost use Rattle.std.specs.Prelude.{◌≡◌, ◌++◌, ◌∷◌, ◌+◌, ◌<◌, ◌≤◌, ◌^◌, [], IsOk, OnOk, OnErr, false, length};
ghost use Rattle.object_model.specs.Objects.{same};
ghost use Rattle.object_model.specs.History.{born_in, created_in, owners_in};
ghost use Rattle.session_tables.specs.Births.{AreApart, births_shown};
ghost use Rattle.session_tables.specs.Lined.{AreLeft};

use crate::owner_list::OwnerList;
use crate::placed_table::{Placed, PlacedTable};
use object_model::Object;
use std::alloc::{AllocError, Global};
use std::marker::Model;

/// Whether a call created an object, and its owners.
#[derive(Drop)]
pub struct BirthEntry {
    pub created: bool,
    pub owners: OwnerList,
}

/// The births of the objects that live. What an end takes out leaves its room to the next birth. Contracts see besides how many further births
/// can be held with no further memory.
pub struct BirthTable {
    births: PlacedTable<BirthEntry>,
}

impl Drop for BirthTable {
    fn drop(self) {
        let BirthTable { births: _births } = self;
    }
}

impl Model for BirthTable {
    ghost use Rattle.session_tables.specs.Births.{BirthsState, births_shown};
    ghost use Rattle.session_tables.specs.Placed.{ArePlaced, table_room};

    ghost Value = { BirthsState };

    ghost view = { λ t. record { births = births_shown t.births.entries.items; spare = table_room t.births } };

    ghost invariant = { λ t. ArePlaced t.births };
}

impl BirthTable {
    pub fn new(alloc: Global) -> BirthTable
        ensures { result.births ≡ [] }
    {
        BirthTable {
            births: PlacedTable::new(alloc),
        }
    }

    /// How many births there are: each object has one.
    pub fn len(&self) -> usize
        ensures len { result ≡ length self.now.births }
        ensures few { result < 2 ^ 62 }
        ensures apart { AreApart self.now.births }
    {
        self.births.entries.as_slice().len()
    }

    /// The births, each with its object.
    pub(crate) fn entries(&self) -> &[Placed<BirthEntry>]
        ensures births { births_shown result.now ≡ self.now.births }
        ensures apart { AreApart self.now.births }
    {
        self.births.entries.as_slice()
    }

    /// Whether an object was born.
    pub fn is_born(&self, object: Object) -> bool
        ensures { result ≡ born_in self.now.births object }
    {
        self.births.get(object).is_some()
    }

    /// Whether an object was created.
    pub fn is_created(&self, object: Object) -> bool
        ensures { result ≡ created_in self.now.births object }
    {
        match self.births.get(object) {
            None => false,
            Some(birth) => birth.created,
        }
    }

    /// The owner of an object, its owner, and so on.
    pub fn owners_of(&self, object: Object) -> &[Object]
        ensures { result.now ≡ owners_in self.now.births object }
    {
        match self.births.get(object) {
            None => &[],
            Some(birth) => birth.owners.as_slice(),
        }
    }

    /// Makes room for so many further births, so that those of up to three owners take no memory. Takes none where there is room. `AllocError`
    /// comes too where there would be more than 2^32; after it the births are as before, and no room is lost.
    pub fn reserve(&mut self, n: usize) -> Result<(), AllocError>
        ensures births { self.new.births ≡ self.old.births }
        ensures ok { OnOk result (n ≤ self.new.spare) }
        ensures spare { self.old.spare ≤ self.new.spare }
        ensures succeeds { n ≤ self.old.spare → IsOk result }
    {
        self.births.reserve(n)
    }

    /// Adds the birth of an object that has none. Up to three owners take no memory where there is room; else it takes memory up to the object's
    /// place.
    pub fn push(
        &mut self,
        alloc: Global,
        object: Object,
        created: bool,
        owners: &[Object],
    ) -> Result<(), AllocError>
        requires { born_in self.old.births object ≡ false }
        ensures ok { OnOk result (self.new.births ≡ self.old.births ++ record { object = object; created = created; owners = owners.now } ∷ []) }
        ensures err { OnErr result (self.new.births ≡ self.old.births) }
        ensures succeeds { length owners.now ≤ 3 → 1 ≤ self.old.spare → IsOk result }
        ensures spare { self.old.spare ≤ self.new.spare + 1 }
    {
        let birth = BirthEntry {
            created,
            owners: OwnerList::from_slice(alloc, owners)?,
        };
        self.births.push(object, birth)?;
        Ok(())
    }

    /// Takes out the birth of an object. Its room stays.
    pub fn remove(&mut self, object: Object)
        ensures left { AreLeft self.old.births (same object) self.new.births }
        ensures spare { self.old.spare ≤ self.new.spare }
    {
        let _ = self.births.remove(object);
    }
}
