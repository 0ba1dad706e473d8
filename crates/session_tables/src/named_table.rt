// Names with their objects.
ghost use Rattle.std.specs.Prelude.{◌≡◌, ◌≤◌, ◌<◌, ◌+◌, ◌^◌, ◌++◌, ◌∷◌, [], length, None, Some, IfOk, IsOk, OnOk, OnErr, if◌then◌else◌};
ghost use Rattle.trace_format.specs.declared.event.Name.{Name};
ghost use Rattle.trace_format.specs.Accepting.{same_name};
ghost use Rattle.replay_model.specs.Past.{object_in};
ghost use Rattle.session_tables.specs.Shown.{object_at};

use crate::beside_names::BesideNames;
use crate::dense::{copy_rows, has_place, put_value, value_at};
use crate::filed_type::FiledType;
use crate::own::{is_own, own_object};
use object_model::Object;
use replay_model::Named;
use std::alloc::{AllocError, Global};
use std::marker::Model;
use trace_format::Name;

// So many names can be put.
const MOST: usize = 4294967295;

/// The names that stand for objects, in any order; 4,294,967,295 at most. A name whose object is made of it takes a byte. Contracts see besides
/// how many were put, and how many further ones can be with no further memory.
pub struct NamedTable {
    // The type of the object that is made of a name, in the row of the name's thread, at its number.
    types: Vec<Vec<FiledType>>,
    // The objects of other names, and of those up to which their row didn't reach when they came, though there was room.
    others: BesideNames,
    count: usize,
    alloc: Global,
}

impl Drop for NamedTable {
    fn drop(self) {
        let NamedTable {
            types: _types,
            others: _others,
            count: _count,
            alloc: _alloc,
        } = self;
    }
}

impl Model for NamedTable {
    ghost use Rattle.std.specs.Prelude.{◌≤◌, ◌-◌, ◌++◌, map, min};
    ghost use Rattle.session_tables.specs.Named.{NamesState, rows_named};

    ghost Value = { NamesState };

    ghost view = { λ t. record { names = rows_named 0 (map (λ r. r.items) t.types.items) ++ t.others.named; count = t.count; spare = min (4294967295 - t.count) t.others.spare } };

    ghost invariant = { λ t. t.count ≤ 4294967295 };
}

// The object for which a name stands.
fn object_of(types: &[Vec<FiledType>], others: &BesideNames, name: Name) -> Option<Object>
    ensures { result ≡ object_at types.now (object_in others.now.named name) name }
{
    let filed = value_at(
        types,
        name.thread as usize,
        name.number as usize,
        FiledType::new(None),
    );
    match filed.get() {
        Some(ty) => Some(own_object(ty, name)),
        None => others.object_named(name),
    }
}

// Keeps the object of a name that stands for nothing yet.
fn put_object(
    alloc: Global,
    types: &mut Vec<Vec<FiledType>>,
    others: &mut BesideNames,
    named: Named,
) -> Result<(), AllocError>
    requires { object_at types.old.items (object_in others.old.named named.name) named.name ≡ None }
    ensures ok { OnOk result ((q : Name) → object_at types.new.items (object_in others.new.named q) q ≡ (if same_name named.name q then Some named.object else object_at types.old.items (object_in others.old.named q) q)) }
    ensures err { OnErr result ((q : Name) → object_at types.new.items (object_in others.new.named q) q ≡ object_at types.old.items (object_in others.old.named q) q) }
    ensures succeeds { 1 ≤ others.old.spare → IsOk result }
    ensures spare { others.old.spare ≤ others.new.spare + 1 }
{
    if !is_own(named) {
        return others.put(named);
    }
    let row = named.name.thread as usize;
    let at = named.name.number as usize;
    if !has_place(types, row, at) && others.has_room() {
        return others.put(named);
    }
    let filed = FiledType::new(Some(named.object.ty));
    put_value(alloc, types, row, at, filed, FiledType::new(None))?;
    Ok(())
}

impl NamedTable {
    pub fn new(alloc: Global) -> NamedTable
        ensures names { result.names ≡ [] }
        ensures count { result.count ≡ 0 }
    {
        NamedTable {
            types: Vec::new(alloc),
            others: BesideNames::new(alloc),
            count: 0,
            alloc,
        }
    }

    /// A table of its own with the same names. Of room nothing is said.
    pub fn copy(&self) -> Result<NamedTable, AllocError>
        ensures names { IfOk result (λ copy. copy.names ≡ self.now.names) }
        ensures count { IfOk result (λ copy. copy.count ≡ self.now.count) }
    {
        Ok(NamedTable {
            types: copy_rows(self.alloc, &self.types)?,
            others: self.others.copy()?,
            count: self.count,
            alloc: self.alloc,
        })
    }

    /// How many names were put.
    pub fn len(&self) -> usize
        ensures len { result ≡ self.now.count }
        ensures few { result < 2 ^ 62 }
    {
        self.count
    }

    /// The object for which a name stands.
    pub fn object_named(&self, name: Name) -> Option<Object>
        ensures { result ≡ object_in self.now.names name }
    {
        object_of(&self.types, &self.others, name)
    }

    /// Makes room for so many further names, so that they take no memory. Takes none where there is room. `AllocError` comes too where there
    /// would be more than 2^32 - 1; after it the names are as before, and no room is lost.
    pub fn reserve(&mut self, n: usize) -> Result<(), AllocError>
        ensures names { self.new.names ≡ self.old.names }
        ensures count { self.new.count ≡ self.old.count }
        ensures ok { OnOk result (n ≤ self.new.spare) }
        ensures spare { self.old.spare ≤ self.new.spare }
        ensures succeeds { n ≤ self.old.spare → IsOk result }
    {
        if n > MOST - self.count {
            return Err(AllocError);
        }
        self.others.reserve(n)?;
        Ok(())
    }

    /// Adds a name, in no memory where there is room, and else in memory up to its number. The first object of a name stays. `AllocError`
    /// comes too where 2^32 - 1 names were put.
    pub fn push(&mut self, named: Named) -> Result<(), AllocError>
        ensures ok { OnOk result ((q : Name) → object_in self.new.names q ≡ object_in (self.old.names ++ named ∷ []) q) }
        ensures count { OnOk result (self.new.count ≡ self.old.count + 1) }
        ensures err { OnErr result ((q : Name) → object_in self.new.names q ≡ object_in self.old.names q) }
        ensures err_count { OnErr result (self.new.count ≡ self.old.count) }
        ensures succeeds { 1 ≤ self.old.spare → IsOk result }
        ensures spare { self.old.spare ≤ self.new.spare + 1 }
    {
        if self.count >= MOST {
            return Err(AllocError);
        }
        if object_of(&self.types, &self.others, named.name).is_some() {
            self.count += 1;
            return Ok(());
        }
        put_object(self.alloc, &mut self.types, &mut self.others, named)?;
        self.count += 1;
        Ok(())
    }
}
