// Objects of names that don't stand in the rows.
ghost use Rattle.std.specs.Prelude.{◌≡◌, ◌≤◌, ◌+◌, [], Some, nat_lt, IfOk, IsOk, OnOk, OnErr, if◌then◌else◌};
ghost use Rattle.trace_format.specs.declared.event.Name.{Name};
ghost use Rattle.trace_format.specs.Accepting.{same_name};
ghost use Rattle.replay_model.specs.Past.{object_in};

use object_model::Object;
use replay_model::Named;
use std::alloc::{AllocError, Global};
use std::collections::HashMap;
use std::marker::Model;
use trace_format::Name;

/// Names with their objects, found by hash. Contracts see besides how many further ones can be held with no further memory.
#[derive(Drop)]
pub(crate) struct BesideNames {
    objects: HashMap<Name, Object>,
    // Each of these names, in an order that room for more doesn't change.
    names: Vec<Name>,
}

impl Model for BesideNames {
    ghost use Rattle.std.specs.Prelude.{◌≡◌, ◌-◌, is_some, length, min, true, vec_capacity};
    ghost use Rattle.std.specs.HashMap.{get, spare as map_spare};
    ghost use Rattle.trace_format.specs.declared.event.Name.{Name};
    ghost use Rattle.trace_format.specs.Accepting.{same_name};
    ghost use Rattle.session_tables.specs.Named.{BesideState, beside_named, is_name_listed};

    ghost Value = { BesideState };

    ghost view = { λ t. record { named = beside_named (get same_name t.objects) t.names.items; spare = min (map_spare t.objects) (vec_capacity t.names - length t.names.items) } };

    ghost invariant = { λ t. (q : Name) → is_some (get same_name t.objects q) ≡ true → is_name_listed t.names.items q ≡ true };
}

impl BesideNames {
    pub(crate) fn new(alloc: Global) -> BesideNames
        ensures { result.named ≡ [] }
    {
        BesideNames {
            objects: HashMap::new(alloc),
            names: Vec::new(alloc),
        }
    }

    /// The same names of their own. Of room nothing is said.
    pub(crate) fn copy(&self) -> Result<BesideNames, AllocError>
        ensures { IfOk result (λ copy. copy.named ≡ self.now.named) }
    {
        let alloc = *self.names.allocator();
        Ok(BesideNames {
            objects: self.objects.clone()?,
            names: Vec::from_slice(alloc, &self.names)?,
        })
    }

    /// The object for which a name stands.
    pub(crate) fn object_named(&self, name: Name) -> Option<Object>
        ensures { result ≡ object_in self.now.named name }
    {
        self.objects.get(&name).copied()
    }

    /// Whether there is room for one more.
    pub(crate) fn has_room(&self) -> bool
        ensures { result ≡ nat_lt 0 self.now.spare }
    {
        self.objects.len() < self.objects.capacity() && self.names.len() < self.names.capacity()
    }

    /// Makes room for so many further names, so that they take no memory. Takes none where there is room. After `AllocError` no room is lost.
    pub(crate) fn reserve(&mut self, n: usize) -> Result<(), AllocError>
        ensures named { self.new.named ≡ self.old.named }
        ensures ok { OnOk result (n ≤ self.new.spare) }
        ensures spare { self.old.spare ≤ self.new.spare }
        ensures succeeds { n ≤ self.old.spare → IsOk result }
    {
        self.names.reserve(n)?;
        self.objects.reserve(n)?;
        Ok(())
    }

    /// Keeps the object of a name. After `AllocError` each name stands for the same object.
    pub(crate) fn put(&mut self, named: Named) -> Result<(), AllocError>
        ensures ok { OnOk result ((q : Name) → object_in self.new.named q ≡ (if same_name named.name q then Some named.object else object_in self.old.named q)) }
        ensures err { OnErr result (self.new.named ≡ self.old.named) }
        ensures succeeds { 1 ≤ self.old.spare → IsOk result }
        ensures spare { self.old.spare ≤ self.new.spare + 1 }
    {
        self.names.reserve(1)?;
        self.objects.insert(named.name, named.object)?;
        self.names.push(named.name).unwrap();
        Ok(())
    }
}
