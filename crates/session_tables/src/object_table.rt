// The objects that live, by their births.
ghost use Rattle.std.specs.Prelude.{◌≡◌, ◌+◌, ◌*◌, ◌++◌, ◌∷◌, ◌<◌, ◌≤◌, ◌^◌, ◌&&◌, [], IfOk, IsOk, OnOk, if◌then◌else◌, true, false, length, map};
ghost use Rattle.std.specs.List.{list_any, filter_map};
ghost use Rattle.std.specs.Option.{option_map_or};
ghost use Rattle.object_model.specs.declared.Object.{Object};
ghost use Rattle.object_model.specs.Objects.{same, is_in, object_of};
ghost use Rattle.object_model.specs.History.{births_given, births_of, born_in, created_in, ends_by, ends_with, owners_given, owners_in};
ghost use Rattle.replay_model.specs.Past.{objects_of};
ghost use Rattle.session_tables.specs.Births.{AreApart, births_shown};
ghost use Rattle.session_tables.specs.Lined.{AreAdded, AreLeft, AreLined, owners_made};
ghost use Rattle.session_tables.specs.Owned.{GoDown, objects_from, head_in};
ghost use Rattle.session_tables.specs.Placed.{ArePlaced, table_room};
ghost use Rattle.session_tables.specs.Shown.{args_shown};

use crate::birth_table::{BirthEntry, BirthTable};
use crate::owned_lists::{OwnedLists, OwnedNode, list_at_each, reserve_lists};
use crate::owners::{arguments_at, fill_owners, object_in_place};
use crate::placed_table::{Placed, PlacedTable};
use command_tables::{Effect, OwnerOf};
use object_model::{Argument, Object};
use replay_model::Born;
use std::alloc::{AllocError, Global};
use std::marker::Model;
use std::mem;

/// The births of the objects that live, and for each owner a list of what was born below it, at any depth. An end takes out the births that it
/// reaches, and the lists of these objects.
pub struct ObjectTable {
    births: BirthTable,
    lists: OwnedLists,
    // Room for owners that is used again at each return.
    owners: Vec<Object>,
}

impl Drop for ObjectTable {
    fn drop(self) {
        let ObjectTable {
            births: _births,
            lists: _lists,
            owners: _owners,
        } = self;
    }
}

impl Model for ObjectTable {
    ghost use Rattle.std.specs.Prelude.{vec_capacity};
    ghost use Rattle.session_tables.specs.Lined.{ObjectsState};
    ghost use Rattle.session_tables.specs.Owned.{LeadToNodes, AreListed, listed_in, lists_room};

    ghost Value = { ObjectsState };

    ghost view = { λ t. record { births = t.births.births; spare = t.births.spare; links = lists_room t.lists; owners = vec_capacity t.owners } };

    ghost invariant = { λ t. LeadToNodes t.lists.heads t.lists.nodes.items × AreListed t.births.births (listed_in t.lists) };
}

#[tactic(auto, unfolding(command_tables::specs::Tests::same_type))]
fn is_among(objects: &[Object], object: Object) -> bool
    ensures { result ≡ is_in objects.now object }
{
    objects.iter().any(|o| *o == object)
}

// Ends an object, and drops its list, where the named one owns it.
fn end_owned(births: &mut BirthTable, heads: &mut PlacedTable<u32>, object: Object, named: Object)
    requires { ArePlaced heads.old }
    ensures left { AreLeft births.old.births (λ o. same object o && is_in (owners_in births.old.births o) named) births.new.births }
    ensures heads { (w : Object) → (same object w && is_in (owners_in births.old.births w) named) ≡ false → head_in heads.new w ≡ head_in heads.old w }
    ensures fewer { (w : Object) → head_in heads.new w ≤ head_in heads.old w }
    ensures spare { births.old.spare ≤ births.new.spare }
    ensures room { table_room heads.old ≤ table_room heads.new }
    ensures placed { ArePlaced heads.new }
{
    if is_among(births.owners_of(object), named) {
        births.remove(object);
        let _ = heads.remove(object);
    }
}

// Of the objects of a chain those end that the named one owns, and their lists are dropped.
fn end_each(
    births: &mut BirthTable,
    heads: &mut PlacedTable<u32>,
    nodes: &[OwnedNode],
    head: u32,
    named: Object,
)
    requires placed { ArePlaced heads.old }
    requires down { GoDown nodes.now }
    requires within { head ≤ length nodes.now }
    ensures left { AreLeft births.old.births (λ o. is_in (objects_from nodes.now head) o && is_in (owners_in births.old.births o) named) births.new.births }
    ensures heads { (w : Object) → is_in (owners_in births.old.births w) named ≡ false → head_in heads.new w ≡ head_in heads.old w }
    ensures fewer { (w : Object) → head_in heads.new w ≤ head_in heads.old w }
    ensures spare { births.old.spare ≤ births.new.spare }
    ensures room { table_room heads.old ≤ table_room heads.new }
    ensures placed { ArePlaced heads.new }
{
    let mut link = head;
    while link > 0 {
        let node = nodes[link as usize - 1];
        end_owned(births, heads, node.object, named);
        link = node.before;
    }
}

// A table with these births. It lists nothing that has ended.
fn with_births(alloc: Global, births: &[Placed<BirthEntry>]) -> Result<ObjectTable, AllocError>
    requires { AreApart (births_shown births.now) }
    ensures { IfOk result (λ table. table.births ≡ births_shown births.now) }
{
    let mut table = ObjectTable::new(alloc);
    for birth in births {
        table.add_new(
            alloc,
            birth.object,
            birth.value.created,
            birth.value.owners.as_slice(),
        )?;
    }
    Ok(table)
}

impl ObjectTable {
    pub fn new(alloc: Global) -> ObjectTable
        ensures { result.births ≡ [] }
    {
        ObjectTable {
            births: BirthTable::new(alloc),
            lists: OwnedLists::new(alloc),
            owners: Vec::new(alloc),
        }
    }

    /// A table of its own with the same births. Of room nothing is said.
    pub fn copy(&self) -> Result<ObjectTable, AllocError>
        ensures { IfOk result (λ copy. copy.births ≡ self.now.births) }
    {
        with_births(*self.owners.allocator(), self.births.entries())
    }

    /// How many objects live.
    pub fn len(&self) -> usize
        ensures len { result ≡ length self.now.births }
        ensures few { result < 2 ^ 62 }
        ensures apart { AreApart self.now.births }
    {
        self.births.len()
    }

    /// Makes room for so many births of objects with at most three owners, so that these take no memory. After an error what lives is as
    /// before, and no room is lost.
    pub fn reserve(&mut self, n: usize) -> Result<(), AllocError>
        ensures births { self.new.births ≡ self.old.births }
        ensures ok_spare { OnOk result (n ≤ self.new.spare) }
        ensures ok_links { OnOk result (3 * n ≤ self.new.links) }
        ensures ok_owners { OnOk result (3 ≤ self.new.owners) }
        ensures spare { self.old.spare ≤ self.new.spare }
        ensures links { self.old.links ≤ self.new.links }
        ensures owners { self.old.owners ≤ self.new.owners }
    {
        let Some(links) = n.checked_mul(3) else {
            return Err(AllocError);
        };
        self.owners.clear();
        self.owners.reserve(3)?;
        self.births.reserve(n)?;
        reserve_lists(&mut self.lists, &self.births, links)?;
        Ok(())
    }

    pub fn births(&self) -> &BirthTable
        ensures { result.now.births ≡ self.now.births }
    {
        &self.births
    }

    /// Whether an object lives.
    pub fn is_living(&self, object: Object) -> bool
        ensures { result ≡ born_in self.now.births object }
    {
        self.births.is_born(object)
    }

    // All ends that an object owns.
    fn end_below(&mut self, named: Object)
        requires { AreLined self.old.births }
        ensures left { AreLeft self.old.births (λ o. is_in (owners_in self.old.births o) named) self.new.births }
        ensures spare { self.old.spare ≤ self.new.spare }
        ensures links { self.old.links ≤ self.new.links }
        ensures owners { self.old.owners ≤ self.new.owners }
    {
        if let Some(head) = self.lists.heads.remove(named) {
            end_each(
                &mut self.births,
                &mut self.lists.heads,
                &self.lists.nodes,
                head,
                named,
            );
        }
    }

    // A created object ends with all that it owns.
    fn end_with(&mut self, named: Object)
        requires { AreLined self.old.births }
        ensures left { AreLeft self.old.births (λ o. ends_with self.old.births o named) self.new.births }
        ensures spare { self.old.spare ≤ self.new.spare }
        ensures links { self.old.links ≤ self.new.links }
        ensures owners { self.old.owners ≤ self.new.owners }
    {
        if self.births.is_created(named) {
            self.end_below(named);
            self.births.remove(named);
        }
    }

    // What an argument names ends, with all that it owns.
    fn end_at(&mut self, argument: Argument)
        requires { AreLined self.old.births }
        ensures left { AreLeft self.old.births (λ o. option_map_or (ends_with self.old.births o) (object_of argument) false) self.new.births }
        ensures spare { self.old.spare ≤ self.new.spare }
        ensures links { self.old.links ≤ self.new.links }
        ensures owners { self.old.owners ≤ self.new.owners }
    {
        if let Some(named) = object_in_place(argument) {
            self.end_with(named);
        }
    }

    // What an argument names stays, and all ends that it owns.
    fn end_below_at(&mut self, argument: Argument)
        requires { AreLined self.old.births }
        ensures left { AreLeft self.old.births (λ o. option_map_or (is_in (owners_in self.old.births o)) (object_of argument) false) self.new.births }
        ensures spare { self.old.spare ≤ self.new.spare }
        ensures links { self.old.links ≤ self.new.links }
        ensures owners { self.old.owners ≤ self.new.owners }
    {
        if let Some(named) = object_in_place(argument) {
            self.end_below(named);
        }
    }

    // What these arguments name ends, with all that it owns. One may have ended by an earlier one: then all that it owns has ended too.
    fn end_named(&mut self, at: &[Argument])
        requires { AreLined self.old.births }
        ensures left { AreLeft self.old.births (λ o. list_any (ends_with self.old.births o) (filter_map object_of at.now)) self.new.births }
        ensures spare { self.old.spare ≤ self.new.spare }
        ensures links { self.old.links ≤ self.new.links }
        ensures owners { self.old.owners ≤ self.new.owners }
    {
        for argument in at {
            self.end_at(*argument);
        }
    }

    // What these arguments name stays, and all ends that it owns.
    fn end_below_named(&mut self, at: &[Argument])
        requires { AreLined self.old.births }
        ensures left { AreLeft self.old.births (λ o. list_any (is_in (owners_in self.old.births o)) (filter_map object_of at.now)) self.new.births }
        ensures spare { self.old.spare ≤ self.new.spare }
        ensures links { self.old.links ≤ self.new.links }
        ensures owners { self.old.owners ≤ self.new.owners }
    {
        for argument in at {
            self.end_below_at(*argument);
        }
    }

    /// Ends what a call ends. No room is lost.
    pub fn end_some(&mut self, args: &[Vec<Argument>], effect: Effect)
        requires { AreLined self.old.births }
        ensures left { AreLeft self.old.births (ends_by self.old.births (args_shown args.now) effect) self.new.births }
        ensures spare { self.old.spare ≤ self.new.spare }
        ensures links { self.old.links ≤ self.new.links }
        ensures owners { self.old.owners ≤ self.new.owners }
    {
        match effect {
            Effect::Destroy(p) | Effect::Free(p) => self.end_named(arguments_at(args, p)),
            Effect::Reset(p) => self.end_below_named(arguments_at(args, p)),
            Effect::None | Effect::Create { .. } | Effect::Retrieve { .. } => {}
        }
    }

    fn add_new(
        &mut self,
        alloc: Global,
        object: Object,
        created: bool,
        owners: &[Object],
    ) -> Result<(), AllocError>
        requires { born_in self.old.births object ≡ false }
        ensures ok { OnOk result (self.new.births ≡ self.old.births ++ record { object = object; created = created; owners = owners.now } ∷ []) }
        ensures succeeds { length owners.now ≤ 3 → 1 ≤ self.old.spare → length owners.now ≤ self.old.links → IsOk result }
        ensures spare { self.old.spare ≤ self.new.spare + 1 }
        ensures links { self.old.links ≤ self.new.links + length owners.now }
        ensures owners { self.old.owners ≤ self.new.owners }
    {
        list_at_each(&mut self.lists, &self.births, owners, object)?;
        self.births.push(alloc, object, created, owners)?;
        Ok(())
    }

    // A birth, where the object doesn't live.
    fn add(
        &mut self,
        alloc: Global,
        object: Object,
        created: bool,
        owners: &[Object],
    ) -> Result<(), AllocError>
        ensures ok { OnOk result (self.new.births ≡ (if born_in self.old.births object then self.old.births else self.old.births ++ record { object = object; created = created; owners = owners.now } ∷ [])) }
        ensures succeeds { length owners.now ≤ 3 → 1 ≤ self.old.spare → length owners.now ≤ self.old.links → IsOk result }
        ensures spare { self.old.spare ≤ self.new.spare + 1 }
        ensures links { self.old.links ≤ self.new.links + length owners.now }
        ensures owners { self.old.owners ≤ self.new.owners }
    {
        if self.births.is_born(object) {
            Ok(())
        } else {
            self.add_new(alloc, object, created, owners)
        }
    }

    // The births of these objects, as far as they don't live.
    fn add_all(
        &mut self,
        alloc: Global,
        created: bool,
        owners: &[Object],
        made: &[Born],
    ) -> Result<(), AllocError>
        ensures ok { OnOk result (AreAdded self.old.births (births_of self.old.births created owners.now (objects_of made.now)) self.new.births) }
        ensures succeeds { length owners.now ≤ 3 → length made.now ≤ self.old.spare → 3 * length made.now ≤ self.old.links → IsOk result }
        ensures spare { self.old.spare ≤ self.new.spare + length made.now }
        ensures links { length owners.now ≤ 3 → self.old.links ≤ self.new.links + 3 * length made.now }
        ensures owners { self.old.owners ≤ self.new.owners }
    {
        for born in made {
            self.add(alloc, born.object, created, owners)?;
        }
        Ok(())
    }

    // The births of what a call made. The list that it takes is kept for the next one.
    fn bear_of(
        &mut self,
        alloc: Global,
        created: bool,
        args: &[Vec<Argument>],
        owner: OwnerOf,
        made: &[Born],
    ) -> Result<(), AllocError>
        ensures ok { OnOk result (AreAdded self.old.births (births_of self.old.births created (owners_given self.old.births (args_shown args.now) owner) (objects_of made.now)) self.new.births) }
        ensures succeeds { length (owners_given self.old.births (args_shown args.now) owner) ≤ 3 → 3 ≤ self.old.owners → length made.now ≤ self.old.spare → 3 * length made.now ≤ self.old.links → IsOk result }
        ensures spare { self.old.spare ≤ self.new.spare + length made.now }
        ensures links { length (owners_given self.old.births (args_shown args.now) owner) ≤ 3 → self.old.links ≤ self.new.links + 3 * length made.now }
        ensures owners { self.old.owners ≤ self.new.owners }
    {
        fill_owners(&mut self.owners, &self.births, args, owner)?;
        let owners = mem::replace(&mut self.owners, Vec::new(alloc));
        let added = self.add_all(alloc, created, &owners, made);
        self.owners = owners;
        added
    }

    /// Adds what a call made, as far as it doesn't live. Takes no memory where there is room, and no more of it than one birth, with an entry
    /// for each of its owners, for each object.
    pub fn bear(
        &mut self,
        alloc: Global,
        args: &[Vec<Argument>],
        effect: Effect,
        made: &[Born],
    ) -> Result<(), AllocError>
        ensures ok { OnOk result (AreAdded self.old.births (births_given self.old.births (args_shown args.now) effect (objects_of made.now)) self.new.births) }
        ensures succeeds { length (owners_made self.old.births (args_shown args.now) effect) ≤ 3 → 3 ≤ self.old.owners → length made.now ≤ self.old.spare → 3 * length made.now ≤ self.old.links → IsOk result }
        ensures spare { self.old.spare ≤ self.new.spare + length made.now }
        ensures links { length (owners_made self.old.births (args_shown args.now) effect) ≤ 3 → self.old.links ≤ self.new.links + 3 * length made.now }
        ensures owners { self.old.owners ≤ self.new.owners }
    {
        match effect {
            Effect::Create { owner, .. } => self.bear_of(alloc, true, args, owner, made),
            Effect::Retrieve { owner, .. } => self.bear_of(alloc, false, args, owner, made),
            Effect::None | Effect::Destroy(_) | Effect::Free(_) | Effect::Reset(_) => Ok(()),
        }
    }
}
