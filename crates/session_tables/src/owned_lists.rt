// What was born below each owner.
ghost use Rattle.std.specs.Prelude.{◌≡◌, ◌≤◌, ◌<◌, ◌+◌, ◌-◌, if◌then◌else◌, IfOk, IsOk, OnErr, OnOk, length, min, true, vec_capacity};
ghost use Rattle.object_model.specs.declared.Object.{Object};
ghost use Rattle.object_model.specs.Objects.{same, is_in};
ghost use Rattle.object_model.specs.History.{owners_in};
ghost use Rattle.session_tables.specs.Births.{births_shown};
ghost use Rattle.session_tables.specs.Owned.{LeadToNodes, has_head, head_in, links_of, listed_in, lists_room};
ghost use Rattle.session_tables.specs.Placed.{ArePlaced, table_room};

use crate::birth_table::{BirthEntry, BirthTable};
use crate::placed_table::{Placed, PlacedTable};
use object_model::Object;
use std::alloc::{AllocError, Global};

/// The lists are no shorter than this when they are first made anew.
const SHORTEST: usize = 8;

// A link, one more than a place, has 32 bits.
const MOST: usize = 4294967295;

/// An object that was born below an owner, and one more than the place of the node listed before it at the same owner; 0 where it is the
/// first.
#[derive(Clone, Copy)]
pub struct OwnedNode {
    pub object: Object,
    pub before: u32,
}

/// What was born below each owner, at any depth: for each owner one more than the place of its latest node. What has ended since stays
/// listed until the nodes are full and have no room: then what lives is listed anew in the same memory, and the nodes are full again at
/// twice as many, and at no fewer than there are births. So nodes take memory by what lived at one time, and each node and each birth is
/// looked at a few times at most.
pub struct OwnedLists {
    pub heads: PlacedTable<u32>,
    pub nodes: Vec<OwnedNode>,
    pub full: usize,
}

impl Drop for OwnedLists {
    fn drop(self) {
        let OwnedLists {
            heads: _heads,
            nodes: _nodes,
            full: _full,
        } = self;
    }
}

impl OwnedLists {
    pub fn new(alloc: Global) -> OwnedLists
        ensures { LeadToNodes result.heads result.nodes.items }
    {
        OwnedLists {
            heads: PlacedTable::new(alloc),
            nodes: Vec::new(alloc),
            full: SHORTEST,
        }
    }

    // Makes room for so many further nodes, each of another owner.
    fn reserve(&mut self, n: usize) -> Result<(), AllocError>
        requires { LeadToNodes self.old.heads self.old.nodes.items }
        ensures listed { (w : Object) → listed_in self.new w ≡ listed_in self.old w }
        ensures ok { OnOk result (n ≤ lists_room self.new) }
        ensures room { lists_room self.old ≤ lists_room self.new }
        ensures chained { LeadToNodes self.new.heads self.new.nodes.items }
    {
        if n > MOST.saturating_sub(self.nodes.len()) {
            return Err(AllocError);
        }
        self.nodes.reserve(n)?;
        self.heads.reserve(n)?;
        Ok(())
    }
}

// For how many further nodes there is room, where links to them fit.
fn node_room(nodes: &Vec<OwnedNode>) -> usize
    ensures { result ≡ min (vec_capacity nodes.now) 4294967295 - length nodes.now.items }
{
    nodes.capacity().min(MOST).saturating_sub(nodes.len())
}

// The link to a node behind so many.
fn link_behind(count: usize) -> Result<u32, AllocError>
    ensures ok { IfOk result (λ link. link ≡ count + 1) }
    ensures succeeds { count < 4294967295 → IsOk result }
{
    if count >= MOST {
        return Err(AllocError);
    }
    Ok(count as u32 + 1)
}

// Whether the nodes are full, and have no room for so many more.
fn are_full(lists: &OwnedLists, n: usize) -> bool
    ensures { result ≡ true → lists_room lists.now < n }
{
    if lists.nodes.len() < lists.full {
        return false;
    }
    node_room(&lists.nodes) < n
}

// The link to an owner's latest node, or 0.
fn head_of(heads: &PlacedTable<u32>, owner: Object) -> u32
    requires { ArePlaced heads.now }
    ensures { result ≡ head_in heads.now owner }
{
    match heads.get(owner) {
        None => 0,
        Some(link) => *link,
    }
}

// An owner's latest node is another.
fn set_head(heads: &mut PlacedTable<u32>, owner: Object, link: u32) -> Result<(), AllocError>
    requires { ArePlaced heads.old }
    ensures ok { OnOk result ((w : Object) → head_in heads.new w ≡ (if same owner w then link else head_in heads.old w)) }
    ensures err { OnErr result ((w : Object) → head_in heads.new w ≡ head_in heads.old w) }
    ensures succeeds { 1 ≤ table_room heads.old → IsOk result }
    ensures room { table_room heads.old ≤ table_room heads.new + 1 }
    ensures placed { ArePlaced heads.new }
{
    match heads.place_of(owner) {
        Some(at) => {
            heads.entries[at].value = link;
            Ok(())
        }
        None => heads.push(owner, link),
    }
}

// An object is listed at one of its owners.
fn list_owned(lists: &mut OwnedLists, owner: Object, object: Object) -> Result<(), AllocError>
    requires { LeadToNodes lists.old.heads lists.old.nodes.items }
    ensures ok { OnOk result (is_in (listed_in lists.new owner) object ≡ true) }
    ensures stays { (w o : Object) → is_in (listed_in lists.old w) o ≡ true → is_in (listed_in lists.new w) o ≡ true }
    ensures succeeds { 1 ≤ lists_room lists.old → IsOk result }
    ensures room { lists_room lists.old ≤ lists_room lists.new + 1 }
    ensures chained { LeadToNodes lists.new.heads lists.new.nodes.items }
{
    let link = link_behind(lists.nodes.len())?;
    let before = head_of(&lists.heads, owner);
    lists.nodes.push(OwnedNode { object, before })?;
    set_head(&mut lists.heads, owner, link)?;
    Ok(())
}

// An object is listed at all its owners. What is listed stays.
fn list_at_all(lists: &mut OwnedLists, owners: &[Object], object: Object) -> Result<(), AllocError>
    requires { LeadToNodes lists.old.heads lists.old.nodes.items }
    ensures ok { OnOk result ((w : Object) → is_in owners.now w ≡ true → is_in (listed_in lists.new w) object ≡ true) }
    ensures stays { (w o : Object) → is_in (listed_in lists.old w) o ≡ true → is_in (listed_in lists.new w) o ≡ true }
    ensures succeeds { length owners.now ≤ lists_room lists.old → IsOk result }
    ensures room { lists_room lists.old ≤ lists_room lists.new + length owners.now }
    ensures chained { LeadToNodes lists.new.heads lists.new.nodes.items }
{
    for owner in owners {
        list_owned(lists, *owner, object)?;
    }
    Ok(())
}

// No owner has a node. Their entries stay.
fn unlink(heads: &mut PlacedTable<u32>)
    requires { ArePlaced heads.old }
    ensures none { (w : Object) → head_in heads.new w ≡ 0 }
    ensures heads { (w : Object) → has_head heads.new w ≡ has_head heads.old w }
    ensures room { table_room heads.old ≤ table_room heads.new }
    ensures placed { ArePlaced heads.new }
{
    for entry in heads.entries.iter_mut() {
        entry.value = 0;
    }
}

// An object is listed at an owner that has an entry, in no memory.
fn relist_owned(lists: &mut OwnedLists, owner: Object, object: Object)
    requires chained { LeadToNodes lists.old.heads lists.old.nodes.items }
    requires place { length lists.old.nodes.items < min (vec_capacity lists.old.nodes) 4294967295 }
    ensures listed { has_head lists.old.heads owner ≡ true → is_in (listed_in lists.new owner) object ≡ true }
    ensures stays { (w o : Object) → is_in (listed_in lists.old w) o ≡ true → is_in (listed_in lists.new w) o ≡ true }
    ensures heads { (w : Object) → has_head lists.new.heads w ≡ has_head lists.old.heads w }
    ensures few { length lists.new.nodes.items ≤ length lists.old.nodes.items + 1 }
    ensures capacity { vec_capacity lists.old.nodes ≤ vec_capacity lists.new.nodes }
    ensures room { table_room lists.old.heads ≤ table_room lists.new.heads }
    ensures chained { LeadToNodes lists.new.heads lists.new.nodes.items }
{
    if let Some(at) = lists.heads.place_of(owner) {
        let link = lists.nodes.len() as u32 + 1;
        let before = lists.heads.entries[at].value;
        lists.nodes.push(OwnedNode { object, before }).unwrap();
        lists.heads.entries[at].value = link;
    }
}

// An object is listed at those of its owners that have entries, in no memory.
fn relist_at_all(lists: &mut OwnedLists, owners: &[Object], object: Object)
    requires chained { LeadToNodes lists.old.heads lists.old.nodes.items }
    requires places { length lists.old.nodes.items + length owners.now ≤ min (vec_capacity lists.old.nodes) 4294967295 }
    ensures listed { (w : Object) → has_head lists.old.heads w ≡ true → is_in owners.now w ≡ true → is_in (listed_in lists.new w) object ≡ true }
    ensures stays { (w o : Object) → is_in (listed_in lists.old w) o ≡ true → is_in (listed_in lists.new w) o ≡ true }
    ensures heads { (w : Object) → has_head lists.new.heads w ≡ has_head lists.old.heads w }
    ensures few { length lists.new.nodes.items ≤ length lists.old.nodes.items + length owners.now }
    ensures capacity { vec_capacity lists.old.nodes ≤ vec_capacity lists.new.nodes }
    ensures room { table_room lists.old.heads ≤ table_room lists.new.heads }
    ensures chained { LeadToNodes lists.new.heads lists.new.nodes.items }
{
    for owner in owners {
        relist_owned(lists, *owner, object);
    }
}

// Whether these births have no more owners than so many, all together.
fn have_at_most(births: &[Placed<BirthEntry>], n: usize) -> bool
    ensures { result ≡ true → links_of births.now ≤ n }
{
    let mut left = n;
    for birth in births {
        let count = birth.value.owners.as_slice().len();
        if count > left {
            return false;
        }
        left -= count;
    }
    true
}

// The lists of these births alone, in the memory of those that stand. An owner without an entry has no list, and gets none.
fn relist(lists: &mut OwnedLists, births: &[Placed<BirthEntry>])
    requires chained { LeadToNodes lists.old.heads lists.old.nodes.items }
    requires few { links_of births.now ≤ min (length lists.old.nodes.items) 4294967295 }
    ensures listed { (w o : Object) → has_head lists.old.heads w ≡ true → is_in (owners_in (births_shown births.now) o) w ≡ true → is_in (listed_in lists.new w) o ≡ true }
    ensures few { length lists.new.nodes.items ≤ links_of births.now }
    ensures room { lists_room lists.old ≤ lists_room lists.new }
    ensures chained { LeadToNodes lists.new.heads lists.new.nodes.items }
{
    lists.nodes.clear();
    unlink(&mut lists.heads);
    for birth in births {
        relist_at_all(lists, birth.value.owners.as_slice(), birth.object);
    }
    // Births are gone through each time, so as many nodes are to be added before the next.
    let listed = lists.nodes.len().saturating_mul(2);
    lists.full = listed.max(births.len()).max(SHORTEST);
}

// Where the nodes are full and have no room for so many more, only what lives stays listed. Takes no memory.
fn make_room(lists: &mut OwnedLists, births: &BirthTable, n: usize)
    requires { LeadToNodes lists.old.heads lists.old.nodes.items }
    ensures stays { (w o : Object) → is_in (owners_in births.now.births o) w ≡ true → is_in (listed_in lists.old w) o ≡ true → is_in (listed_in lists.new w) o ≡ true }
    ensures room { lists_room lists.old ≤ lists_room lists.new }
    ensures chained { LeadToNodes lists.new.heads lists.new.nodes.items }
{
    let entries = births.entries();
    let most = lists.nodes.len().min(MOST);
    if are_full(lists, n) && have_at_most(entries, most) {
        relist(lists, entries);
    }
}

/// Makes room for so many further entries, each at another owner. Where the nodes are full and have no room, only what lives stays listed,
/// also after an error. No room is lost.
pub fn reserve_lists(
    lists: &mut OwnedLists,
    births: &BirthTable,
    n: usize,
) -> Result<(), AllocError>
    requires { LeadToNodes lists.old.heads lists.old.nodes.items }
    ensures stays { (w o : Object) → is_in (owners_in births.now.births o) w ≡ true → is_in (listed_in lists.old w) o ≡ true → is_in (listed_in lists.new w) o ≡ true }
    ensures ok { OnOk result (n ≤ lists_room lists.new) }
    ensures room { lists_room lists.old ≤ lists_room lists.new }
    ensures chained { LeadToNodes lists.new.heads lists.new.nodes.items }
{
    make_room(lists, births, n);
    lists.reserve(n)
}

/// An object is listed at each of its owners, in no memory where there is room.
pub fn list_at_each(
    lists: &mut OwnedLists,
    births: &BirthTable,
    owners: &[Object],
    object: Object,
) -> Result<(), AllocError>
    requires { LeadToNodes lists.old.heads lists.old.nodes.items }
    ensures ok { OnOk result ((w : Object) → is_in owners.now w ≡ true → is_in (listed_in lists.new w) object ≡ true) }
    ensures stays { (w o : Object) → is_in (owners_in births.now.births o) w ≡ true → is_in (listed_in lists.old w) o ≡ true → is_in (listed_in lists.new w) o ≡ true }
    ensures succeeds { length owners.now ≤ lists_room lists.old → IsOk result }
    ensures room { lists_room lists.old ≤ lists_room lists.new + length owners.now }
    ensures chained { LeadToNodes lists.new.heads lists.new.nodes.items }
{
    make_room(lists, births, owners.len());
    list_at_all(lists, owners, object)
}
