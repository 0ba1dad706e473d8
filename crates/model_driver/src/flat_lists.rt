//! Lists one behind another, in two vectors.
ghost use Rattle.std.specs.Prelude.{◌≡◌, ◌≤◌, ◌<◌, ◌+◌, ◌-◌, ◌++◌, ◌∷◌, ◌^◌, [], drop, length, slice_index, take, OnOk};
ghost use Rattle.command_tables.specs.Handles.{list_at};
ghost use Rattle.model_driver.specs.Flat.{start_from};

use command_tables::NoMemory;
use std::alloc::Global;
use std::marker::Model;

/// A list of lists. Contracts see besides how many elements there are in all, and how many lists and elements more can be held with
/// no further memory.
#[derive(Drop)]
pub struct FlatLists<T: Copy> {
    // Where each list ends; it starts where the one before it ends.
    ends: Vec<usize>,
    items: Vec<T>,
}

impl<T: Copy> Model for FlatLists<T> {
    ghost use Rattle.std.specs.Prelude.{◌-◌, length, vec_capacity, vec_len};
    ghost use Rattle.model_driver.specs.Flat.{FlatState, AreEnds, cut_at};

    ghost Value = { FlatState T };

    ghost view = { λ f. record { lists = cut_at 0 f.ends.items f.items.items; count = length f.items.items; slots = vec_capacity f.ends - vec_len f.ends; room = vec_capacity f.items - vec_len f.items } };

    ghost invariant = { λ f. AreEnds 0 f.ends.items (length f.items.items) };
}

#[tactic(auto, using(crate::proofs::Flats::start_first, crate::proofs::Flats::start_later))]
fn start_of(ends: &[usize], i: usize) -> usize
    requires { i < length ends.now }
    ensures { result ≡ start_from 0 ends.now i }
{
    if i == 0 { 0 } else { ends[i - 1] }
}

// The elements of a list.
fn part_of<'a, T>(ends: &[usize], items: &'a [T], i: usize) -> &'a [T]
    requires place { i < length ends.now }
    requires to { start_from 0 ends.now i ≤ slice_index ends.now i }
    requires end { slice_index ends.now i ≤ length items.now }
    ensures { result.now ≡ take (slice_index ends.now i - start_from 0 ends.now i) (drop (start_from 0 ends.now i) items.now) }
{
    let start = start_of(ends, i);
    let end = ends[i];
    &items[start..end]
}

impl<T: Copy> FlatLists<T> {
    pub fn new(alloc: Global) -> FlatLists<T>
        ensures lists { result.lists ≡ [] }
        ensures count { result.count ≡ 0 }
    {
        FlatLists {
            ends: Vec::new(alloc),
            items: Vec::new(alloc),
        }
    }

    /// Makes room for so many lists more, with so many elements in all. Even after `NoMemory` no room is lost.
    pub fn reserve(&mut self, lists: usize, items: usize) -> Result<(), NoMemory>
        ensures lists { self.new.lists ≡ self.old.lists }
        ensures count { self.new.count ≡ self.old.count }
        ensures slots { OnOk result (lists ≤ self.new.slots) }
        ensures room { OnOk result (items ≤ self.new.room) }
        ensures kept_slots { self.old.slots ≤ self.new.slots }
        ensures kept_room { self.old.room ≤ self.new.room }
    {
        self.ends.reserve(lists)?;
        self.items.reserve(items)?;
        Ok(())
    }

    /// Adds a list behind the others. It takes no memory.
    pub fn push_reserved(&mut self, list: &[T])
        requires slots { 1 ≤ self.old.slots }
        requires room { length list.now ≤ self.old.room }
        ensures lists { self.new.lists ≡ self.old.lists ++ list.now ∷ [] }
        ensures count { self.new.count ≡ self.old.count + length list.now }
        ensures slots { self.old.slots ≤ self.new.slots + 1 }
        ensures room { self.old.room ≤ self.new.room + length list.now }
        ensures few { length self.new.lists < 2 ^ 64 }
    {
        self.items.extend_from_slice(list).unwrap();
        self.ends.push_reserved(self.items.len());
    }

    /// How many elements there are in all.
    pub fn count(&self) -> usize
        ensures { result ≡ self.now.count }
    {
        self.items.len()
    }

    /// The list at a place, from 0.
    pub fn list(&self, i: usize) -> &[T]
        requires { i < length self.now.lists }
        ensures { result.now ≡ list_at self.now.lists i }
    {
        part_of(&self.ends, &self.items, i)
    }
}
