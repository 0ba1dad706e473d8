//! The links of all records, in 4 bytes for what owns nothing.
ghost use Rattle.std.specs.Prelude.{◌≡◌, ◌≤◌, ◌<◌, ◌+◌, ◌-◌, ◌++◌, [], if◌then◌else◌, length, min, replicate, slice_index_or, vec_capacity, true, IfOk, IsOk, OnOk};
ghost use Rattle.object_records.specs.Links.{AreFew, HasChild, last_of, linked, unlinked, with_linked};
ghost use Rattle.object_records.specs.Owning.{links_read, no_owned};
ghost use Rattle.object_records.specs.Table.{before_owned};

use crate::kept_owner::KeptOwner;
use crate::links::{Links, one_if};
use crate::record::ObjectRecord;
use command_tables::NoMemory;
use std::alloc::Global;
use std::marker::Model;

// A link to a record, one more than its place, has 32 bits.
const MOST: usize = 4294967295;

/// What is kept at an object of those that it owns, in 8 bytes.
#[derive(Clone, Copy)]
pub struct Owned {
    /// One more than the place of the latest record that has this one as its owner; 0 where there is none.
    pub last: u32,
    /// How many created objects live and have this one as their owner.
    pub children: u32,
}

const _: () = prove!(size_of::<Owned>() == 8);

/// The links of all records.
pub struct LinkTable {
    // For each record one more than the place of the record before it that has the same owner; 0 where there is none.
    previous: Vec<u32>,
    // What each record owns. Owners stand at the front of most traces: behind the latest owner there is nothing.
    owned: Vec<Owned>,
}

impl Drop for LinkTable {
    fn drop(self) {
        let LinkTable {
            previous: _previous,
            owned: _owned,
        } = self;
    }
}

impl Model for LinkTable {
    ghost use Rattle.std.specs.Prelude.{◌≤◌, ◌-◌, length, min, vec_capacity};
    ghost use Rattle.object_records.specs.Owning.{LinkState, links_read};

    ghost Value = { LinkState };

    ghost view = { λ t. record { links = links_read t.previous.items t.owned.items; spare = min (min (vec_capacity t.previous) (vec_capacity t.owned)) 4294967295 - length t.previous.items } };

    ghost invariant = { λ t. length t.owned.items ≤ length t.previous.items };
}

// What is owned at a place.
#[tactic(auto, using(crate::proofs::Padding::got_there, crate::proofs::Padding::got_past))]
fn owned_at(owned: &[Owned], place: usize) -> Owned
    ensures { result ≡ slice_index_or owned.now place no_owned }
{
    if place < owned.len() {
        owned[place]
    } else {
        Owned {
            last: 0,
            children: 0,
        }
    }
}

// There are so many at least, of which the further ones own nothing.
#[tactic(auto, using(crate::proofs::Owning::none_filled))]
fn fill_up(owned: &mut Vec<Owned>, count: usize)
    requires room { count ≤ vec_capacity owned.old }
    ensures items { owned.new.items ≡ owned.old.items ++ replicate (count - length owned.old.items) no_owned }
    ensures room { vec_capacity owned.old ≤ vec_capacity owned.new }
{
    if owned.len() < count {
        let none = Owned {
            last: 0,
            children: 0,
        };
        owned.resize(count, none).unwrap();
    }
}

// One more than the place of a further record behind so many.
fn link_behind(count: usize) -> u32
    requires { count < 4294967295 }
    ensures { result ≡ count + 1 }
{
    count as u32 + 1
}

impl LinkTable {
    pub fn new(alloc: Global) -> LinkTable
        ensures { result.links ≡ [] }
    {
        LinkTable {
            previous: Vec::new(alloc),
            owned: Vec::new(alloc),
        }
    }

    /// The links of the record at a place.
    #[tactic(auto, using(crate::proofs::Owning::links_length))]
    pub fn get(&self, place: usize) -> Links
        requires { place < length self.now.links }
        ensures { result ≡ slice_index_or self.now.links place result }
    {
        let owned = owned_at(&self.owned, place);
        Links {
            last_owned: owned.last,
            previous: self.previous[place],
            children: owned.children,
        }
    }

    /// Links of their own, the same.
    pub fn copy(&self) -> Result<LinkTable, NoMemory>
        ensures { IfOk result (λ table. table.links ≡ self.now.links) }
    {
        let alloc = *self.previous.allocator();
        Ok(LinkTable {
            previous: Vec::from_slice(alloc, &self.previous)?,
            owned: Vec::from_slice(alloc, &self.owned)?,
        })
    }

    /// Makes room for the links of so many further records, where links to them fit.
    pub fn reserve(&mut self, n: usize) -> Result<(), NoMemory>
        ensures links { self.new.links ≡ self.old.links }
        ensures ok { OnOk result (n ≤ self.new.spare) }
        ensures spare { self.old.spare ≤ self.new.spare }
        ensures succeeds { 1 ≤ n → n ≤ self.old.spare → IsOk result }
    {
        if n > MOST.saturating_sub(self.previous.len()) {
            return Err(NoMemory);
        }
        self.previous.reserve(n)?;
        let more = self.previous.len() - self.owned.len() + n;
        Ok(self.owned.reserve(more)?)
    }

    // The owner of a further record links to it, and counts it where it is a child. Tells to which record it linked before.
    fn link_owner(&mut self, owner: KeptOwner, link: u32, is_child: bool) -> u32
        requires within { before_owned owner ≤ length self.old.links }
        requires few { AreFew self.old.links }
        requires room { 1 ≤ self.old.spare }
        ensures links { self.new.links ≡ linked self.old.links owner link is_child }
        ensures spare { self.old.spare ≤ self.new.spare }
        ensures previous { result ≡ last_of self.old.links owner }
    {
        match owner {
            KeptOwner::Nobody | KeptOwner::Unborn(_) => 0,
            KeptOwner::At(place) => {
                fill_up(&mut self.owned, place + 1);
                let above = self.owned[place];
                self.owned[place] = Owned {
                    last: link,
                    children: above.children + one_if(is_child),
                };
                above.last
            }
        }
    }

    /// A further record with this owner gets its links, and is counted where it is a child.
    pub fn add(&mut self, owner: KeptOwner, is_child: bool)
        requires within { before_owned owner ≤ length self.old.links }
        requires few { AreFew self.old.links }
        requires room { 1 ≤ self.old.spare }
        ensures links { self.new.links ≡ with_linked self.old.links owner is_child }
        ensures spare { self.old.spare ≤ self.new.spare + 1 }
    {
        let link = link_behind(self.previous.len());
        let previous = self.link_owner(owner, link, is_child);
        self.previous.push(previous).unwrap();
    }

    // A child of an owner lives no longer.
    fn unlink_child(&mut self, owner: KeptOwner)
        requires { HasChild self.old.links owner }
        ensures links { self.new.links ≡ unlinked self.old.links owner }
        ensures spare { self.new.spare ≡ self.old.spare }
    {
        match owner {
            KeptOwner::Nobody | KeptOwner::Unborn(_) => {}
            KeptOwner::At(place) => {
                if place < self.owned.len() {
                    let above = self.owned[place];
                    self.owned[place] = Owned {
                        children: above.children - 1,
                        ..above
                    };
                }
            }
        }
    }

    /// The object of a record lives no longer: its owner counts it no more, where it was a child.
    pub fn unlink(&mut self, ended: ObjectRecord)
        requires { ended.is_created ≡ true → HasChild self.old.links ended.owner }
        ensures links { self.new.links ≡ (if ended.is_created then unlinked self.old.links ended.owner else self.old.links) }
        ensures spare { self.new.spare ≡ self.old.spare }
    {
        if ended.is_created {
            self.unlink_child(ended.owner);
        }
    }
}
