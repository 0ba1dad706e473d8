// Where pairs stand, by their ids.
ghost use Rattle.std.specs.Prelude.{◌≡◌, ◌<◌, ◌+◌, ℕ, [], slice_index, IfOk};
ghost use Rattle.std.specs.Bool.{OnTrue};
ghost use Rattle.handle_map.specs.Index.{AllLinksStay, LinksStay, link_in};

use crate::hints::is_numbered_apart;
use command_tables::{NoMemory, ObjectType};
use std::alloc::Global;

/// For ids of both kinds one more than the place of the pair of the id that was noted first, or 0. Pairs of several types share a row, so
/// that whoever asks looks there before he believes it.
#[derive(Drop)]
pub struct PlaceRows {
    pub apart: Vec<u32>,
    pub others: Vec<u32>,
}

// What a row notes for an id; nothing beyond its end.
#[tactic(auto, using(crate::proofs::Listed::got_there, crate::proofs::Listed::got_past))]
fn link_at(row: &[u32], id: u64) -> u32
    ensures { result ≡ slice_index row.now id }
{
    if id < row.len() as u64 {
        row[id as usize]
    } else {
        0
    }
}

// Fills a row up to an id with links to nothing, as long as ids are about as dense as links. Where memory is wanting it stays short.
fn fill_up(row: &mut Vec<u32>, id: u64, link: u32)
    ensures { (i : ℕ) → slice_index row.new.items i ≡ slice_index row.old.items i }
{
    if id < row.len() as u64 || id / 4 > link as u64 + 16 {
        return;
    }
    let _ = row.resize(id as usize + 1, 0);
}

// Notes a link, if the row can hold the id and notes none for it yet; says whether it did.
fn note_at(row: &mut Vec<u32>, id: u64, link: u32) -> bool
    ensures noted { OnTrue result (slice_index row.new.items id ≡ link) }
    ensures kept { LinksStay row.old.items row.new.items }
{
    fill_up(row, id, link);
    if id >= row.len() as u64 || row[id as usize] != 0 {
        return false;
    }
    row[id as usize] = link;
    true
}

// Makes room for a row of this length, where there is memory.
fn make_room(row: &mut Vec<u32>, count: usize)
    ensures { row.new.items ≡ row.old.items }
{
    let _ = row.reserve(count.saturating_sub(row.len()));
}

impl PlaceRows {
    pub fn new(alloc: Global) -> PlaceRows
        ensures apart { result.apart.items ≡ [] }
        ensures others { result.others.items ≡ [] }
    {
        PlaceRows {
            apart: Vec::new(alloc),
            others: Vec::new(alloc),
        }
    }

    pub fn copy(&self) -> Result<PlaceRows, NoMemory>
        ensures apart { IfOk result (λ rows. rows.apart.items ≡ self.now.apart.items) }
        ensures others { IfOk result (λ rows. rows.others.items ≡ self.now.others.items) }
    {
        let alloc = *self.apart.allocator();
        Ok(PlaceRows {
            apart: Vec::from_slice(alloc, &self.apart)?,
            others: Vec::from_slice(alloc, &self.others)?,
        })
    }

    /// Room for so many further ids that follow the greatest in either row. Where memory is wanting there may be less.
    pub fn reserve(&mut self, n: usize)
        ensures apart { self.new.apart.items ≡ self.old.apart.items }
        ensures others { self.new.others.items ≡ self.old.others.items }
    {
        // Ids are numbered from 1 on, and both kinds may be numbered together.
        let count = self.apart.len().max(self.others.len()).max(1);
        make_room(&mut self.apart, count.saturating_add(n));
        make_room(&mut self.others, count.saturating_add(n));
    }

    /// What is noted for an id of this type's kind.
    pub fn link(&self, ty: ObjectType, id: u64) -> u32
        ensures { result ≡ link_in self.now ty id }
    {
        if is_numbered_apart(ty) {
            link_at(&self.apart, id)
        } else {
            link_at(&self.others, id)
        }
    }

    /// Notes the place of a pair, if its row can hold the id and notes none for it yet; says whether it did.
    pub fn note(&mut self, ty: ObjectType, id: u64, place: usize) -> bool
        requires { place < 4294967295 }
        ensures noted { OnTrue result (link_in self.new ty id ≡ place + 1) }
        ensures kept { AllLinksStay self.old self.new }
    {
        let link = place as u32 + 1;
        if is_numbered_apart(ty) {
            note_at(&mut self.apart, id, link)
        } else {
            note_at(&mut self.others, id, link)
        }
    }
}
