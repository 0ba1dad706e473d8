// Where entries may stand, so that most are found in one look.
ghost use Rattle.std.specs.Prelude.{◌≡◌};
ghost use Rattle.handle_map.specs.Bounds.{is_numbered_apart};

use command_tables::{NoMemory, ObjectType};
use std::alloc::Global;

/// Whether ids of this type are mostly numbered apart from those of others: a chain's end numbers dispatchable handles and surfaces, and
/// its layers number the rest.
#[tactic(auto, unfolding(command_tables::specs::Tests::same_type))]
pub fn is_numbered_apart(ty: ObjectType) -> bool
    ensures { result ≡ is_numbered_apart ty }
{
    matches!(
        ty,
        ObjectType::Instance
            | ObjectType::PhysicalDevice
            | ObjectType::Device
            | ObjectType::Queue
            | ObjectType::CommandBuffer
            | ObjectType::Surface
    )
}

/// For ids of both kinds one more than the place where an entry of the id may stand, or 0. Whoever asks looks there before he believes it,
/// so that no answer is wrong, and any can be slow.
#[derive(Drop)]
pub struct Hints {
    apart: Vec<u32>,
    others: Vec<u32>,
    // How many further entries are noted in the room that was made.
    reserved: usize,
}

fn hint_at(links: &[u32], id: u64) -> Option<u32> {
    if id < links.len() as u64 {
        return Some(links[id as usize]);
    }
    None
}

// Makes room up to an id, as long as ids are about as dense as links.
fn make_room(links: &mut Vec<u32>, id: u64, link: u64) -> Result<(), NoMemory> {
    let count = links.len() as u64;
    if id < count || id / 4 > link.saturating_add(16) {
        return Ok(());
    }
    let Ok(more) = usize::try_from(id - count) else {
        return Err(NoMemory);
    };
    links.reserve(more.saturating_add(1))?;
    Ok(())
}

// Fills up to an id, where there is room.
fn fill_up(links: &mut Vec<u32>, id: u64) -> Result<(), NoMemory> {
    if id >= links.capacity() as u64 {
        return Ok(());
    }
    for _ in links.len() as u64..id + 1 {
        links.push(0)?;
    }
    Ok(())
}

// The first that is noted at an id stays.
fn note_at(links: &mut [u32], id: u64, link: u32) {
    if id < links.len() as u64 && links[id as usize] == 0 {
        links[id as usize] = link;
    }
}

impl Hints {
    pub fn new(alloc: Global) -> Hints {
        Hints {
            apart: Vec::new(alloc),
            others: Vec::new(alloc),
            reserved: 0,
        }
    }

    pub fn copy(&self, alloc: Global) -> Result<Hints, NoMemory> {
        Ok(Hints {
            apart: Vec::from_slice(alloc, &self.apart)?,
            others: Vec::from_slice(alloc, &self.others)?,
            reserved: 0,
        })
    }

    /// So many further entries take no further memory, beside so many that stand and whose greatest id this is. Where memory is wanting,
    /// they are found without hints.
    pub fn reserve(&mut self, n: usize, count: usize, greatest: u64) {
        if n <= self.reserved {
            return;
        }
        let id = greatest.saturating_add(n as u64);
        let link = (count as u64).saturating_add(n as u64);
        let _ = make_room(&mut self.apart, id, link);
        let _ = make_room(&mut self.others, id, link);
        self.reserved = n;
    }

    /// One more than the place where an entry may stand; where nothing was noted, that of a dense id.
    pub fn link(&self, ty: ObjectType, id: u64) -> u64 {
        let links = if is_numbered_apart(ty) {
            self.apart.as_slice()
        } else {
            self.others.as_slice()
        };
        match hint_at(links, id) {
            None | Some(0) => id,
            Some(link) => link as u64,
        }
    }

    /// Notes where an entry stands, if it isn't the place of a dense id. Where memory is wanting, or room was made without this id, it is
    /// found without a hint.
    pub fn note(&mut self, ty: ObjectType, id: u64, place: usize) {
        let is_reserved = self.reserved > 0;
        self.reserved = self.reserved.saturating_sub(1);
        let Ok(link) = u32::try_from(place.saturating_add(1)) else {
            return;
        };
        if link as u64 == id {
            return;
        }
        let links = if is_numbered_apart(ty) {
            &mut self.apart
        } else {
            &mut self.others
        };
        if !is_reserved {
            let _ = make_room(links, id, link as u64);
        }
        let _ = fill_up(links, id);
        note_at(links.as_mut_slice(), id, link);
    }
}
