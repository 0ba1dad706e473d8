//! What the parts of a chain keep.
ghost use Rattle.std.specs.Prelude.{◌≡◌, [], IfOk, OnOk, map};
ghost use Rattle.layer_model.specs.Walks.{new_part};
ghost use Rattle.dispatch_chain.specs.Room.{AllCanOpen, AllHaveBirths, KeepRooms, room_of};
ghost use Rattle.dispatch_chain.specs.Rows.{kinds_placed};
ghost use Rattle.dispatch_chain.specs.Seats.{seat_of, seats_from, state_of};

use crate::part::{Part, copy_part, new_part, reserve_part};
use chain_build::Chain;
use command_tables::NoMemory;
use object_model::PartKind;
use std::alloc::Global;
use std::marker::Model;

/// What the parts of a chain keep, from the application down. Part k of the chain, from 1, names the place k in its findings. Contracts
/// see besides for how much each part has room.
pub struct LayerStates {
    pub(crate) alloc: Global,
    pub(crate) parts: Vec<Part>,
}

impl Drop for LayerStates {
    fn drop(self) {
        let LayerStates {
            alloc: _alloc,
            parts: _parts,
        } = self;
    }
}

impl Model for LayerStates {
    ghost use Rattle.std.specs.Prelude.{map};
    ghost use Rattle.dispatch_chain.specs.Kept.{AreInOrder};
    ghost use Rattle.dispatch_chain.specs.Room.{ChainState, room_of};
    ghost use Rattle.dispatch_chain.specs.Seats.{state_of};

    ghost Value = { ChainState };

    ghost view = { λ s. record { kept = map state_of s.parts.items; rooms = map room_of s.parts.items } };

    ghost invariant = { λ s. AreInOrder s.parts.items };
}

// Parts of these kinds, from place 1 on, that were given nothing yet.
fn new_parts(alloc: Global, placed: &[(PartKind, u32)]) -> Result<Vec<Part>, NoMemory>
    ensures states { IfOk result (λ parts. map state_of parts.items ≡ map new_part (kinds_placed placed.now)) }
    ensures seats { IfOk result (λ parts. map seat_of parts.items ≡ seats_from 1 (kinds_placed placed.now)) }
{
    let mut parts = Vec::new(alloc);
    let mut place = 0u32;
    for part in placed {
        place = place.checked_add(1).ok_or(NoMemory)?;
        parts.push(new_part(alloc, part.0, place))?;
    }
    Ok(parts)
}

// Parts of their own that keep the same, at the same places.
#[tactic(auto, using(crate::proofs::Copies::states_more, crate::proofs::Copies::states_all, crate::proofs::Copies::seats_more, crate::proofs::Copies::seats_all))]
fn copy_parts(alloc: Global, parts: &[Part]) -> Result<Vec<Part>, NoMemory>
    ensures states { IfOk result (λ copy. map state_of copy.items ≡ map state_of parts.now) }
    ensures seats { IfOk result (λ copy. map seat_of copy.items ≡ map seat_of parts.now) }
{
    let mut copy = Vec::new(alloc);
    for i in 0..parts.len() {
        copy.push(copy_part(&parts[i])?)?;
    }
    Ok(copy)
}

// Each part gets room for so many further births, and a threads part for so many further open calls with so many uses in all.
#[tactic(auto, using(crate::proofs::Reserved::states_set, crate::proofs::Reserved::seats_set, crate::proofs::Reserved::rooms_set))]
fn reserve_parts(parts: &mut [Part], births: usize, uses: usize) -> Result<(), NoMemory>
    ensures states { map state_of parts.new ≡ map state_of parts.old }
    ensures seats { map seat_of parts.new ≡ map seat_of parts.old }
    ensures rooms { KeepRooms (map room_of parts.old) (map room_of parts.new) }
    ensures births { OnOk result (AllHaveBirths births (map room_of parts.new)) }
    ensures uses { OnOk result (AllCanOpen uses (map state_of parts.old) (map room_of parts.new)) }
{
    for i in 0..parts.len() {
        reserve_part(&mut parts[i], births, uses)?;
    }
    Ok(())
}

impl LayerStates {
    /// There is no part. Takes no memory.
    pub fn none(alloc: Global) -> LayerStates
        ensures { result.kept ≡ [] }
    {
        LayerStates {
            alloc,
            parts: Vec::new(alloc),
        }
    }

    /// Each part of a chain has been given nothing yet.
    pub fn new(alloc: Global, chain: &Chain) -> Result<LayerStates, NoMemory>
        ensures { IfOk result (λ states. states.kept ≡ map new_part (kinds_placed chain.now.parts.items)) }
    {
        let parts = new_parts(alloc, &chain.parts)?;
        Ok(LayerStates { alloc, parts })
    }

    /// Makes room in each part for the births of so many further objects, and in each threads part for so many further open calls, with
    /// so many uses in all. What closes gives its room back. After `NoMemory` what is kept is as before, and no room is lost.
    pub fn reserve(&mut self, births: usize, uses: usize) -> Result<(), NoMemory>
        ensures kept { self.new.kept ≡ self.old.kept }
        ensures rooms { KeepRooms self.old.rooms self.new.rooms }
        ensures births { OnOk result (AllHaveBirths births self.new.rooms) }
        ensures uses { OnOk result (AllCanOpen uses self.old.kept self.new.rooms) }
    {
        reserve_parts(&mut self.parts, births, uses)
    }

    /// States of their own: each part keeps the same at the same place. Of room nothing is said.
    pub fn copy(&self) -> Result<LayerStates, NoMemory>
        ensures { IfOk result (λ states. states.kept ≡ self.now.kept) }
    {
        let parts = copy_parts(self.alloc, &self.parts)?;
        Ok(LayerStates {
            alloc: self.alloc,
            parts,
        })
    }
}
