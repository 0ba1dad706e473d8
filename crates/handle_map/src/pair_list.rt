//! Pairs of a type and an id, as short as they can be kept.
ghost use Rattle.std.specs.Prelude.{◌≡◌, ◌≤◌, ◌<◌, ◌+◌, ◌-◌, ◌++◌, ◌∷◌, [], length, slice_get, Some, IfOk, IsOk, OnOk};
ghost use Rattle.handle_map.specs.Pairs.{pair};
ghost use Rattle.handle_map.specs.Index.{stands_before};

use crate::kept_pair::{KeptPair, keep_id, read_id};
use command_tables::{NoMemory, ObjectType};
use std::alloc::Global;
use std::marker::Model;

// A place has 32 bits.
const MOST: usize = 4294967295;

/// Pairs in order of insertion, of which any may stand twice.
#[derive(Drop)]
pub struct PairList {
    kept: Vec<KeptPair>,
    // The ids that have more than 32 bits.
    wide: Vec<u64>,
}

impl Model for PairList {
    ghost use Rattle.std.specs.Prelude.{◌-◌, length, min, vec_capacity};
    ghost use Rattle.handle_map.specs.Pairs.{SetState};
    ghost use Rattle.handle_map.specs.KeptPairs.{IsPairList, pairs_in};

    ghost Value = { SetState };

    ghost view = { λ l. record { pairs = pairs_in l.wide.items l.kept.items; spare = min (min (vec_capacity l.kept) 4294967295 - length l.kept.items) (vec_capacity l.wide - length l.wide.items) } };

    ghost invariant = { λ l. IsPairList l.wide.items l.kept.items };
}

impl PairList {
    pub fn new(alloc: Global) -> PairList
        ensures { result.pairs ≡ [] }
    {
        PairList {
            kept: Vec::new(alloc),
            wide: Vec::new(alloc),
        }
    }

    /// The same pairs once more. Of room nothing is said.
    pub fn copy(&self) -> Result<PairList, NoMemory>
        ensures { IfOk result (λ list. list.pairs ≡ self.now.pairs) }
    {
        let alloc = *self.kept.allocator();
        Ok(PairList {
            kept: Vec::from_slice(alloc, &self.kept)?,
            wide: Vec::from_slice(alloc, &self.wide)?,
        })
    }

    /// Makes room for so many further pairs, where their places have 32 bits. Takes no memory where there is room.
    pub fn reserve(&mut self, n: usize) -> Result<(), NoMemory>
        ensures pairs { self.new.pairs ≡ self.old.pairs }
        ensures ok { OnOk result (n ≤ self.new.spare) }
        ensures few { OnOk result (n ≤ 4294967295 - length self.old.pairs) }
        ensures spare { self.old.spare ≤ self.new.spare }
        ensures succeeds { 1 ≤ self.old.spare → n ≤ self.old.spare → IsOk result }
    {
        if n > MOST.saturating_sub(self.kept.len()) {
            return Err(NoMemory);
        }
        self.kept.reserve(n)?;
        Ok(self.wide.reserve(n)?)
    }

    /// Adds a pair, which takes no memory.
    pub fn push(&mut self, ty: ObjectType, id: u64)
        requires { 1 ≤ self.old.spare }
        ensures pairs { self.new.pairs ≡ self.old.pairs ++ pair ty id ∷ [] }
        ensures spare { self.old.spare ≤ self.new.spare + 1 }
    {
        let (number, is_wide) = keep_id(&mut self.wide, id);
        self.kept
            .push(KeptPair {
                number,
                ty,
                is_wide,
            })
            .unwrap();
    }

    /// The pair at a place, counted from 0.
    #[tactic(auto, using(crate::proofs::Listed::pairs_length, crate::proofs::Listed::pair_there, crate::proofs::Listed::within_there))]
    pub fn pair(&self, place: usize) -> (ObjectType, u64)
        requires { place < length self.now.pairs }
        ensures { slice_get self.now.pairs place ≡ Some (pair result.0 result.1) }
    {
        let kept = self.kept[place];
        (kept.ty, read_id(&self.wide, kept.number, kept.is_wide))
    }

    /// Whether a pair stands before a link, which is one more than its place.
    #[tactic(auto, using(crate::proofs::Indexed::linked_there, crate::proofs::Indexed::linked_past), unfolding(command_tables::specs::Tests::same_type))]
    pub fn stands_before(&self, link: usize, ty: ObjectType, id: u64) -> bool
        ensures { result ≡ stands_before self.now.pairs link ty id }
    {
        if link == 0 || link > self.len() {
            return false;
        }
        let (found, number) = self.pair(link - 1);
        found == ty && number == id
    }

    #[tactic(auto, using(crate::proofs::Listed::pairs_length))]
    pub fn len(&self) -> usize
        ensures { result ≡ length self.now.pairs }
    {
        self.kept.len()
    }
}
