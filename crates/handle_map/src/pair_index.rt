//! Pairs of a type and an id, found by their ids where these are dense.
ghost use Rattle.std.specs.Prelude.{◌≡◌, ◌≤◌, ◌<◌, ◌+◌, ◌++◌, ◌∷◌, [], length, slice_get, false, Some, IfOk, IfSome, IsOk, OnOk, OnErr};
ghost use Rattle.handle_map.specs.Index.{AllLinksStay, IsNoted, place_in_map};
ghost use Rattle.handle_map.specs.Pairs.{AreDistinct, has_pair, pair, place_of};

use crate::map::HandleMap;
use crate::pair_list::PairList;
use crate::place_rows::PlaceRows;
use command_tables::{NoMemory, ObjectType};
use std::alloc::Global;
use std::marker::Model;

/// Pairs of a type and an id, each once, in order of insertion, 4,294,967,295 at most. Each takes 12 bytes where ids are dense, 8 for the
/// pair and 4 for its row. Contracts see besides how many further ones can be held with no further memory.
pub struct PairIndex {
    list: PairList,
    rows: PlaceRows,
    // The places of the pairs that no row notes: those whose ids aren't dense, and those that share their id with an earlier one. There may
    // be many, and many chains keep the way to each short.
    sparse: HandleMap<4096>,
}

impl Drop for PairIndex {
    fn drop(self) {
        let PairIndex {
            list: _list,
            rows: _rows,
            sparse: _sparse,
        } = self;
    }
}

impl Model for PairIndex {
    ghost use Rattle.std.specs.Prelude.{min};
    ghost use Rattle.handle_map.specs.Pairs.{SetState};
    ghost use Rattle.handle_map.specs.Index.{IsIndex};

    ghost Value = { SetState };

    ghost view = { λ x. record { pairs = x.list.pairs; spare = min x.list.spare (min x.sparse.spare x.sparse.room) } };

    ghost invariant = { λ x. IsIndex x.rows x.sparse.entries x.list.pairs };
}

// The place that the map has for a pair.
fn place_in(sparse: &HandleMap<4096>, ty: ObjectType, id: u64) -> Option<usize>
    ensures { result ≡ place_in_map sparse.now.entries ty id }
{
    let place = sparse.get(ty, id)?.first()?;
    Some(*place as usize)
}

// Notes the place of a further pair in its row, or else puts it in the map.
#[tactic(auto, using(crate::proofs::Indexed::row_noted, crate::proofs::Indexed::map_noted))]
fn note_place(
    rows: &mut PlaceRows,
    sparse: &mut HandleMap<4096>,
    ty: ObjectType,
    id: u64,
    place: usize,
) -> Result<(), NoMemory>
    requires { place < 4294967295 }
    ensures kept { AllLinksStay rows.old rows.new }
    ensures noted { OnOk result (IsNoted rows.new sparse.old.entries sparse.new.entries (pair ty id) place) }
    ensures err { OnErr result (sparse.new.entries ≡ sparse.old.entries) }
    ensures succeeds { 1 ≤ sparse.old.spare → 1 ≤ sparse.old.room → IsOk result }
    ensures spare { sparse.old.spare ≤ sparse.new.spare + 1 }
    ensures room { sparse.old.room ≤ sparse.new.room + 1 }
{
    if rows.note(ty, id, place) {
        return Ok(());
    }
    sparse.insert(ty, id, &[place as u64])
}

impl PairIndex {
    pub fn new(alloc: Global) -> PairIndex
        ensures { result.pairs ≡ [] }
    {
        PairIndex {
            list: PairList::new(alloc),
            rows: PlaceRows::new(alloc),
            sparse: HandleMap::new(alloc),
        }
    }

    /// An index of its own with the same pairs. Of room nothing is said.
    pub fn copy(&self) -> Result<PairIndex, NoMemory>
        ensures { IfOk result (λ index. index.pairs ≡ self.now.pairs) }
    {
        Ok(PairIndex {
            list: self.list.copy()?,
            rows: self.rows.copy()?,
            sparse: self.sparse.copy()?,
        })
    }

    /// Makes room for so many further pairs, after which those whose ids follow the greatest take no memory at all. After `NoMemory`, which
    /// comes too where these would be too many, the pairs are as before, and no room is lost.
    pub fn reserve(&mut self, n: usize) -> Result<(), NoMemory>
        ensures pairs { self.new.pairs ≡ self.old.pairs }
        ensures ok { OnOk result (n ≤ self.new.spare) }
        ensures spare { self.old.spare ≤ self.new.spare }
        ensures succeeds { 1 ≤ self.old.spare → n ≤ self.old.spare → IsOk result }
    {
        self.list.reserve(n)?;
        self.sparse.make_room(n, 1)?;
        self.rows.reserve(n);
        Ok(())
    }

    /// Adds a new pair. After `NoMemory`, which comes only where there was no room, the pairs are as before.
    pub fn add(&mut self, ty: ObjectType, id: u64) -> Result<(), NoMemory>
        requires { has_pair self.old.pairs ty id ≡ false }
        ensures ok { OnOk result (self.new.pairs ≡ self.old.pairs ++ pair ty id ∷ []) }
        ensures err { OnErr result (self.new.pairs ≡ self.old.pairs) }
        ensures succeeds { 1 ≤ self.old.spare → IsOk result }
        ensures spare { self.old.spare ≤ self.new.spare + 1 }
    {
        self.list.reserve(1)?;
        let place = self.list.len();
        note_place(&mut self.rows, &mut self.sparse, ty, id, place)?;
        self.list.push(ty, id);
        Ok(())
    }

    /// The place of a pair, counted from 0.
    pub fn place(&self, ty: ObjectType, id: u64) -> Option<usize>
        ensures place { result ≡ place_of self.now.pairs ty id }
        ensures within { IfSome result (λ place. place < length self.now.pairs) }
        ensures distinct { AreDistinct self.now.pairs }
    {
        let link = self.rows.link(ty, id) as usize;
        if self.list.stands_before(link, ty, id) {
            return Some(link - 1);
        }
        place_in(&self.sparse, ty, id)
    }

    /// The pair at a place, counted from 0.
    pub fn pair(&self, place: usize) -> (ObjectType, u64)
        requires { place < length self.now.pairs }
        ensures pair { slice_get self.now.pairs place ≡ Some (pair result.0 result.1) }
        ensures distinct { AreDistinct self.now.pairs }
    {
        self.list.pair(place)
    }

    pub fn len(&self) -> usize
        ensures count { result ≡ length self.now.pairs }
        ensures distinct { AreDistinct self.now.pairs }
    {
        self.list.len()
    }
}
