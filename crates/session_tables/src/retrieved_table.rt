// Retrieved objects, by owner and key.
ghost use Rattle.std.specs.Prelude.{◌≡◌, ◌≤◌, ◌+◌, ◌++◌, ◌∷◌, [], Some, OnOk, OnErr, IfOk, IsOk, find, length};
ghost use Rattle.std.specs.Option.{option_map};
ghost use Rattle.replay_model.specs.Births.{is_kept};

use crate::retrieved_map::{RetrievedKey, object_of, put_link};
use handle_map::HandleMap;
use object_model::Object;
use std::alloc::{AllocError, Global};
use std::marker::Model;

/// A retrieved object with its owner, its place there, and where the payload of its key stands.
#[derive(Clone, Copy)]
pub struct RetrievedEntry {
    pub owner: Option<Object>,
    pub place: usize,
    pub start: usize,
    pub len: usize,
    pub object: Object,
    /// One more than the place of the next entry of its chain, which is an earlier one; 0 at the chain's end.
    pub before: usize,
}

/// The retrieved objects, the oldest first, found through chains. Contracts see besides how many further ones, and how many further bytes of
/// their payloads, can be kept with no further memory.
pub struct RetrievedTable {
    entries: Vec<RetrievedEntry>,
    // The payloads of all keys.
    bytes: Vec<u8>,
    // For each chain one more than the place of its latest entry.
    latest: HandleMap<1024>,
}

impl Drop for RetrievedTable {
    fn drop(self) {
        let RetrievedTable {
            entries: _entries,
            bytes: _bytes,
            latest: _latest,
        } = self;
    }
}

impl Model for RetrievedTable {
    ghost use Rattle.std.specs.Prelude.{◌-◌, length, map, min, vec_capacity};
    ghost use Rattle.session_tables.specs.Retrieved.{AreChained, RetrievedState, retrieval_of};

    ghost Value = { RetrievedState };

    ghost view = { λ t. record { kept = map (retrieval_of t.bytes.items) t.entries.items; spare = min (vec_capacity t.entries - length t.entries.items) (min t.latest.spare t.latest.room); bytes = vec_capacity t.bytes - length t.bytes.items } };

    ghost invariant = { λ t. AreChained t.entries.items t.bytes.items t.latest.entries };
}

impl RetrievedTable {
    pub fn new(alloc: Global) -> RetrievedTable
        ensures { result.kept ≡ [] }
    {
        RetrievedTable {
            entries: Vec::new(alloc),
            bytes: Vec::new(alloc),
            latest: HandleMap::new(alloc),
        }
    }

    /// A table of its own with the same objects. Of room nothing is said.
    pub fn copy(&self) -> Result<RetrievedTable, AllocError>
        ensures { IfOk result (λ copy. copy.kept ≡ self.now.kept) }
    {
        let alloc = *self.entries.allocator();
        let entries = Vec::from_slice(alloc, &self.entries)?;
        let bytes = Vec::from_slice(alloc, &self.bytes)?;
        match self.latest.copy() {
            Ok(latest) => Ok(RetrievedTable {
                entries,
                bytes,
                latest,
            }),
            Err(_) => Err(AllocError),
        }
    }

    /// The object with a key, if there is one. Of more than one the oldest counts.
    pub fn object_with(&self, key: RetrievedKey<'_>) -> Option<Object>
        ensures { result ≡ option_map (λ r. r.object) (find (is_kept key.entry.ty (Some key.entry.owner) key.entry.place key.entry.payload.now) self.now.kept) }
    {
        object_of(&self.entries, &self.bytes, &self.latest, key)
    }

    /// Makes room for so many further objects with so many bytes of payloads, after which these take no memory. After `AllocError` the
    /// objects are as before, and no room is lost.
    pub fn reserve(&mut self, n: usize, bytes: usize) -> Result<(), AllocError>
        ensures kept { self.new.kept ≡ self.old.kept }
        ensures ok_spare { OnOk result (n ≤ self.new.spare) }
        ensures ok_bytes { OnOk result (bytes ≤ self.new.bytes) }
        ensures spare { self.old.spare ≤ self.new.spare }
        ensures bytes { self.old.bytes ≤ self.new.bytes }
        ensures succeeds { n ≤ self.old.spare → bytes ≤ self.old.bytes → IsOk result }
    {
        self.bytes.reserve(bytes)?;
        // The links take memory for none, too.
        if n == 0 {
            return Ok(());
        }
        self.entries.reserve(n)?;
        match self.latest.reserve(n, 1) {
            Ok(()) => Ok(()),
            Err(_) => Err(AllocError),
        }
    }

    /// Adds an object with a key of its type, this owner, its place there and a payload. One without an owner is never found. After
    /// `AllocError`, which comes only where there was no room, the objects are as before.
    pub fn push(
        &mut self,
        owner: Option<Object>,
        place: usize,
        payload: &[u8],
        object: Object,
    ) -> Result<(), AllocError>
        ensures ok { OnOk result (self.new.kept ≡ self.old.kept ++ record { owner = owner; place = place; payload = payload.now; object = object } ∷ []) }
        ensures err { OnErr result (self.new.kept ≡ self.old.kept) }
        ensures succeeds { 1 ≤ self.old.spare → length payload.now ≤ self.old.bytes → IsOk result }
        ensures spare { self.old.spare ≤ self.new.spare + 1 }
        ensures bytes { self.old.bytes ≤ self.new.bytes + length payload.now }
    {
        self.entries.reserve(1)?;
        self.bytes.reserve(payload.len())?;
        let before = put_link(&mut self.latest, owner, place, self.entries.len() + 1)?;
        let entry = RetrievedEntry {
            owner,
            place,
            start: self.bytes.len(),
            len: payload.len(),
            object,
            before,
        };
        self.bytes.extend_from_slice(payload).unwrap();
        self.entries.push(entry).unwrap();
        Ok(())
    }
}
