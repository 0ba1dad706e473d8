// Where a kept id, its key and the next entry of its chain stand.
use crate::key::RetrievedKey;

/// The id of a retrieved object with its key.
#[derive(Clone, Copy)]
pub struct KeptEntry {
    pub key: RetrievedKey,
    pub id: u64,
    /// One more than the place of the next entry of the key's chain, which is an earlier one; 0 at its end.
    pub next: usize,
}
