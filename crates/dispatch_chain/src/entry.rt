//! An entry of a stored row.
use object_model::PartKind;

/// A part that intercepts a command: its place in the chain, from 1, and its kind.
#[derive(Clone, Copy, Debug, PartialEq, Eq)]
pub struct Entry {
    pub place: u32,
    pub kind: PartKind,
}
