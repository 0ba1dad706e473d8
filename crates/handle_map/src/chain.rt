//! The chains through the entries.
ghost use Rattle.std.specs.Prelude.{◌≡◌, ◌≢◌, ◌<◌, ◌≤◌, ℕ, length, true, false, IfSome, IfNone, IsOk, OnOk, OnErr};
ghost use Rattle.handle_map.specs.Chains.{AreFirst, AreLinked, chains_made, IsLink, IsPlace, HasNoPlace, chain_of as chain_number, is_at};

use crate::entry::Entry;
use command_tables::{NoMemory, ObjectType};

/// The chain of a pair, of `S` chains.
pub fn chain_of<const S: usize>(ty: ObjectType, id: u64) -> usize
    requires { 1 ≤ S }
    ensures value { result ≡ chain_number S ty id }
    ensures within { result < S }
{
    ((id ^ ty as u64) % S as u64) as usize
}

/// Whether an entry is of a pair.
#[tactic(auto, unfolding(command_tables::specs::Tests::same_type))]
pub fn is_of(entry: &Entry, ty: ObjectType, id: u64) -> bool
    ensures { result ≡ is_at ty id entry.now }
{
    entry.ty == ty && entry.id == id
}

/// The place of a pair, on the way from a link through its chain.
pub fn walk<const S: usize>(
    entries: &[Entry],
    first: usize,
    ty: ObjectType,
    id: u64,
) -> Option<usize>
    requires linked { AreLinked S entries.now }
    requires first { IsLink S entries.now (chain_number S ty id) (length entries.now) first }
    ensures found { IfSome result (IsPlace entries.now ty id) }
    ensures none { IfNone result (HasNoPlace entries.now ty id) }
{
    let mut link = first;
    while link != 0 {
        let entry = &entries[link - 1];
        if is_of(entry, ty, id) {
            return Some(link - 1);
        }
        link = entry.next as usize;
    }
    None
}

/// The place of a pair: that before a link, where it stands there, or else on its chain.
pub fn place_of<const S: usize>(
    entries: &[Entry],
    firsts: &[u32],
    link: u64,
    ty: ObjectType,
    id: u64,
) -> Option<usize>
    requires chains { 1 ≤ S }
    requires linked { AreLinked S entries.now }
    requires firsts { AreFirst S entries.now firsts.now }
    ensures found { IfSome result (IsPlace entries.now ty id) }
    ensures none { IfNone result (HasNoPlace entries.now ty id) }
{
    if link != 0 && link <= entries.len() as u64 && is_of(&entries[link as usize - 1], ty, id) {
        return Some(link as usize - 1);
    }
    match firsts.get(chain_of::<S>(ty, id)) {
        None => None,
        Some(first) => walk::<S>(entries, *first as usize, ty, id),
    }
}

/// Makes the chains, all empty, where there are none.
pub fn make_chains<const S: usize>(firsts: &mut Vec<u32>) -> Result<(), NoMemory>
    ensures ok { OnOk result (firsts.new.items ≡ chains_made S firsts.old.items) }
    ensures err { OnErr result (firsts.new.items ≡ firsts.old.items) }
    ensures succeeds { 1 ≤ length firsts.old.items → IsOk result }
{
    if firsts.is_empty() {
        let alloc = *firsts.allocator();
        *firsts = vec![in alloc; 0; S]?;
    }
    Ok(())
}
