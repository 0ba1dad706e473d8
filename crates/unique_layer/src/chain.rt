//! The chains through the kept ids.
ghost use Rattle.std.specs.Prelude.{◌≡◌, ◌≤◌, ◌+◌, Some, map, length, if◌then◌else◌, IfOk, IsOk, OnErr};
ghost use Rattle.layer_model.specs.Ids.{has_key, kept_id};
ghost use Rattle.unique_layer.specs.Chains.{AreLatest, AreLinked, chain_number, IsLink, latest_in, link_of, with_link};
ghost use Rattle.unique_layer.specs.Shown.{key_of, kept_of};

use crate::entry::KeptEntry;
use crate::key::{RetrievedKey, same_owner};
use crate::value::first_value;
use command_tables::NoMemory;
use handle_map::HandleMap;
use object_model::Object;

/// The number of a key's chain among those of its owner's type. Eight places of an owner have chains of their own, so that a
/// swapchain's images are mostly each alone in theirs. Numbers and places are cut to 32 bits: what is alike then shares a chain.
pub fn chain_of(owner: Object, place: usize) -> u64
    ensures { result ≡ chain_number owner place }
{
    owner.number % 0x1_0000_0000 * 8 + place as u64 % 0x1_0000_0000
}

// The link to the latest entry of the chain of this owner and place.
fn latest_of(latest: &HandleMap<1024>, owner: Object, place: usize) -> usize
    ensures { result ≡ latest_in latest.now.entries owner.ty (chain_number owner place) }
{
    match latest.get(owner.ty, chain_of(owner, place)) {
        None => 0,
        Some(values) => first_value(values) as usize,
    }
}

// Whether an entry has this key.
#[tactic(auto, unfolding(command_tables::specs::Tests::same_type))]
fn is_kept_by(entry: &KeptEntry, key: RetrievedKey) -> bool
    ensures { result ≡ has_key (key_of key) (kept_of entry.now) }
{
    entry.key.ty == key.ty && same_owner(entry.key.owner, key.owner) && entry.key.place == key.place
}

// The id that was found, by one entry more.
fn found_by(entry: &KeptEntry, key: RetrievedKey, found: Option<u64>) -> Option<u64>
    ensures { result ≡ (if has_key (key_of key) (kept_of entry.now) then Some entry.now.id else found) }
{
    if is_kept_by(entry, key) {
        Some(entry.id)
    } else {
        found
    }
}

// The id kept by a key, on the way from a link through its chain. Of more than one the oldest counts.
fn walk(entries: &[KeptEntry], first: usize, owner: Object, key: RetrievedKey) -> Option<u64>
    requires owner { key.owner ≡ Some owner }
    requires linked { AreLinked entries.now }
    requires first { IsLink entries.now owner.ty (chain_number owner key.place) (length entries.now) first }
    ensures { result ≡ kept_id (map kept_of entries.now) (key_of key) }
{
    let mut link = first;
    let mut found = None;
    while link != 0 {
        let entry = &entries[link - 1];
        found = found_by(entry, key, found);
        link = entry.next;
    }
    found
}

/// The id kept by a key. None is kept by one without an owner.
#[tactic(auto, using(crate::proofs::Chains::kept_by_nobody))]
pub fn id_of(entries: &[KeptEntry], latest: &HandleMap<1024>, key: RetrievedKey) -> Option<u64>
    requires linked { AreLinked entries.now }
    requires latest { AreLatest entries.now latest.now.entries }
    ensures { result ≡ kept_id (map kept_of entries.now) (key_of key) }
{
    match key.owner {
        None => None,
        Some(owner) => walk(entries, latest_of(latest, owner, key.place), owner, key),
    }
}

/// Makes a link that of the latest entry of a key's chain, and gives the one that was. After `NoMemory` the links are as before; it comes
/// only where there was no room.
pub fn put_link(
    latest: &mut HandleMap<1024>,
    key: RetrievedKey,
    link: usize,
) -> Result<usize, NoMemory>
    ensures before { IfOk result (λ next. next ≡ link_of latest.old.entries key.owner key.place) }
    ensures ok { IfOk result (λ next. latest.new.entries ≡ with_link latest.old.entries key.owner key.place link) }
    ensures err { OnErr result (latest.new.entries ≡ latest.old.entries) }
    ensures succeeds { 1 ≤ latest.old.spare → 1 ≤ latest.old.room → IsOk result }
    ensures spare { latest.old.spare ≤ latest.new.spare + 1 }
    ensures room { latest.old.room ≤ latest.new.room + 1 }
{
    match key.owner {
        None => Ok(0),
        Some(owner) => {
            let next = latest_of(latest, owner, key.place);
            latest.insert(owner.ty, chain_of(owner, key.place), &[link as u64])?;
            Ok(next)
        }
    }
}
