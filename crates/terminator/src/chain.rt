//! The chains through the kept ids.
ghost use Rattle.std.specs.Prelude.{◌≡◌, ◌≤◌, ◌+◌, Some, map, length, if◌then◌else◌, IfOk, IsOk, OnErr};
ghost use Rattle.layer_model.specs.Ids.{has_key, kept_id};
ghost use Rattle.terminator.specs.Chains.{AreLatest, AreLinked, HavePayloads, IsLink, latest_in, link_of, with_link};
ghost use Rattle.terminator.specs.Shown.{key_of, kept_of};

use crate::entry::KeptEntry;
use crate::key::{RetrievedKey, same_owner};
use command_tables::NoMemory;
use handle_map::HandleMap;
use object_model::Object;

// The link to the latest entry of an owner.
fn latest_of(latest: &HandleMap<1024>, owner: Object) -> usize
    ensures { result ≡ latest_in latest.now.entries owner.ty owner.number }
{
    match latest.get(owner.ty, owner.number) {
        None => 0,
        Some([]) => 0,
        Some([link, ..]) => *link as usize,
    }
}

// Whether an entry has this key.
#[tactic(auto, unfolding(command_tables::specs::Tests::same_type))]
fn is_kept_by(entry: &KeptEntry, bytes: &[u8], key: RetrievedKey<'_>) -> bool
    requires { entry.now.start + entry.now.len ≤ length bytes.now }
    ensures { result ≡ has_key (key_of key.entry) (kept_of bytes.now entry.now) }
{
    let payload = &bytes[entry.start..entry.start + entry.len];
    entry.ty == key.ty
        && same_owner(entry.owner, key.owner)
        && entry.place == key.place
        && payload == key.payload
}

// The id that was found, by one entry more.
fn found_by(
    entry: &KeptEntry,
    bytes: &[u8],
    key: RetrievedKey<'_>,
    found: Option<u64>,
) -> Option<u64>
    requires { entry.now.start + entry.now.len ≤ length bytes.now }
    ensures { result ≡ (if has_key (key_of key.entry) (kept_of bytes.now entry.now) then Some entry.now.id else found) }
{
    if is_kept_by(entry, bytes, key) {
        Some(entry.id)
    } else {
        found
    }
}

// The id kept by a key, on the way from a link through the owner's chain. Of more than one the oldest counts.
fn walk(
    entries: &[KeptEntry],
    bytes: &[u8],
    first: usize,
    key: RetrievedKey<'_>,
    owner: Object,
) -> Option<u64>
    requires owner { key.owner ≡ Some owner }
    requires linked { AreLinked entries.now }
    requires payloads { HavePayloads entries.now bytes.now }
    requires first { IsLink entries.now owner.ty owner.number (length entries.now) first }
    ensures { result ≡ kept_id (map (kept_of bytes.now) entries.now) (key_of key.entry) }
{
    let mut link = first;
    let mut found = None;
    while link != 0 {
        let entry = &entries[link - 1];
        found = found_by(entry, bytes, key, found);
        link = entry.next;
    }
    found
}

/// The id kept by a key. None is kept by one without an owner.
#[tactic(auto, using(crate::proofs::Chains::kept_by_nobody))]
pub fn id_of(
    entries: &[KeptEntry],
    bytes: &[u8],
    latest: &HandleMap<1024>,
    key: RetrievedKey<'_>,
) -> Option<u64>
    requires linked { AreLinked entries.now }
    requires payloads { HavePayloads entries.now bytes.now }
    requires latest { AreLatest entries.now latest.now.entries }
    ensures { result ≡ kept_id (map (kept_of bytes.now) entries.now) (key_of key.entry) }
{
    match key.owner {
        None => None,
        Some(owner) => walk(entries, bytes, latest_of(latest, owner), key, owner),
    }
}

/// Makes a link that of an owner's latest entry, and gives the one that was. After `NoMemory` the links are as before; it comes only where
/// there was no room.
pub fn put_link(
    latest: &mut HandleMap<1024>,
    owner: Option<Object>,
    link: usize,
) -> Result<usize, NoMemory>
    ensures before { IfOk result (λ next. next ≡ link_of latest.old.entries owner) }
    ensures ok { IfOk result (λ next. latest.new.entries ≡ with_link latest.old.entries owner link) }
    ensures err { OnErr result (latest.new.entries ≡ latest.old.entries) }
    ensures succeeds { 1 ≤ latest.old.spare → 1 ≤ latest.old.room → IsOk result }
    ensures spare { latest.old.spare ≤ latest.new.spare + 1 }
    ensures room { latest.old.room ≤ latest.new.room + 1 }
{
    match owner {
        None => Ok(0),
        Some(owner) => {
            let next = latest_of(latest, owner);
            latest.insert(owner.ty, owner.number, &[link as u64])?;
            Ok(next)
        }
    }
}
