// Retrieved objects by their keys, through chains.
ghost use Rattle.std.specs.Prelude.{◌≡◌, ◌≤◌, ◌+◌, Some, map, length, if◌then◌else◌, IfOk, IsOk, OnErr};
ghost use Rattle.object_model.specs.Objects.{are_same};
ghost use Rattle.session_tables.specs.Retrieved.{AreLatest, AreLinked, chain_number, first_kept, has_key, HavePayloads, IsLink, latest_in, link_of, retrieval_of, with_link};

use crate::retrieved_table::RetrievedEntry;
use command_tables::ObjectType;
use handle_map::HandleMap;
use object_model::Object;
use std::alloc::AllocError;

/// What tells one retrieved object from another.
#[derive(Clone, Copy)]
pub struct RetrievedKey<'a> {
    pub ty: ObjectType,
    pub owner: Object,
    pub place: usize,
    pub payload: &'a [u8],
}

// The number of the chain of an owner's place, among those of the owner's type. An object's number is made of its first name, the
// `number`-th of a thread, as `number * 2048 + thread`. Images are mostly named right behind their swapchain, so that few share a chain;
// and four names count as one, so that chains are numbered about as densely as objects are retrieved, and a map finds each in one look.
fn chain_of(owner: Object, place: usize) -> u64
    ensures { result ≡ chain_number owner place }
{
    owner.number / 8192 + owner.number % 2048 * 16 + place as u64 % 0x1_0000_0000
}

// The link to the latest entry of the chain of this owner and place.
fn latest_of(latest: &HandleMap<1024>, owner: Object, place: usize) -> usize
    ensures { result ≡ latest_in latest.now.entries owner.ty (chain_number owner place) }
{
    match latest.get(owner.ty, chain_of(owner, place)) {
        None => 0,
        Some([]) => 0,
        Some([link, ..]) => *link as usize,
    }
}

#[tactic(auto, unfolding(command_tables::specs::Tests::same_type))]
fn is_owner(owner: Option<Object>, object: Object) -> bool
    ensures { result ≡ are_same owner (Some object) }
{
    match owner {
        None => false,
        Some(owner) => owner == object,
    }
}

// Whether an entry has this key.
#[tactic(auto, unfolding(command_tables::specs::Tests::same_type))]
fn is_kept_by(entry: &RetrievedEntry, bytes: &[u8], key: RetrievedKey<'_>) -> bool
    requires { entry.now.start + entry.now.len ≤ length bytes.now }
    ensures { result ≡ has_key key.entry (retrieval_of bytes.now entry.now) }
{
    let payload = &bytes[entry.start..entry.start + entry.len];
    entry.object.ty == key.ty
        && is_owner(entry.owner, key.owner)
        && entry.place == key.place
        && payload == key.payload
}

// The object that was found, by one entry more.
fn found_by(
    entry: &RetrievedEntry,
    bytes: &[u8],
    key: RetrievedKey<'_>,
    found: Option<Object>,
) -> Option<Object>
    requires { entry.now.start + entry.now.len ≤ length bytes.now }
    ensures { result ≡ (if has_key key.entry (retrieval_of bytes.now entry.now) then Some entry.now.object else found) }
{
    if is_kept_by(entry, bytes, key) {
        Some(entry.object)
    } else {
        found
    }
}

// The object with a key, on the way from a link through its chain. Of more than one the oldest counts.
fn walk(
    entries: &[RetrievedEntry],
    bytes: &[u8],
    first: usize,
    key: RetrievedKey<'_>,
) -> Option<Object>
    requires linked { AreLinked entries.now }
    requires payloads { HavePayloads entries.now bytes.now }
    requires first { IsLink entries.now key.owner.ty (chain_number key.owner key.place) (length entries.now) first }
    ensures { result ≡ first_kept (map (retrieval_of bytes.now) entries.now) key.entry }
{
    let mut link = first;
    let mut found = None;
    while link != 0 {
        let entry = &entries[link - 1];
        found = found_by(entry, bytes, key, found);
        link = entry.before;
    }
    found
}

/// The object with a key, if there is one. Takes no memory.
pub fn object_of(
    entries: &[RetrievedEntry],
    bytes: &[u8],
    latest: &HandleMap<1024>,
    key: RetrievedKey<'_>,
) -> Option<Object>
    requires linked { AreLinked entries.now }
    requires payloads { HavePayloads entries.now bytes.now }
    requires latest { AreLatest entries.now latest.now.entries }
    ensures { result ≡ first_kept (map (retrieval_of bytes.now) entries.now) key.entry }
{
    walk(entries, bytes, latest_of(latest, key.owner, key.place), key)
}

/// Makes a link that of the latest entry of an owner's place, and gives the one that was. After `AllocError` the links are as before; it
/// comes only where there was no room.
pub fn put_link(
    latest: &mut HandleMap<1024>,
    owner: Option<Object>,
    place: usize,
    link: usize,
) -> Result<usize, AllocError>
    ensures before { IfOk result (λ before. before ≡ link_of latest.old.entries owner place) }
    ensures ok { IfOk result (λ before. latest.new.entries ≡ with_link latest.old.entries owner place link) }
    ensures err { OnErr result (latest.new.entries ≡ latest.old.entries) }
    ensures succeeds { 1 ≤ latest.old.spare → 1 ≤ latest.old.room → IsOk result }
    ensures spare { latest.old.spare ≤ latest.new.spare + 1 }
    ensures room { latest.old.room ≤ latest.new.room + 1 }
{
    match owner {
        None => Ok(0),
        Some(owner) => {
            let before = latest_of(latest, owner, place);
            match latest.insert(owner.ty, chain_of(owner, place), &[link as u64]) {
                Ok(()) => Ok(before),
                Err(_) => Err(AllocError),
            }
        }
    }
}
