// Which of what an object owns a walk need not look at.
ghost use Rattle.std.specs.Prelude.{◌≡◌, if◌then◌else◌, nat_lt, slice_index_or, List};
ghost use Rattle.object_records.specs.declared.record.ObjectRecord.{ObjectRecord};
ghost use Rattle.object_records.specs.Passed.{WasNoted, WasWidened, limited, limited_at, owner_above, reopened};

use crate::kept_owner::KeptOwner;

/// What is noted at a place; 0 where nothing is.
#[tactic(auto, using(crate::proofs::Padding::got_there, crate::proofs::Padding::got_past))]
pub fn noted_at(passed: &[u32], place: usize) -> usize
    ensures { result ≡ slice_index_or passed.now place 0 }
{
    if place < passed.len() {
        passed[place] as usize
    } else {
        0
    }
}

/// Notes a number at a place, if there is room for notes there, and it has 32 bits.
#[tactic(auto, using(crate::proofs::Passing::none_noted, crate::proofs::Passing::one_noted))]
pub fn note(passed: &mut Vec<u32>, place: usize, before: usize)
    ensures { WasNoted passed.old.items passed.new.items place before }
{
    if place < passed.len() && before <= u32::MAX as usize {
        passed[place] = before as u32;
    }
}

// The lesser of two numbers.
fn least(a: u32, b: usize) -> u32
    ensures { result ≡ (if nat_lt b a then b else a) }
{
    if b < a as usize { b as u32 } else { a }
}

// What is passed over at a place stands before another at most.
#[tactic(auto, using(crate::proofs::Passing::written_limited, crate::proofs::Passing::none_limited))]
fn limit_at(passed: &mut Vec<u32>, place: usize, most: usize)
    ensures { passed.new.items ≡ limited_at passed.old.items place most }
{
    if place < passed.len() {
        passed[place] = least(passed[place], most);
    }
}

// What an owner owns is passed over up to this place at most.
fn limit(passed: &mut Vec<u32>, owner: KeptOwner, most: usize)
    ensures { passed.new.items ≡ limited passed.old.items owner most }
{
    match owner {
        KeptOwner::Nobody | KeptOwner::Unborn(_) => {}
        KeptOwner::At(place) => limit_at(passed, place, most),
    }
}

/// A further record has this owner: the owner's own owner passes over it no longer.
#[tactic(auto, using(crate::proofs::Passing::reopen_limits))]
pub fn reopen(passed: &mut Vec<u32>, owner: KeptOwner, above: KeptOwner)
    ensures { (records : List ObjectRecord) → above ≡ owner_above records owner → passed.new.items ≡ reopened records passed.old.items owner }
{
    match owner {
        KeptOwner::Nobody | KeptOwner::Unborn(_) => {}
        KeptOwner::At(place) => limit(passed, above, place),
    }
}

// Makes room for a note at a place. Where memory is wanting there is none, and nothing is passed over there.
#[tactic(auto, using(crate::proofs::Passing::none_widened, crate::proofs::Passing::zeros_widened))]
fn widen(passed: &mut Vec<u32>, place: usize)
    ensures { WasWidened passed.old.items passed.new.items }
{
    if place < passed.len() {
        return;
    }
    let _ = passed.resize(place.saturating_add(1), 0);
}

/// Makes room for notes at so many records behind so many, with no further memory. Where memory is wanting there may be less.
pub fn reserve_notes(passed: &mut Vec<u32>, count: usize, n: usize)
    ensures { passed.new.items ≡ passed.old.items }
{
    let behind = count.saturating_sub(passed.len());
    let _ = passed.reserve(behind.saturating_add(n));
}

/// Makes room for a note at an owner. Owners stand at the front of most traces.
#[tactic(auto, using(crate::proofs::Passing::none_widened))]
pub fn widen_for(passed: &mut Vec<u32>, owner: KeptOwner)
    ensures { WasWidened passed.old.items passed.new.items }
{
    match owner {
        KeptOwner::Nobody | KeptOwner::Unborn(_) => {}
        KeptOwner::At(place) => widen(passed, place),
    }
}
