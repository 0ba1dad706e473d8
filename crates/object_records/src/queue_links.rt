// The links between the queues of each owner, kept up to the latest queue. Queues and their owners stand at the front of most traces.
ghost use Rattle.std.specs.Prelude.{◌≡◌, ◌≤◌, ◌<◌, ◌+◌, ◌-◌, false, length, min, slice_index_or, vec_capacity, IsOk, OnOk};
ghost use Rattle.object_records.specs.Links.{AreFew, with_linked};
ghost use Rattle.object_records.specs.Queues.{no_links, padded};
ghost use Rattle.object_records.specs.Table.{before_owned};

use crate::kept_owner::KeptOwner;
use crate::links::{Links, add_links};
use command_tables::NoMemory;

// A link to a record, one more than its place, has 32 bits.
const MOST: usize = 4294967295;

/// The links of the record at a place.
#[tactic(auto, using(crate::proofs::Padding::got_there, crate::proofs::Padding::got_past))]
pub fn queue_links(queues: &[Links], place: usize) -> Links
    ensures { result ≡ slice_index_or queues.now place no_links }
{
    if place < queues.len() {
        queues[place]
    } else {
        Links {
            last_owned: 0,
            previous: 0,
            children: 0,
        }
    }
}

/// Makes room for the links of so many further records behind so many, where links to them fit.
pub fn reserve_queues(queues: &mut Vec<Links>, count: usize, n: usize) -> Result<(), NoMemory>
    requires { length queues.old.items ≤ count }
    ensures items { queues.new.items ≡ queues.old.items }
    ensures ok { OnOk result (n ≤ min (vec_capacity queues.new) 4294967295 - count) }
    ensures room { vec_capacity queues.old ≤ vec_capacity queues.new }
    ensures succeeds { 1 ≤ n → n ≤ min (vec_capacity queues.old) 4294967295 - count → IsOk result }
{
    if n > MOST.saturating_sub(count) {
        return Err(NoMemory);
    }
    let more = count - queues.len() + n;
    Ok(queues.reserve(more)?)
}

// Keeps the links of so many records, of which the further ones link nothing.
fn fill_up(queues: &mut Vec<Links>, count: usize)
    requires long { length queues.old.items ≤ count }
    requires room { count ≤ vec_capacity queues.old }
    ensures items { queues.new.items ≡ padded count queues.old.items }
    ensures count { length queues.new.items ≡ count }
    ensures room { vec_capacity queues.old ≤ vec_capacity queues.new }
{
    let none = Links {
        last_owned: 0,
        previous: 0,
        children: 0,
    };
    queues.resize(count, none).unwrap();
}

/// A further record, behind so many, gets its links where it is a queue whose owner was born. Any other links nothing, so that nothing
/// need be kept of it.
pub fn add_queue_links(queues: &mut Vec<Links>, count: usize, owner: KeptOwner)
    requires within { before_owned owner ≤ count }
    requires long { length queues.old.items ≤ count }
    requires few { AreFew (padded count queues.old.items) }
    requires room { 1 ≤ min (vec_capacity queues.old) 4294967295 - count }
    ensures links { padded (count + 1) queues.new.items ≡ with_linked (padded count queues.old.items) owner false }
    ensures long { length queues.new.items ≤ count + 1 }
    ensures room { vec_capacity queues.old ≤ vec_capacity queues.new }
{
    match owner {
        KeptOwner::Nobody | KeptOwner::Unborn(_) => {}
        KeptOwner::At(_) => {
            fill_up(queues, count);
            add_links(queues, owner, false);
        }
    }
}
