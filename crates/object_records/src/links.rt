// How what an object owns is found.
ghost use Rattle.std.specs.Prelude.{◌≡◌, ◌≤◌, ◌<◌, ◌+◌, true, ◌&&◌, length, if◌then◌else◌, vec_capacity};
ghost use Rattle.object_records.specs.Links.{AreFew, last_of, linked, with_linked};
ghost use Rattle.object_records.specs.Queues.{queue_owner};
ghost use Rattle.object_records.specs.Table.{before_owned};

use crate::kept_owner::KeptOwner;
use crate::record::ObjectRecord;
use command_tables::ObjectType;

/// What is kept at an object of those that it owns, and the way on to the others of its own owner, in 12 bytes.
#[derive(Clone, Copy)]
pub struct Links {
    /// One more than the place of the latest record that has this one as its owner; 0 where there is none.
    pub last_owned: u32,
    /// One more than the place of the record before this one that has the same owner; 0 where there is none.
    pub previous: u32,
    /// How many created objects live and have this one as their owner.
    pub children: u32,
}

const _: () = prove!(size_of::<Links>() == 12);

/// A child counts one.
pub fn one_if(is_child: bool) -> u32
    ensures { result ≡ (if is_child then 1 else 0) }
{
    if is_child { 1 } else { 0 }
}

/// Whether a record is of a created object that lives.
pub fn may_be_child(kept: ObjectRecord) -> bool
    ensures { result ≡ (kept.is_created && kept.lives) }
{
    kept.is_created && kept.lives
}

/// The owner of a queue's record; anything else has none here.
#[tactic(auto, unfolding(command_tables::specs::Tests::same_type))]
pub fn queue_owner(kept: ObjectRecord) -> KeptOwner
    ensures { result ≡ queue_owner kept }
{
    if kept.object.ty == ObjectType::Queue {
        kept.owner
    } else {
        KeptOwner::Nobody
    }
}

// The owner of a further record links to it, and counts it where it is a child. Tells to which record it linked before.
fn link_owner(links: &mut Vec<Links>, owner: KeptOwner, link: u32, is_child: bool) -> u32
    requires within { before_owned owner ≤ length links.old.items }
    requires few { AreFew links.old.items }
    requires limit { length links.old.items < 4294967295 }
    ensures links { links.new.items ≡ linked links.old.items owner link is_child }
    ensures count { length links.new.items ≡ length links.old.items }
    ensures room { vec_capacity links.new ≡ vec_capacity links.old }
    ensures previous { result ≡ last_of links.old.items owner }
{
    match owner {
        KeptOwner::Nobody | KeptOwner::Unborn(_) => 0,
        KeptOwner::At(place) => {
            let above = links[place];
            links[place] = Links {
                last_owned: link,
                children: above.children + one_if(is_child),
                ..above
            };
            above.last_owned
        }
    }
}

/// A further record with this owner gets its links, and is counted where it is a child.
#[tactic(auto, using(crate::proofs::Linking::linked_length))]
pub fn add_links(links: &mut Vec<Links>, owner: KeptOwner, is_child: bool)
    requires within { before_owned owner ≤ length links.old.items }
    requires few { AreFew links.old.items }
    requires limit { length links.old.items < 4294967295 }
    requires room { length links.old.items < vec_capacity links.old }
    ensures links { links.new.items ≡ with_linked links.old.items owner is_child }
    ensures count { length links.new.items ≡ length links.old.items + 1 }
    ensures room { vec_capacity links.old ≤ vec_capacity links.new }
{
    let link = links.len() as u32 + 1;
    let previous = link_owner(links, owner, link, is_child);
    links
        .push(Links {
            last_owned: 0,
            previous,
            children: 0,
        })
        .unwrap();
}
