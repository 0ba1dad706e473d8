// How the record of an object is kept.
ghost use Rattle.std.specs.Prelude.{◌≡◌, ◌≤◌, ◌<◌, ◌+◌, length, vec_capacity};
ghost use Rattle.object_records.specs.Compact.{IsKept, owner_read, strays_with};
ghost use Rattle.object_records.specs.Table.{before_owned};

use crate::kept_owner::KeptOwner;
use crate::record::ObjectRecord;
use object_model::Object;

/// Where the owner of an object is found.
#[derive(Clone, Copy)]
pub enum OwnerKind {
    Nobody,
    /// At a place among the records.
    Born,
    /// At a place among the owners that weren't born.
    Unborn,
}

/// What is kept of an object beside its pair, in 8 bytes.
#[derive(Clone, Copy)]
pub struct KeptRecord {
    /// The place of the owner; 0 where there is none.
    pub owner: u32,
    pub kind: OwnerKind,
    pub is_created: bool,
    pub lives: bool,
}

const _: () = prove!(size_of::<KeptRecord>() == 8);

/// The owner that is kept.
pub fn read_owner(strays: &[Object], kept: KeptRecord) -> KeptOwner
    ensures { result ≡ owner_read strays.now kept }
{
    match kept.kind {
        OwnerKind::Nobody => KeptOwner::Nobody,
        OwnerKind::Born => KeptOwner::At(kept.owner as usize),
        OwnerKind::Unborn => match strays.get(kept.owner as usize) {
            None => KeptOwner::Nobody,
            Some(object) => KeptOwner::Unborn(*object),
        },
    }
}

/// What is kept of a record. Its owner is added to those that weren't born where it is one.
#[tactic(auto, using(crate::proofs::Compacted::stray_read))]
pub fn keep(strays: &mut Vec<Object>, added: ObjectRecord) -> KeptRecord
    requires room { length strays.old.items + 1 ≤ vec_capacity strays.old }
    requires few { length strays.old.items < 4294967295 }
    requires low { before_owned added.owner ≤ 4294967295 }
    ensures strays { strays.new.items ≡ strays_with strays.old.items added.owner }
    ensures kept { IsKept strays.new.items added result }
    ensures room { vec_capacity strays.old ≤ vec_capacity strays.new }
{
    let (kind, place) = match added.owner {
        KeptOwner::Nobody => (OwnerKind::Nobody, 0),
        KeptOwner::At(place) => (OwnerKind::Born, place),
        KeptOwner::Unborn(object) => {
            let place = strays.len();
            strays.push(object).unwrap();
            (OwnerKind::Unborn, place)
        }
    };
    KeptRecord {
        owner: place as u32,
        kind,
        is_created: added.is_created,
        lives: added.lives,
    }
}
