// What is born of the results of a call.
ghost use Rattle.std.specs.Prelude.{◌≡◌, ◌≤◌, ◌+◌, ◌++◌, ◌∷◌, [], length};
ghost use Rattle.object_model.specs.History.{owners_given, owners_in};
ghost use Rattle.layer_model.specs.Reading.{read_results};
ghost use Rattle.object_records.specs.Records.{births_kept, line_kept, new_records};
ghost use Rattle.object_records.specs.Shape.{AreNewOnce, HasParams, arguments_of};
ghost use Rattle.object_records.specs.Table.{before_owned};

use crate::kept_owner::KeptOwner;
use crate::look_ups::{is_born, kept_owner_of};
use crate::reading::first_argument;
use crate::record::ObjectRecord;
use crate::record_table::RecordTable;
use command_tables::{LayerCall, ObjectType, OwnerOf};
use object_model::Object;

// An object as the owner of what is born.
#[tactic(auto, using(crate::proofs::Added::owner_born, crate::proofs::Added::owner_unborn, crate::proofs::Kept::place_within))]
fn as_owner(table: &RecordTable, object: Object) -> KeptOwner
    ensures line { line_kept (births_kept table.now.records) result ≡ object ∷ owners_in (births_kept table.now.records) object }
    ensures within { before_owned result ≤ length table.now.records }
{
    match table.place_of(object) {
        None => KeptOwner::Unborn(object),
        Some(place) => KeptOwner::At(place),
    }
}

// The owner of what a call makes.
pub(crate) fn owner_for(table: &RecordTable, owner: OwnerOf, call: &LayerCall) -> KeptOwner
    requires { HasParams call.now }
    ensures line { line_kept (births_kept table.now.records) result ≡ owners_given (births_kept table.now.records) (arguments_of call.now) owner }
    ensures within { before_owned result ≤ length table.now.records }
{
    match owner {
        OwnerOf::Nobody => KeptOwner::Nobody,
        OwnerOf::Param(p) => match first_argument(call, p as usize) {
            None => KeptOwner::Nobody,
            Some(object) => as_owner(table, object),
        },
        OwnerOf::OwnerOfParam(p) => match first_argument(call, p as usize) {
            None => KeptOwner::Nobody,
            Some(object) => kept_owner_of(table, object),
        },
    }
}

// The object of a result gets a record where it isn't born yet.
#[tactic(auto, using(crate::proofs::Added::none_lost, crate::proofs::Added::none_again, crate::proofs::Added::one_new, crate::proofs::Added::unborn_place))]
fn add_birth(
    table: &mut RecordTable,
    is_created: bool,
    owner: KeptOwner,
    ty: ObjectType,
    handle: u64,
)
    requires room { 1 ≤ table.old.spare }
    requires within { before_owned owner ≤ length table.old.records }
    ensures records { table.new.records ≡ table.old.records ++ new_records is_created owner (births_kept table.old.records) ty (handle ∷ []) }
    ensures spare { table.old.spare ≤ table.new.spare + 1 }
{
    if handle == 0 {
        return;
    }
    let object = Object { ty, number: handle };
    if is_born(table, object) {
        return;
    }
    table.push(ObjectRecord {
        object,
        is_created,
        lives: true,
        owner,
    });
}

// Each object of the results that isn't born yet gets a record with this owner.
pub(crate) fn add_births(
    table: &mut RecordTable,
    is_created: bool,
    owner: KeptOwner,
    ty: ObjectType,
    results: &[u64],
)
    requires room { length results.now ≤ table.old.spare }
    requires within { before_owned owner ≤ length table.old.records }
    requires once { AreNewOnce (births_kept table.old.records) (read_results ty results.now) }
    ensures records { table.new.records ≡ table.old.records ++ new_records is_created owner (births_kept table.old.records) ty results.now }
    ensures spare { table.old.spare ≤ table.new.spare + length results.now }
{
    for k in 0..results.len() {
        add_birth(table, is_created, owner, ty, results[k]);
    }
}
