// The owners of what a call makes.
ghost use Rattle.std.specs.Prelude.{◌≡◌, ◌≤◌, [], length, slice_get, unwrap_or, vec_capacity, IsOk, OnOk};
ghost use Rattle.object_model.specs.Objects.{first_in, object_of};
ghost use Rattle.object_model.specs.History.{owners_given};
ghost use Rattle.replay_model.specs.Past.{owner_by};
ghost use Rattle.session_tables.specs.Shown.{args_shown};

use crate::birth_table::BirthTable;
use command_tables::{Effect, OwnerOf};
use object_model::{Argument, Object};
use std::alloc::AllocError;

/// The object for which an argument stands.
pub fn object_in_place(argument: Argument) -> Option<Object>
    ensures { result ≡ object_of argument }
{
    match argument {
        Argument::Null | Argument::Unborn => None,
        Argument::The(object) => Some(object),
    }
}

/// The arguments of a parameter.
#[tactic(auto, using(crate::proofs::Lists::slice_get_map))]
pub fn arguments_at(args: &[Vec<Argument>], p: u8) -> &[Argument]
    ensures { result.now ≡ unwrap_or (slice_get (args_shown args.now) p) [] }
{
    match args.get(p as usize) {
        None => &[],
        Some(at) => at,
    }
}

fn first_object(args: &[Vec<Argument>], p: u8) -> Option<Object>
    ensures { result ≡ first_in (args_shown args.now) p }
{
    match arguments_at(args, p).first() {
        None => None,
        Some(argument) => object_in_place(*argument),
    }
}

/// Fills a list with the owner of what a call makes, its owner, and so on. What stood in the list before is gone, and its room stays. Takes
/// no memory where there is room.
pub fn fill_owners(
    owners: &mut Vec<Object>,
    births: &BirthTable,
    args: &[Vec<Argument>],
    owner: OwnerOf,
) -> Result<(), AllocError>
    ensures ok { OnOk result (owners.new.items ≡ owners_given births.now.births (args_shown args.now) owner) }
    ensures succeeds { length (owners_given births.now.births (args_shown args.now) owner) ≤ vec_capacity owners.old → IsOk result }
    ensures room { vec_capacity owners.old ≤ vec_capacity owners.new }
{
    owners.clear();
    match owner {
        OwnerOf::Nobody => Ok(()),
        OwnerOf::Param(p) => {
            if let Some(object) = first_object(args, p) {
                owners.push(object)?;
                owners.extend_from_slice(births.owners_of(object))?;
            }
            Ok(())
        }
        OwnerOf::OwnerOfParam(p) => {
            if let Some(object) = first_object(args, p) {
                owners.extend_from_slice(births.owners_of(object))?;
            }
            Ok(())
        }
    }
}

fn owner_for(births: &BirthTable, args: &[Vec<Argument>], owner: OwnerOf) -> Option<Object>
    ensures { result ≡ slice_get (owners_given births.now.births (args_shown args.now) owner) 0 }
{
    match owner {
        OwnerOf::Nobody => None,
        OwnerOf::Param(p) => first_object(args, p),
        OwnerOf::OwnerOfParam(p) => match first_object(args, p) {
            None => None,
            Some(object) => births.owners_of(object).first().copied(),
        },
    }
}

/// The owner of what a call makes.
pub fn owner(births: &BirthTable, args: &[Vec<Argument>], effect: Effect) -> Option<Object>
    ensures { result ≡ owner_by births.now.births (args_shown args.now) effect }
{
    match effect {
        Effect::Create { owner, .. } | Effect::Retrieve { owner, .. } => {
            owner_for(births, args, owner)
        }
        Effect::None | Effect::Destroy(_) | Effect::Free(_) | Effect::Reset(_) => None,
    }
}
