// Which objects a call ends.
ghost use Rattle.std.specs.Prelude.{◌≡◌, ◌<◌, ◌+◌, false, true, length, if◌then◌else◌, Bool};
ghost use Rattle.std.specs.List.{list_any};
ghost use Rattle.std.specs.Option.{option_map_or};
ghost use Rattle.command_tables.specs.Handles.{list_at};
ghost use Rattle.object_model.specs.Objects.{is_in, object_of, objects_in};
ghost use Rattle.object_model.specs.History.{ends_by, ends_with, owners_in};
ghost use Rattle.object_records.specs.Links.{has_strays_in, last_link};
ghost use Rattle.object_records.specs.Passed.{IsDeadAt, IsPassed};
ghost use Rattle.object_records.specs.Records.{births_kept, living_kept, swept, DoesNotEnd, EndsThere, IsEndedBelow, PassesOnly};
ghost use Rattle.object_records.specs.Shape.{HasParams, arguments_of};
ghost use Rattle.object_records.specs.Table.{ended_at};

use crate::kept_owner::KeptOwner;
use crate::look_ups::{is_created, is_owned, is_same};
use crate::reading::{argument_at, count_places, object_of};
use crate::record_table::RecordTable;
use command_tables::{Effect, LayerCall};
use object_model::{Argument, Object};

// Whether an object goes with one that is named.
fn goes_with(table: &RecordTable, object: Object, named: Object) -> bool
    ensures { result ≡ ends_with (births_kept table.now.records) object named }
{
    is_created(table, named) && (is_same(object, named) || is_owned(table, object, named))
}

fn goes_with_argument(table: &RecordTable, object: Object, a: Argument) -> bool
    ensures { result ≡ option_map_or (ends_with (births_kept table.now.records) object) (object_of a) false }
{
    match a {
        Argument::Null | Argument::Unborn => false,
        Argument::The(named) => goes_with(table, object, named),
    }
}

fn is_owned_by_argument(table: &RecordTable, object: Object, a: Argument) -> bool
    ensures { result ≡ option_map_or (is_in (owners_in (births_kept table.now.records) object)) (object_of a) false }
{
    match a {
        Argument::Null | Argument::Unborn => false,
        Argument::The(owner) => is_owned(table, object, owner),
    }
}

#[tactic(auto, using(crate::proofs::Loops::any_more, crate::proofs::Loops::any_end))]
fn goes_with_one(table: &RecordTable, object: Object, call: &LayerCall, p: usize) -> bool
    requires { HasParams call.now }
    ensures { result ≡ list_any (λ a. option_map_or (ends_with (births_kept table.now.records) object) (object_of a) false) (list_at (arguments_of call.now) p) }
{
    for k in 0..count_places(call, p) {
        if goes_with_argument(table, object, argument_at(call, p, k)) {
            return true;
        }
    }
    false
}

#[tactic(auto, using(crate::proofs::Born::any_in))]
fn goes_with_any(table: &RecordTable, object: Object, call: &LayerCall, p: usize) -> bool
    requires { HasParams call.now }
    ensures { result ≡ list_any (ends_with (births_kept table.now.records) object) (objects_in (arguments_of call.now) p) }
{
    goes_with_one(table, object, call, p)
}

#[tactic(auto, using(crate::proofs::Loops::any_more, crate::proofs::Loops::any_end))]
fn is_owned_by_one(table: &RecordTable, object: Object, call: &LayerCall, p: usize) -> bool
    requires { HasParams call.now }
    ensures { result ≡ list_any (λ a. option_map_or (is_in (owners_in (births_kept table.now.records) object)) (object_of a) false) (list_at (arguments_of call.now) p) }
{
    for k in 0..count_places(call, p) {
        if is_owned_by_argument(table, object, argument_at(call, p, k)) {
            return true;
        }
    }
    false
}

#[tactic(auto, using(crate::proofs::Born::any_in))]
fn is_owned_by_any(table: &RecordTable, object: Object, call: &LayerCall, p: usize) -> bool
    requires { HasParams call.now }
    ensures { result ≡ list_any (is_in (owners_in (births_kept table.now.records) object)) (objects_in (arguments_of call.now) p) }
{
    is_owned_by_one(table, object, call, p)
}

// Whether a call of this effect ends an object.
fn ends_it(table: &RecordTable, effect: Effect, call: &LayerCall, object: Object) -> bool
    requires { HasParams call.now }
    ensures { result ≡ ends_by (births_kept table.now.records) (arguments_of call.now) effect object }
{
    match effect {
        Effect::Destroy(p) => goes_with_any(table, object, call, p as usize),
        Effect::Free(p) => goes_with_any(table, object, call, p as usize),
        Effect::Reset(p) => is_owned_by_any(table, object, call, p as usize),
        Effect::None | Effect::Create { .. } | Effect::Retrieve { .. } => false,
    }
}

// Whether a call of this effect can end an object.
pub(crate) fn may_end(effect: Effect) -> bool
    ensures { result ≡ false → DoesNotEnd effect }
{
    match effect {
        Effect::Destroy(_) | Effect::Free(_) | Effect::Reset(_) => true,
        Effect::None | Effect::Create { .. } | Effect::Retrieve { .. } => false,
    }
}

// The object of the record at a place lives no longer where a call of this effect ends it. Tells whether it lived until then.
#[tactic(auto, using(crate::proofs::Owned::lives_there))]
fn end_one(table: &mut RecordTable, effect: Effect, call: &LayerCall, place: usize) -> bool
    requires shape { HasParams call.now }
    requires place { place < length table.old.records }
    ensures records { table.new.records ≡ (if result then ended_at table.old.records place else table.old.records) }
    ensures ends { EndsThere table.old.records place (ends_by (births_kept table.old.records) (arguments_of call.now) effect) result }
    ensures spare { table.new.spare ≡ table.old.spare }
{
    let kept = table.record(place);
    if !kept.lives {
        return false;
    }
    if !ends_it(table, effect, call, kept.object) {
        return false;
    }
    table.end_at(place);
    true
}

// What a call of this effect ends lives no longer, looked for in all records. Tells how many objects that are.
fn end_among_all(table: &mut RecordTable, effect: Effect, call: &LayerCall) -> usize
    requires { HasParams call.now }
    ensures records { table.new.records ≡ swept (ends_by (births_kept table.old.records) (arguments_of call.now) effect) (length table.old.records) table.old.records }
    ensures count { result + length (living_kept table.new.records) ≡ length (living_kept table.old.records) }
    ensures spare { table.new.spare ≡ table.old.spare }
{
    let mut ended: usize = 0;
    for i in 0..table.len() {
        if end_one(table, effect, call, i) {
            ended += 1;
        }
    }
    ended
}

// Whether what is owned at a place can be passed over up to the record at another, which is dead and owned there.
fn is_front(table: &RecordTable, place: usize, above: usize) -> bool
    requires place { place < length table.now.records }
    requires above { above < length table.now.records }
    requires dead { IsDeadAt table.now.records place above }
    ensures { result ≡ true → IsPassed table.now.records above (place + 1) }
{
    let link = table.previous(place);
    let before = table.passed(above);
    table.last_owned(place) == 0 && link <= before
}

// Further walks pass over the record at a place, where they pass over all before it that has the same owner.
fn pass_front(table: &mut RecordTable, place: usize)
    requires { place < length table.old.records }
    ensures records { table.new.records ≡ table.old.records }
    ensures spare { table.new.spare ≡ table.old.spare }
{
    let _count = table.len();
    let kept = table.record(place);
    if kept.lives {
        return;
    }
    match kept.owner {
        KeptOwner::Nobody | KeptOwner::Unborn(_) => {}
        KeptOwner::At(above) => {
            if is_front(table, place, above) {
                table.pass_over(above, place + 1);
            }
        }
    }
}

// The object of the record at a place lives no longer. Tells whether it lived until then, by 1 or 0.
#[tactic(auto, using(crate::proofs::Owned::lives_there, crate::proofs::Swept::one_less))]
fn end_record(table: &mut RecordTable, place: usize) -> usize
    requires { place < length table.old.records }
    ensures records { (ends : Object → Bool) → PassesOnly table.old.records place ends → table.new.records ≡ swept ends (length table.old.records) table.old.records }
    ensures count { result + length (living_kept table.new.records) ≡ length (living_kept table.old.records) }
    ensures spare { table.new.spare ≡ table.old.spare }
{
    let kept = table.record(place);
    if !kept.lives {
        return 0;
    }
    table.end_at(place);
    pass_front(table, place);
    1
}

// Whether all so far, and the object of the record at a place, own nothing.
fn are_leaves_with(table: &RecordTable, are_leaves: bool, place: usize) -> bool
    requires { place < length table.now.records }
    ensures { result ≡ true → (are_leaves ≡ true) × (last_link table.now.records place ≡ 0) }
{
    are_leaves && table.last_owned(place) == 0
}

// Further walks pass over what the object of the record at a place owns, if that was seen to own nothing.
fn pass_leaves(table: &mut RecordTable, are_leaves: bool, place: usize)
    requires place { place < length table.old.records }
    requires passed { are_leaves ≡ true → IsPassed table.old.records place (length table.old.records) }
    ensures records { table.new.records ≡ table.old.records }
    ensures spare { table.new.spare ≡ table.old.spare }
{
    if are_leaves {
        table.pass_over(place, table.len());
    }
}

// What the object of the record at a place owns, at any depth, lives no longer. Tells how many objects that are.
// Calls itself as deep as objects own one another.
fn end_below(table: &mut RecordTable, place: usize) -> usize
    requires place { place < length table.old.records }
    requires born { has_strays_in table.old.records ≡ false }
    ensures records { IsEndedBelow table.old.records place table.new.records }
    ensures count { result + length (living_kept table.new.records) ≡ length (living_kept table.old.records) }
    ensures spare { table.new.spare ≡ table.old.spare }
{
    let _count = table.len();
    let passed = table.passed(place);
    let mut ended: usize = 0;
    let mut are_leaves = true;
    let mut link = table.last_owned(place);
    while link > passed {
        let at = link - 1;
        link = table.previous(at);
        are_leaves = are_leaves_with(table, are_leaves, at);
        ended += end_below(table, at);
        ended += end_record(table, at);
    }
    pass_leaves(table, are_leaves, place);
    ended
}

// What an object owns, at any depth, lives no longer. Tells how many objects that are.
fn end_owned(table: &mut RecordTable, owner: Object) -> usize
    requires { has_strays_in table.old.records ≡ false }
    ensures records { table.new.records ≡ swept (λ o. is_in (owners_in (births_kept table.old.records) o) owner) (length table.old.records) table.old.records }
    ensures count { result + length (living_kept table.new.records) ≡ length (living_kept table.old.records) }
    ensures spare { table.new.spare ≡ table.old.spare }
{
    match table.place_of(owner) {
        None => 0,
        Some(place) => end_below(table, place),
    }
}

// A created object lives no longer, nor does what it owns. Tells how many objects that are.
fn end_named(table: &mut RecordTable, named: Object) -> usize
    requires { has_strays_in table.old.records ≡ false }
    ensures records { table.new.records ≡ swept (λ o. ends_with (births_kept table.old.records) o named) (length table.old.records) table.old.records }
    ensures count { result + length (living_kept table.new.records) ≡ length (living_kept table.old.records) }
    ensures spare { table.new.spare ≡ table.old.spare }
{
    let _count = table.len();
    if !is_created(table, named) {
        return 0;
    }
    match table.place_of(named) {
        None => 0,
        Some(place) => {
            let owned = end_below(table, place);
            owned + end_record(table, place)
        }
    }
}

fn end_owned_by_argument(table: &mut RecordTable, a: Argument) -> usize
    requires { has_strays_in table.old.records ≡ false }
    ensures records { table.new.records ≡ swept (λ o. option_map_or (is_in (owners_in (births_kept table.old.records) o)) (object_of a) false) (length table.old.records) table.old.records }
    ensures count { result + length (living_kept table.new.records) ≡ length (living_kept table.old.records) }
    ensures spare { table.new.spare ≡ table.old.spare }
{
    match object_of(a) {
        None => 0,
        Some(owner) => end_owned(table, owner),
    }
}

fn end_argument(table: &mut RecordTable, a: Argument) -> usize
    requires { has_strays_in table.old.records ≡ false }
    ensures records { table.new.records ≡ swept (λ o. option_map_or (ends_with (births_kept table.old.records) o) (object_of a) false) (length table.old.records) table.old.records }
    ensures count { result + length (living_kept table.new.records) ≡ length (living_kept table.old.records) }
    ensures spare { table.new.spare ≡ table.old.spare }
{
    match object_of(a) {
        None => 0,
        Some(named) => end_named(table, named),
    }
}

// What the objects own that a parameter names lives no longer. Tells how many objects that are.
fn end_all_owned(table: &mut RecordTable, call: &LayerCall, p: usize) -> usize
    requires shape { HasParams call.now }
    requires born { has_strays_in table.old.records ≡ false }
    ensures records { table.new.records ≡ swept (λ o. list_any (is_in (owners_in (births_kept table.old.records) o)) (objects_in (arguments_of call.now) p)) (length table.old.records) table.old.records }
    ensures count { result + length (living_kept table.new.records) ≡ length (living_kept table.old.records) }
    ensures spare { table.new.spare ≡ table.old.spare }
{
    let _count = table.len();
    let mut ended: usize = 0;
    for k in 0..count_places(call, p) {
        ended += end_owned_by_argument(table, argument_at(call, p, k));
    }
    ended
}

// The created objects that a parameter names live no longer, nor does what they own. Tells how many objects that are.
fn end_all_named(table: &mut RecordTable, call: &LayerCall, p: usize) -> usize
    requires shape { HasParams call.now }
    requires born { has_strays_in table.old.records ≡ false }
    ensures records { table.new.records ≡ swept (λ o. list_any (ends_with (births_kept table.old.records) o) (objects_in (arguments_of call.now) p)) (length table.old.records) table.old.records }
    ensures count { result + length (living_kept table.new.records) ≡ length (living_kept table.old.records) }
    ensures spare { table.new.spare ≡ table.old.spare }
{
    let _count = table.len();
    let mut ended: usize = 0;
    for k in 0..count_places(call, p) {
        ended += end_argument(table, argument_at(call, p, k));
    }
    ended
}

// What a call of this effect ends lives no longer. Tells how many objects that are.
// Only owners that weren't born have no links.
pub(crate) fn end_objects(table: &mut RecordTable, effect: Effect, call: &LayerCall) -> usize
    requires { HasParams call.now }
    ensures records { table.new.records ≡ swept (ends_by (births_kept table.old.records) (arguments_of call.now) effect) (length table.old.records) table.old.records }
    ensures count { result + length (living_kept table.new.records) ≡ length (living_kept table.old.records) }
    ensures spare { table.new.spare ≡ table.old.spare }
{
    if table.has_strays() {
        return end_among_all(table, effect, call);
    }
    match effect {
        Effect::Destroy(p) => end_all_named(table, call, p as usize),
        Effect::Free(p) => end_all_named(table, call, p as usize),
        Effect::Reset(p) => end_all_owned(table, call, p as usize),
        Effect::None | Effect::Create { .. } | Effect::Retrieve { .. } => 0,
    }
}
