//! What stays, and what shape a told call has.
ghost use Rattle.std.specs.Prelude.{◌≡◌, ℕ, true, List, Option, Some};
ghost use Rattle.command_tables.specs.Calls.{CallContent, ReplyContent};
ghost use Rattle.command_tables.specs.declared.types.ObjectType.{ObjectType};
ghost use Rattle.handle_map.specs.Pairs.{has_pair};
ghost use Rattle.layer_model.specs.Ids.{IdMap, Key, kept_id};
ghost use Rattle.layer_model.specs.Reading.{read_call};
ghost use Rattle.layer_model.specs.Routes.{drivers_at};
ghost use Rattle.layer_model.specs.Terminator.{told_call};
ghost use Rattle.model_driver.specs.Driver.{HasShape};
ghost use Rattle.object_model.specs.Objects.{first_in};
ghost use Rattle.object_model.specs.Values.{Value};
ghost use Rattle.object_model.specs.declared.Object.{Object};
ghost use Rattle.terminator.specs.Calls.{FitsCall, TerminatorState, drivers_for, is_settled, left_by, routes_left};

/// What later results add changes neither the drivers of a call whose first argument has a route, or is an instance, or is none,
/// nor that an id was issued, nor by which key it is kept.
pub fn what_was_issued_stays()
    ensures drivers { (s : TerminatorState) (c later : CallContent) (results : List ℕ) → is_settled s.routes (first_in (read_call c) 0) ≡ true →
        drivers_at s.drivers (routes_left s later results) c ≡ drivers_for s c }
    ensures settled { (s : TerminatorState) (o : Option Object) (later : CallContent) (results : List ℕ) → is_settled s.routes o ≡ true →
        is_settled (routes_left s later results) o ≡ true }
    ensures ids { (s : TerminatorState) (later : CallContent) (replies : List ReplyContent) (flags : List ℕ) (t : ObjectType) (id : ℕ) → has_pair s.ids.entries t id ≡ true →
        has_pair (left_by s later replies flags).ids.entries t id ≡ true }
    ensures kept { (s : TerminatorState) (later : CallContent) (replies : List ReplyContent) (flags : List ℕ) (k : Key) (id : ℕ) → kept_id s.ids.kept k ≡ Some id →
        kept_id (left_by s later replies flags).ids.kept k ≡ Some id }
{}

/// What a driver is told of a call that has its row's shape has that shape too, as a driver wants it.
pub fn what_is_told_has_its_shape()
    ensures { (m : IdMap (List Value)) (c : CallContent) (driver : ℕ) → FitsCall c → HasShape (told_call m c driver) }
{}
