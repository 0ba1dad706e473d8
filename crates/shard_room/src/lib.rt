//! Room for the calls of a plan in the parts of a session, so that none of them takes memory.
//! Promises that room for what the calls need together is enough for each begin and each return, and that it stays so.
//! Leaves to others who counts what a plan needs and who takes the room.
#![tactic(auto)]

ghost use Rattle.std.specs.Prelude.{◌≡◌, ◌≤◌, ◌+◌, ℕ, Bool, true, false, List, length, vec_capacity};
ghost use Rattle.command_tables.specs.Calls.{CallContent, ReplyContent, call_content};
ghost use Rattle.command_tables.specs.Table.{row_of};
ghost use Rattle.command_tables.specs.declared.call.LayerCall.{LayerCall};
ghost use Rattle.trace_format.specs.Content.{BeginEvent};
ghost use Rattle.lifetime_layer.specs.declared.verdict.Verdict.{Verdict};
ghost use Rattle.dispatch_chain.specs.Holding.{HeldCalls};
ghost use Rattle.dispatch_chain.specs.Seats.{kinds_of};
ghost use Rattle.session_tables.specs.Lined.{owners_made};
ghost use Rattle.session_parts.specs.declared.parts.SessionParts.{SessionParts};
ghost use Rattle.session_parts.specs.Entering.{CanEnter, Enters};
ghost use Rattle.session_parts.specs.Leaving.{CanLeave, Leaves, opened_again};
ghost use Rattle.session_parts.specs.Room.{HasRoomToEnter, HasRoomToLeave, LosesNoRoom, TakesResultsWith};
ghost use Rattle.shard_room.specs.Needs.{IsWithin, Needs};
ghost use Rattle.shard_room.specs.Room.{HasCallRoom, HasPlanRoom, IsBelow, is_among};

use walk_bounds::{a_walk_bears_few, a_walk_finds_few, a_walk_stays_light, light_parts_are_roomy};

/// A call of a plan for which there is room enters without memory. It takes no room, neither of what is due nor of what its thread keeps.
pub fn a_begin_has_room()
    ensures enters { (n : Needs) (threads : List ℕ) (due : ℕ) (x : SessionParts) (number : ℕ) (b : BeginEvent) (call : LayerCall) (held : HeldCalls) (findings : ℕ) →
        HasPlanRoom n threads due x → HasCallRoom n (length x.states.kept) call held findings → IsWithin n b → is_among b.thread threads ≡ true → CanEnter x number b → HasRoomToEnter x number b call held findings }
    ensures stays { (n : Needs) (threads : List ℕ) (due : ℕ) (x y : SessionParts) (number : ℕ) (b : BeginEvent) (call below : LayerCall) (held after : HeldCalls) (findings : ℕ) (before verdict : Verdict) →
        HasPlanRoom n threads due x → IsWithin n b → is_among b.thread threads ≡ true → CanEnter x number b → Enters x number b (call_content below) after verdict y → LosesNoRoom x call held before y below after verdict →
        HasPlanRoom n threads due y }
    ensures thread { (n : Needs) (parts : ℕ) (x y : SessionParts) (call below : LayerCall) (held after : HeldCalls) (before verdict : Verdict) →
        HasCallRoom n parts call held (vec_capacity before.findings) → LosesNoRoom x call held before y below after verdict → HasCallRoom n parts below after (vec_capacity verdict.findings) }
    ensures parts { (x y : SessionParts) → kinds_of y.states.kept ≡ kinds_of x.states.kept → length y.states.kept ≡ length x.states.kept }
{
    a_walk_finds_few();
    a_walk_stays_light();
    a_walk_bears_few();
    light_parts_are_roomy();
}

/// Its return has room for its results among those that are due, and takes room for these alone.
pub fn a_return_has_room()
    ensures leaves { (n : Needs) (threads : List ℕ) (due : ℕ) (x : SessionParts) (b : BeginEvent) (call : CallContent) (skip : Bool) (results : ℕ) →
        HasPlanRoom n threads due x → IsWithin n b → length b.results ≤ due → length b.results ≤ results → (skip ≡ false → IsBelow b call x) →
        (skip ≡ false → length (owners_made x.names.kept.births (opened_again x b call).args (row_of b.cmd).effect) ≤ 3) → HasRoomToLeave x b call skip results }
    ensures stays { (n : Needs) (threads : List ℕ) (rest : ℕ) (x y : SessionParts) (b : BeginEvent) (call : CallContent) (held : HeldCalls) (skip : Bool) (own : List ReplyContent) (count : ℕ) →
        HasPlanRoom n threads (length b.results + rest) x → IsWithin n b → (skip ≡ false → IsBelow b call x) →
        (skip ≡ false → length (owners_made x.names.kept.births (opened_again x b call).args (row_of b.cmd).effect) ≤ 3) →
        CanLeave x b call held skip own → Leaves x b call held skip own y count → TakesResultsWith x b call skip y → kinds_of y.states.kept ≡ kinds_of x.states.kept → HasPlanRoom n threads rest y }
{
    a_walk_stays_light();
    a_walk_bears_few();
}
