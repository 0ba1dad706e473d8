//! What a trace means: its events judged one by one, the reports, the answers, the text, and what the drivers are told.
//! Promises the laws of these definitions: skipped calls change nothing that drivers are told, and what one event more adds.
//! Leaves to others how a trace is read, how a chain is built, and which rules hold of objects.
#![tactic(auto)]

mod samples;

ghost use Rattle.std.specs.Prelude.{◌≡◌, ◌++◌, List, [], drop, length, map, reverse, true, ℕ, find, is_some, None, Ok};
ghost use Rattle.std.specs.List.{zip};
ghost use Rattle.command_tables.specs.Calls.{ReplyContent};
ghost use Rattle.object_model.specs.declared.Object.{Object};
ghost use Rattle.trace_format.specs.Accepting.{are_accepted, is_open};
ghost use Rattle.trace_format.specs.Accepting.{calls_begun};
ghost use Rattle.trace_format.specs.Content.{TraceEvent};
ghost use Rattle.replay_model.specs.Setup.{Setup};
ghost use Rattle.replay_model.specs.Past.{Past, calls_in, is_of, open_calls, routed};
ghost use Rattle.replay_model.specs.Judged.{judge, judged};
ghost use Rattle.object_model.specs.Routes.{driver_in};
ghost use Rattle.replay_model.specs.ChainPlaces.{parts_in_force};
ghost use Rattle.replay_model.specs.Direct.{direct, exchanges, exchanges_at, sends_at, sends_in};
ghost use Rattle.replay_model.specs.Text.{lines, lines_at, skipped_in};
ghost use Rattle.replay_model.specs.Less.{less, no_layers};
ghost use Rattle.replay_base.specs.Lines.{lines_of};
ghost use Rattle.trace_format.specs.Reading.{read_line};
ghost use Rattle.replay_model.specs.Stop.{events_of, stop};
ghost use Rattle.replay_model.specs.declared.TheConstants.{MOST_LINES};

use object_model::Object;
use trace_format::Name;

/// How many lines a trace may have, its header among them.
pub const MOST_LINES: u64 = 16_777_216;

/// A trace has 16,777,216 lines at most, its header among them.
pub fn the_limit_of_lines()
    ensures { MOST_LINES ≡ 16777216 }
{}

/// A name and the object for which it stands.
#[derive(Clone, Copy, Debug, PartialEq, Eq)]
pub struct Named {
    pub name: Name,
    pub object: Object,
}

/// A result that was born: its place among the call's results, its name, and the object for which it stands.
#[derive(Clone, Copy, Debug, PartialEq, Eq)]
pub struct Born {
    pub place: usize,
    pub name: Name,
    pub object: Object,
}

/// Without its skipped calls a trace tells the drivers the same, whatever layers there were: what they are told is what the trace
/// less its skipped calls makes with no layers, where none of its calls is skipped. Each event may follow those before it.
pub fn skipped_calls_are_not_sent()
    ensures calls { (s : Setup) (events : List TraceEvent) (replies : List ReplyContent) → are_accepted events ≡ true →
        direct (judged (no_layers s) (less (judged s events))) replies ≡ direct (judged s events) replies }
    ensures exchanges { (s : Setup) (events : List TraceEvent) (replies : List ReplyContent) → are_accepted events ≡ true →
        exchanges (judged (no_layers s) (less (judged s events))) replies ≡ exchanges (judged s events) replies }
    ensures skipped { (s : Setup) (events : List TraceEvent) → are_accepted events ≡ true →
        skipped_in (judged (no_layers s) (less (judged s events))) ≡ 0 }
{}

/// The events of a trace, up to its stop, may each follow those before it, so that what is said of accepted events holds of them.
pub fn traces_are_accepted()
    ensures { (s : Setup) (bytes : List ℕ) → are_accepted (events_of s bytes) ≡ true }
{}

/// Where nothing stops a trace, its events, the oldest first, are those that the lines behind its header spell.
pub fn a_trace_without_a_stop_spells_its_events()
    ensures { (s : Setup) (bytes : List ℕ) → stop s bytes ≡ None → map (λ e. Ok e) (reverse (events_of s bytes)) ≡ map read_line (drop 1 (lines_of bytes)) }
{}

/// So the drivers are told just what the trace, up to its stop and less its skipped calls, tells them with no layers.
pub fn skipped_calls_of_a_trace_are_not_sent()
    ensures calls { (s : Setup) (bytes : List ℕ) (replies : List ReplyContent) →
        direct (judged (no_layers s) (less (judged s (events_of s bytes)))) replies ≡ direct (judged s (events_of s bytes)) replies }
    ensures exchanges { (s : Setup) (bytes : List ℕ) (replies : List ReplyContent) →
        exchanges (judged (no_layers s) (less (judged s (events_of s bytes)))) replies ≡ exchanges (judged s (events_of s bytes)) replies }
{}

/// The judged calls are those of the events: as many have begun, and a thread has an open one where its events say so.
pub fn calls_are_those_of_the_events()
    ensures begun { (s : Setup) (events : List TraceEvent) → calls_in (judged s events) ≡ calls_begun events }
    ensures open_calls { (s : Setup) (events : List TraceEvent) (thread : ℕ) →
        is_some (find (is_of thread) (open_calls (judged s events))) ≡ is_open thread events }
{}

/// Without layers no part is in force, and with one driver every call goes to it.
pub fn no_layers_and_one_driver()
    ensures parts { (s : Setup) (past : Past) → parts_in_force (no_layers s) past ≡ [] }
    ensures driver { (s : Setup) (events : List TraceEvent) (o : Object) → s.drivers ≡ 1 → driver_in (routed (judged s events)) o ≡ 0 }
{}

/// One event more adds its lines, and its driver calls with their replies, where it has one reply for each of them.
pub fn what_one_event_adds()
    ensures lines { (s : Setup) (past : Past) (e : TraceEvent) → lines s (judge s past e) ≡ lines s past ++ lines_at s past e }
    ensures exchanges { (s : Setup) (past : Past) (e : TraceEvent) (more before : List ReplyContent) → length more ≡ sends_at s past e →
        exchanges (judge s past e) (more ++ before) ≡ exchanges past before ++ exchanges_at s past e (more ++ before) }
{}

/// With one reply for each driver call, each call stands beside its reply, in their order.
pub fn one_reply_for_each_driver_call()
    ensures { (past : Past) (replies : List ReplyContent) → length replies ≡ sends_in past →
        exchanges past replies ≡ zip (direct past replies) (reverse replies) }
{}
