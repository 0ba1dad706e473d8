//! What a session keeps while it replays a trace through any chain of layers with any number of drivers, and how a begin and a return change it.
//! Promises that this says what the judged trace says: how each begin is judged, what the drivers are told, what is born, and every line.
//! The names of the trace may have gaps in their numbers.
//! Leaves to others the code of the session, which is proved equal to these functions, and the steps of the chain, which `chain_model` proves.
#![tactic(auto)]

mod samples;

ghost use Rattle.std.specs.Prelude.{◌≡◌, ◌≤◌, ℕ, true, Some, List, [], ◌∷◌, length, reverse};
ghost use Rattle.command_tables.specs.Calls.{ReplyContent};
ghost use Rattle.command_tables.specs.Table.{row_of};
ghost use Rattle.trace_format.specs.Content.{BeginEvent, TraceEvent, Begin, Return};
ghost use Rattle.object_model.specs.declared.Object.{Object};
ghost use Rattle.object_model.specs.History.{Birth, alive, births, owners_in};
ghost use Rattle.object_model.specs.Objects.{is_in};
ghost use Rattle.replay_model.specs.Setup.{Setup};
ghost use Rattle.replay_model.specs.Direct.{Sent};
ghost use Rattle.replay_model.specs.Births.{made_by};
ghost use Rattle.replay_model.specs.Judged.{judged, made_of};
ghost use Rattle.replay_model.specs.Past.{Opened};
ghost use Rattle.replay_model.specs.Text.{end_line, end_of};
ghost use Rattle.chain_model.specs.Gaps.{IsGapped};
ghost use Rattle.chain_model.specs.Simulated.{Held};
ghost use Rattle.chain_model.specs.Traces.{GivesGuarded};
ghost use Rattle.session_model.specs.Running.{AreAnsweredInRun, RanWell, session_of, session_started};
ghost use Rattle.session_model.specs.Session.{SessionKept, nothing_kept};
ghost use Rattle.session_model.specs.Enough.{IsOpenOf, SaysOfCalls, SaysOfReturns, history_of, living_retrievals};
ghost use Rattle.session_tables.specs.Lined.{AreAdded, owners_made};
ghost use Rattle.session_model.specs.Living.{AreOfLiving, ArePast, births_past, births_since};
ghost use Rattle.session_model.specs.Returning.{held_of_thread, sent_of_thread};
ghost use Rattle.session_model.specs.Stands.{BeginsWell, HasCall, HasNoCall, ReturnsWell, Stands};
ghost use Rattle.session_model.specs.Steps.{BeginSteps, ReturnSteps};

/// With no events yet, a session that kept nothing stands.
pub fn a_new_session_stands()
    ensures { (s : Setup) → Stands s nothing_kept [] [] }
{}

/// A begin more of a trace is judged by what is kept as the trace judges it. Its drivers are told, in order, what the trace tells them, its
/// lines are the trace's, and with the replies of its drivers what is kept then stands for the trace with the begin.
pub fn a_begin_is_replayed()
    ensures { (s : Setup) (k : SessionKept) (events : List TraceEvent) (e : BeginEvent) (replies : List ReplyContent) →
        IsGapped (Begin e ∷ events) → Stands s k events replies → BeginsWell s k events e replies }
{}

/// A return more: what is born and the line are the trace's, and what is kept then stands for the trace with the return, with any lists of names
/// and handles that say the same by look-up.
pub fn a_return_is_replayed()
    ensures { (s : Setup) (k : SessionKept) (events : List TraceEvent) (thread : ℕ) (replies : List ReplyContent) (c : Sent) (h : Held) → GivesGuarded s →
        IsGapped events → Stands s k events replies → sent_of_thread k thread ≡ Some c → held_of_thread k thread ≡ Some h → ReturnsWell s k events thread replies c h }
{}

/// The thread of a begin has no open call among those kept, and that of a return has one, which the chain holds too.
pub fn threads_call_in_turn()
    ensures begins { (s : Setup) (k : SessionKept) (events : List TraceEvent) (e : BeginEvent) (replies : List ReplyContent) →
        IsGapped (Begin e ∷ events) → Stands s k events replies → HasNoCall k e.thread }
    ensures returns { (s : Setup) (k : SessionKept) (events : List TraceEvent) (thread : ℕ) (replies : List ReplyContent) →
        IsGapped (Return thread ∷ events) → Stands s k events replies → HasCall k thread }
{}

/// So a session that replays a trace from nothing, event by event, writes the lines of the trace and tells the drivers what the trace tells them,
/// whatever they answer, and stands for the trace at its end.
pub fn a_session_replays_its_trace()
    ensures { (s : Setup) (replies : List ReplyContent) (events : List TraceEvent) → GivesGuarded s → IsGapped (reverse events) →
        AreAnsweredInRun s (session_started replies) events → RanWell s (session_of s replies events) (reverse events) }
{}

/// What the steps of the chain rely on. At a begin no threads part has an open call of its thread, the call and what the drivers are told have their
/// command's shape, and the owners of what lives live and stand in a line. At a return the call has an answer of each of its drivers and the
/// lists of its row above each part, its first argument leads to these drivers again, and the results that come up are new once to each
/// checking part.
pub fn the_steps_may_rely_on_it()
    ensures begins { (s : Setup) (k : SessionKept) (events : List TraceEvent) (e : BeginEvent) (replies : List ReplyContent) →
        IsGapped (Begin e ∷ events) → Stands s k events replies → BeginSteps s k e }
    ensures returns { (s : Setup) (k : SessionKept) (events : List TraceEvent) (thread : ℕ) (replies : List ReplyContent) (c : Sent) (h : Held) → GivesGuarded s →
        IsGapped events → Stands s k events replies → sent_of_thread k thread ≡ Some c → held_of_thread k thread ≡ Some h → ReturnSteps s k c h }
{}

/// The births of what lives then can be listed: the lists that are asked for after a begin and after a return are there.
pub fn what_lives_can_be_listed()
    ensures begins { (before : List Birth) (o : Opened) → ArePast before o (births_past before o) }
    ensures returns { (before given : List Birth) → AreAdded before given (births_since before given) }
{}

/// The last line by the numbers that are kept is the trace's.
pub fn the_end_line_is_the_traces()
    ensures { (s : Setup) (k : SessionKept) (events : List TraceEvent) (replies : List ReplyContent) → Stands s k events replies →
        end_line k.calls k.skipped k.reports ≡ end_of (judged s events) }
{}

/// An owner of what lives, at any depth, lives; and no object has more than three owners.
pub fn owners_of_what_lives_live()
    ensures live { (s : Setup) (events : List TraceEvent) (x y : Object) → IsGapped events → alive (history_of s events) x ≡ true →
        is_in (owners_in (births (history_of s events)) x) y ≡ true → alive (history_of s events) y ≡ true }
    ensures three { (s : Setup) (events : List TraceEvent) (x : Object) → IsGapped events → length (owners_in (births (history_of s events)) x) ≤ 3 }
{}

/// What an open call makes has three owners at most, also by the births of what lives.
pub fn what_is_made_has_few_owners()
    ensures { (s : Setup) (events : List TraceEvent) (thread : ℕ) (o : Opened) (ls : List Birth) → IsGapped events → IsOpenOf s events thread o → AreOfLiving ls (history_of s events) →
        length (owners_made ls o.args (row_of o.cmd).effect) ≤ 3 }
{}

/// A session that kept the births of what lives alone would judge, end, make and retrieve the same, and the retrievals of what lives are
/// enough too.
pub fn births_of_what_lives_are_enough()
    ensures calls { (s : Setup) (events : List TraceEvent) (ls : List Birth) → IsGapped events → AreOfLiving ls (history_of s events) → SaysOfCalls s events ls }
    ensures returns { (s : Setup) (events : List TraceEvent) (ls : List Birth) (thread : ℕ) (o : Opened) → IsGapped events → AreOfLiving ls (history_of s events) →
        IsOpenOf s events thread o → SaysOfReturns s events ls o }
    ensures retrievals { (s : Setup) (events : List TraceEvent) (o : Opened) → IsGapped events →
        made_by s.drivers (births (history_of s events)) (alive (history_of s events)) (living_retrievals s events) o ≡ made_of s (judged s events) o }
{}
