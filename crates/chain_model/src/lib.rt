//! That a chain of layers, as the exact machine of its parts and its terminator, simulates a trace.
//! Promises, for every guarded chain and every number of drivers: what the machine finds is what the trace says, what the drivers are told
//! is what the trace makes, and what is kept stands for the trace after each event. The names of the trace may have gaps in their numbers.
//! Leaves to others the code of the parts and of the session, which are proved equal to the machine.
#![tactic(auto)]

ghost use Rattle.std.specs.Prelude.{◌≡◌, ◌==◌, ◌++◌, ℕ, true, false, Some, List, [], ◌∷◌, find, map};
ghost use Rattle.command_tables.specs.Calls.{ReplyContent};
ghost use Rattle.command_tables.specs.declared.types.CommandId.TheVariants as cmd;
ghost use Rattle.command_tables.specs.Tests.{same_command};
ghost use Rattle.trace_format.specs.Content.{BeginEvent, TraceEvent, Begin, Return};
ghost use Rattle.object_model.specs.declared.Object.{Object};
ghost use Rattle.object_model.specs.declared.PartKind.{PartKind};
ghost use Rattle.object_model.specs.History.{Birth, born_in};
ghost use Rattle.object_model.specs.Renaming.{IsOneToOne};
ghost use Rattle.replay_model.specs.Setup.{Setup};
ghost use Rattle.replay_model.specs.Past.{Opened, is_of, is_skipped, open_calls};
ghost use Rattle.replay_model.specs.Direct.{answers_of, sent};
ghost use Rattle.replay_model.specs.Judged.{begun_of, judged, made_of};
ghost use Rattle.layer_model.specs.Walks.{enter_parts, new_part, nothing_found};
ghost use Rattle.chain_model.specs.Gaps.{IsGapped};
ghost use Rattle.chain_model.specs.Tokens.{token_in};
ghost use Rattle.chain_model.specs.Simulated.{ChainKept, Held, after_reply, after_skipped, base_of, fresh_of, no_chain};
ghost use Rattle.chain_model.specs.Traces.{GivesGuarded, GoesDown, IsTrace, Simulates, held_in_force, in_force};

/// Ids are positions: the tokens of born objects tell them apart, and stay as they are when more is born.
pub fn tokens_tell_objects_apart()
    ensures one_to_one { (bs : List Birth) → IsOneToOne (born_in bs) (token_in bs) }
    ensures stay { (bs cs : List Birth) (o : Object) → born_in bs o ≡ true → token_in (bs ++ cs) o ≡ token_in bs o }
{}

/// With no events yet, a chain that was given nothing stands.
pub fn no_chain_stands()
    ensures { (s : Setup) → Simulates s no_chain [] [] }
{}

/// The names of a trace, numbered in each thread without gaps, are new and distinct: so a trace is such events as the laws below ask for.
pub fn a_trace_has_new_names()
    ensures { (events : List TraceEvent) → IsTrace events → IsGapped events }
{}

/// A begin more of a trace, whose names may have gaps in their numbers: what the loader and the walk find is what the trace says, a call that
/// passes goes to the drivers of the trace and is told to each of them as the trace says, and what is kept then stands for the trace with
/// the begin.
pub fn a_begin_goes_down()
    ensures { (s : Setup) (k : ChainKept) (events : List TraceEvent) (b : BeginEvent) (replies after : List ReplyContent) →
        IsGapped (Begin b ∷ events) → Simulates s k events replies → GoesDown s k events b replies after (begun_of s (judged s events) b).opened }
{}

/// A return more: after the answers have gone up, or after a skipped call, what is kept stands for the trace with the return. At the
/// return of the call that makes the instance its chain comes in force before.
pub fn results_go_up()
    ensures sent { (s : Setup) (k : ChainKept) (events : List TraceEvent) (thread : ℕ) (o : Opened) (h : Held) (lost : List ℕ) (replies : List ReplyContent) →
        IsGapped events → Simulates s k events replies → find (is_of thread) (open_calls (judged s events)) ≡ Some o → find (λ (x : Held). x.thread == thread) k.held ≡ Some h →
        GivesGuarded s → is_skipped o ≡ false →
        Simulates s (after_reply (in_force s k o) o (held_in_force s o h) (answers_of (sent (judged s events) replies) o.thread) (made_of s (judged s events) o) lost) (Return thread ∷ events) replies }
    ensures skipped { (s : Setup) (k : ChainKept) (events : List TraceEvent) (thread : ℕ) (o : Opened) (h : Held) (lost : List ℕ) (replies : List ReplyContent) →
        IsGapped events → Simulates s k events replies → find (is_of thread) (open_calls (judged s events)) ≡ Some o → find (λ (x : Held). x.thread == thread) k.held ≡ Some h →
        is_skipped o ≡ true → Simulates s (after_skipped k o h lost) (Return thread ∷ events) replies }
{}

/// A chain that comes in force is new, and the call that makes the instance has come down through it: it finds nothing, and stands above
/// each part as it was told.
pub fn a_new_chain_takes_the_instance()
    ensures { (o : Opened) (kinds : List PartKind) (place : ℕ) → same_command o.cmd cmd.CreateInstance ≡ true →
        enter_parts o.thread o.number place (map new_part kinds) (base_of o)
        ≡ record { states = map (fresh_of o) kinds; forms = map (λ _. base_of o) kinds; found = nothing_found; bottom = base_of o } }
{}
