// All that the program does.
ghost use Rattle.std.specs.Prelude.{◌≡◌, ◌≢◌, ◌⊎◌, ◌≤◌, List, None, Some};
ghost use Rattle.std.specs.Option.{option_map};
ghost use Rattle.replay_base.specs.Changes.{Change, changed};
ghost use Rattle.replay_core.specs.Replayed.{run_of};
ghost use Rattle.replay_core.specs.declared.status.Status.{Status};
ghost use Rattle.replay_core.specs.declared.status.Status.TheVariants as status;
ghost use Rattle.program_words.specs.Asked.{HasFewTurns, words_ask};
ghost use Rattle.program_words.specs.Content.{words_of};
ghost use Rattle.program_words.specs.Meant.{chain_meant, gen_meant, meant};
ghost use Rattle.program_words.specs.Words.{Word};
ghost use Rattle.trace_gen.specs.declared.turns.TheConstants.{MOST_CALLS as MOST};
ghost use Rattle.replay_tool.specs.Ends.{HasStatus, SaysOf, end_kept, session_at};
ghost use Rattle.replay_tool.specs.Outcome.{EndsAs, IsLeftBy, IsPrepared, Keeps, MakeEnds, ShowEnds};
ghost use Rattle.replay_tool.specs.Output.{made_text};
ghost use Rattle.replay_tool.specs.Showing.{chain_run, tree_seen};

use crate::chain::show_chain;
use crate::finish::{Finished, finish, flushed, refuse_words};
use crate::run::run;
use crate::soak::soak;
use dispatch_chain::Kit;
use env_filters::EnvList;
use model_driver::Driver;
use program_words::{ChainWords, GenWords, Request, read_words};
use replay_base::{Sink, Source, Tree};
use replay_core::{ReplayError, Session};
use std::alloc::Global;
use trace_gen::{GenError, generate};

// Shows the chain that the words ask for.
#[tactic(auto, using(crate::proofs::Ending::chain_cut))]
fn show<T: Tree, K: Sink>(
    alloc: Global,
    words: ChainWords<'_>,
    env: &EnvList,
    tree: &mut T,
    out: &mut K,
) -> Result<Option<Session>, ReplayError>
    ensures ends { let seen = tree_seen (T.files tree.old) (T.faults tree.old) (T.faults tree.new) in
        let sink = changed (K.held out.old) (K.held out.new) (K.faults out.old) (K.faults out.new) in
        (st : Status) (errs : Change) → HasStatus (end_kept (λ session. option_map (λ x. x.value.kept) session.started) result) st → SaysOf (end_kept (λ session. option_map (λ x. x.value.kept) session.started) result) errs → ShowEnds (chain_run (chain_meant words.entry) env.now seen) sink errs st }
    ensures none { session_at (end_kept (λ session. option_map (λ x. x.value.kept) session.started) result) ≡ None }
{
    match show_chain(alloc, words, env, tree, out) {
        Ok(()) => Ok(None),
        Err(error) => Err(error),
    }
}

// Writes the generated trace that the words ask for.
fn make<K: Sink>(
    alloc: Global,
    words: GenWords,
    out: &mut K,
) -> Result<Option<Session>, ReplayError>
    requires few { words.calls ≤ MOST }
    ensures ends { let sink = changed (K.held out.old) (K.held out.new) (K.faults out.old) (K.faults out.new) in
        (st : Status) (errs : Change) → HasStatus (end_kept (λ session. option_map (λ x. x.value.kept) session.started) result) st → SaysOf (end_kept (λ session. option_map (λ x. x.value.kept) session.started) result) errs → MakeEnds (made_text (gen_meant words)) sink errs st }
    ensures none { session_at (end_kept (λ session. option_map (λ x. x.value.kept) session.started) result) ≡ None }
{
    match generate(alloc, words.number, words.calls, out) {
        Ok(()) => Ok(None),
        Err(GenError::Write) => Err(ReplayError::Write),
        Err(GenError::NoMemory) => Err(ReplayError::NoMemory),
    }
}

// Does what is asked for, up to its end.
fn perform<T: Tree, S: Source, K: Sink, D: Driver>(
    alloc: Global,
    asked: Request<'_>,
    env: &EnvList,
    session: Session,
    kit: &Kit,
    tree: &mut T,
    trace: &mut S,
    out: &mut K,
    driver: &mut D,
) -> Result<Option<Session>, ReplayError>
    requires fresh { option_map (λ x. x.value.kept) session.started ≡ None }
    requires few { HasFewTurns (meant asked) }
    ensures ends { let seen = tree_seen (T.files tree.old) (T.faults tree.old) (T.faults tree.new) in
        let source = changed (S.left trace.old) (S.left trace.new) (S.faults trace.old) (S.faults trace.new) in
        let sink = changed (K.held out.old) (K.held out.new) (K.faults out.old) (K.faults out.new) in
        let run = run_of source (D.log driver.old) (D.log driver.new) sink in
        (given : List Word) (st : Status) (errs : Change) → HasStatus (end_kept (λ session. option_map (λ x. x.value.kept) session.started) result) st → SaysOf (end_kept (λ session. option_map (λ x. x.value.kept) session.started) result) errs
        → EndsAs (Some (meant asked.entry)) (record { words = given; env = env.now; tree = seen; run = run; errs = errs }) st (session_at (end_kept (λ session. option_map (λ x. x.value.kept) session.started) result)) }
    ensures prepared { (st : Status) → IsPrepared (Some (meant asked.entry)) st (D.answers_by driver.old) (D.answers_by driver.new) }
    ensures tree { IsLeftBy (Some (meant asked.entry)) tree.old tree.new }
{
    match asked {
        Request::Run(words) => run(alloc, words, env, session, kit, tree, trace, out, driver),
        Request::Chain(words) => show(alloc, words, env, tree, out),
        Request::Gen(words) => make(alloc, words, out),
        Request::Soak(words) => soak(alloc, words, env, session, kit, tree, out, driver),
    }
}

/// Runs the program: `words` are the command line's without the program's name. `run`, `chain` and `soak` read the manifests in the
/// tree. `run` then replays the trace, each vkCreateInstance through the chain of layers that they come to, and `soak` a generated
/// trace, of which it writes the end line alone; `chain` shows that chain, and `gen` writes a generated trace: neither replays
/// anything, and `run` alone reads the trace. Before anything is read for a replay the driver is prepared once, with the policy that
/// the words choose; otherwise no method of it is called. The session is one for which nothing was replayed yet: it takes the
/// trace, and comes back where that came to its end.
///
/// What the sink holds back it hands on at the end, before anything is said; a failure of that is a write fault. A failure of the
/// error sink changes no status.
pub fn replay_main<T: Tree, S: Source, K: Sink, L: Sink, D: Driver>(
    alloc: Global,
    words: &[String],
    env: &EnvList,
    session: Session,
    kit: &Kit,
    tree: &mut T,
    trace: &mut S,
    out: &mut K,
    errs: &mut L,
    driver: &mut D,
) -> Finished
    requires fresh { option_map (λ x. x.value.kept) session.started ≡ None }
    // The promises of the program, each said where `Keeps` is defined: where nothing failed, the status, what is written and
    // what is said are a function of the words, the variables, the files and the trace's bytes; and each status has its cause.
    ensures promises { let seen = tree_seen (T.files tree.old) (T.faults tree.old) (T.faults tree.new) in
        let source = changed (S.left trace.old) (S.left trace.new) (S.faults trace.old) (S.faults trace.new) in
        let sink = changed (K.held out.old) (K.held out.new) (K.faults out.old) (K.faults out.new) in
        let run = run_of source (D.log driver.old) (D.log driver.new) sink in
        let said = changed (L.held errs.old) (L.held errs.new) (L.faults errs.old) (L.faults errs.new) in
        Keeps (record { words = words_of words.now; env = env.now; tree = seen; run = run; errs = said }) result.status
        (option_map (λ session. option_map (λ x. x.value.kept) session.started) result.session) }
    // The driver is prepared by these words alone.
    ensures prepared { IsPrepared (words_ask (words_of words.now)) result.status (D.answers_by driver.old) (D.answers_by driver.new) }
    // Unless it failed, the sink holds nothing back at the end, or no method of it was called.
    ensures flushed { result.status ≢ status.WriteFault → (K.held_back out.new ≡ 0) ⊎ (out.new ≡ out.old) }
    // No method of the tree is called but for a chain or a replay.
    ensures tree { IsLeftBy (words_ask (words_of words.now)) tree.old tree.new }
{
    match read_words(alloc, words) {
        Ok(asked) => {
            let ended = perform(alloc, asked, env, session, kit, tree, trace, out, driver);
            finish(flushed(ended, out), errs)
        }
        Err(error) => Finished {
            status: refuse_words(errs, error),
            session: None,
        },
    }
}
