// The command that replays a trace.
ghost use Rattle.std.specs.Prelude.{◌≡◌, None, IfErr, IfOk};
ghost use Rattle.std.specs.Option.{option_map};
ghost use Rattle.chain_build.specs.Setup.{setup_content};
ghost use Rattle.layer_search.specs.Causes.{WhereTold};
ghost use Rattle.model_driver.specs.Driver.{prepared};
ghost use Rattle.replay_base.specs.Changes.{Change, changed};
ghost use Rattle.replay_core.specs.Replayed.{run_of};
ghost use Rattle.replay_core.specs.declared.status.Status.{Status};
ghost use Rattle.report_text.specs.Setups.{trace_setup};
ghost use Rattle.replay_tool.specs.Ends.{HasStatus, LacksSetup, SaysOf, end_kept, session_at};
ghost use Rattle.replay_tool.specs.Outcome.{EndsRun, EndsUnder};
ghost use Rattle.replay_tool.specs.Showing.{IsSetupOf, search_of, tree_seen};

use crate::chain::search_stop;
use chain_build::{Setup, read_setup};
use dispatch_chain::Kit;
use env_filters::EnvList;
use model_driver::Driver;
use program_words::RunWords;
use replay_base::{Sink, Source, Tree};
use replay_core::{ReplayError, Session, replay};
use std::alloc::Global;

/// Prepares the driver with the policy that the words choose, and reads the manifests of their root.
pub(crate) fn prepare<T: Tree, D: Driver>(
    alloc: Global,
    words: RunWords<'_>,
    env: &EnvList,
    tree: &mut T,
    driver: &mut D,
) -> Result<Setup, ReplayError>
    ensures setup { let search = search_of words.entry.root.now words.entry.exe.now env.now (tree_seen (T.files tree.old) (T.faults tree.old) (T.faults tree.new)) in
        IfOk result (λ setup. WhereTold (T.files tree.old) (IsSetupOf search (setup_content setup)) × (T.faults tree.new ≡ T.faults tree.old)) }
    ensures lacks { let search = search_of words.entry.root.now words.entry.exe.now env.now (tree_seen (T.files tree.old) (T.faults tree.old) (T.faults tree.new)) in
        IfErr result (LacksSetup search) }
    ensures prepared { D.answers_by driver.new ≡ prepared (D.answers_by driver.old) words.entry.policy }
    ensures untold { D.log driver.new ≡ D.log driver.old }
{
    driver.prepare(words.policy);
    match read_setup(alloc, tree, env, words.root, words.exe) {
        Ok(setup) => Ok(setup),
        Err(error) => Err(search_stop(error)),
    }
}

// Replays the trace over a setup.
fn replay_over<S: Source, K: Sink, D: Driver>(
    alloc: Global,
    session: Session,
    setup: &Setup,
    kit: &Kit,
    trace: &mut S,
    out: &mut K,
    driver: &mut D,
) -> Result<Option<Session>, ReplayError>
    requires fresh { option_map (λ x. x.value.kept) session.started ≡ None }
    ensures ends { let source = changed (S.left trace.old) (S.left trace.new) (S.faults trace.old) (S.faults trace.new) in
        let sink = changed (K.held out.old) (K.held out.new) (K.faults out.old) (K.faults out.new) in
        (st : Status) (errs : Change) → HasStatus (end_kept (λ session. option_map (λ x. x.value.kept) session.started) result) st → SaysOf (end_kept (λ session. option_map (λ x. x.value.kept) session.started) result) errs
        → EndsUnder (trace_setup (setup_content setup.now)) (run_of source (D.log driver.old) (D.log driver.new) sink) errs st (session_at (end_kept (λ session. option_map (λ x. x.value.kept) session.started) result)) }
    ensures policy { D.answers_by driver.new ≡ D.answers_by driver.old }
{
    match replay(alloc, session, setup, kit, trace, out, driver) {
        Ok(session) => Ok(Some(session)),
        Err(error) => Err(error),
    }
}

/// Replays the trace with drivers of the words' policy, over the manifests of their root.
pub(crate) fn run<T: Tree, S: Source, K: Sink, D: Driver>(
    alloc: Global,
    words: RunWords<'_>,
    env: &EnvList,
    session: Session,
    kit: &Kit,
    tree: &mut T,
    trace: &mut S,
    out: &mut K,
    driver: &mut D,
) -> Result<Option<Session>, ReplayError>
    requires fresh { option_map (λ x. x.value.kept) session.started ≡ None }
    ensures ends { let seen = tree_seen (T.files tree.old) (T.faults tree.old) (T.faults tree.new) in
        let source = changed (S.left trace.old) (S.left trace.new) (S.faults trace.old) (S.faults trace.new) in
        let sink = changed (K.held out.old) (K.held out.new) (K.faults out.old) (K.faults out.new) in
        (st : Status) (errs : Change) → HasStatus (end_kept (λ session. option_map (λ x. x.value.kept) session.started) result) st → SaysOf (end_kept (λ session. option_map (λ x. x.value.kept) session.started) result) errs
        → EndsRun (search_of words.entry.root.now words.entry.exe.now env.now seen) (run_of source (D.log driver.old) (D.log driver.new) sink) errs st (session_at (end_kept (λ session. option_map (λ x. x.value.kept) session.started) result)) }
    ensures prepared { D.answers_by driver.new ≡ prepared (D.answers_by driver.old) words.entry.policy }
{
    match prepare(alloc, words, env, tree, driver) {
        Ok(setup) => replay_over(alloc, session, &setup, kit, trace, out, driver),
        Err(error) => Err(error),
    }
}
