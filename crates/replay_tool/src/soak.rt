// The command that replays a generated trace.
ghost use Rattle.std.specs.Prelude.{◌≡◌, ◌≤◌, None, IfErr, IfOk};
ghost use Rattle.std.specs.Option.{option_map};
ghost use Rattle.chain_build.specs.Setup.{setup_content};
ghost use Rattle.model_driver.specs.Driver.{prepared};
ghost use Rattle.program_words.specs.Meant.{gen_meant};
ghost use Rattle.replay_base.specs.Changes.{Change, changed};
ghost use Rattle.replay_core.specs.Replayed.{run_of};
ghost use Rattle.replay_core.specs.declared.status.Status.{Status};
ghost use Rattle.report_text.specs.Setups.{trace_setup};
ghost use Rattle.trace_gen.specs.declared.turns.TheConstants.{MOST_CALLS as MOST};
ghost use Rattle.replay_core.specs.Traffic.{traffic_of};
ghost use Rattle.replay_tool.specs.Ends.{HasStatus, SaysOf, end_kept, session_at};
ghost use Rattle.replay_tool.specs.Outcome.{EndsSoak, IsUnread, SoakCut, SoakedWhole, SoaksUnder};
ghost use Rattle.replay_tool.specs.Showing.{search_of, tree_seen};

use crate::run::prepare;
use chain_build::Setup;
use dispatch_chain::Kit;
use env_filters::EnvList;
use model_driver::Driver;
use program_words::{GenWords, SoakWords};
use replay_base::{Failed, Sink, Tree};
use replay_core::{ReplayError, Session, put_end, replay};
use std::alloc::Global;
use trace_gen::GenSource;

/// A sink that takes all and holds nothing. It never fails.
#[derive(Drop)]
pub(crate) struct Nowhere;

impl Sink for Nowhere {
    ghost held = { λ _. None };

    ghost faults = { λ _. 0 };

    fn write(&mut self, piece: &[u8]) -> Result<usize, Failed> {
        Ok(piece.len())
    }

    fn flush(&mut self) -> Result<(), Failed> {
        Ok(())
    }
}

// Replays a generated trace over a setup. Its text goes nowhere.
fn replay_made<D: Driver>(
    alloc: Global,
    session: Session,
    made: GenWords,
    setup: &Setup,
    kit: &Kit,
    driver: &mut D,
) -> Result<Session, ReplayError>
    requires fresh { option_map (λ x. x.value.kept) session.started ≡ None }
    requires few { made.calls ≤ MOST }
    ensures whole { IfOk result (λ session. SoakedWhole (trace_setup (setup_content setup.now)) (gen_meant made) (option_map (λ x. x.value.kept) session.started) (D.log driver.old) (D.log driver.new)) }
    ensures cut { IfErr result (SoakCut (trace_setup (setup_content setup.now)) (gen_meant made) (D.log driver.old) (D.log driver.new)) }
    ensures policy { D.answers_by driver.new ≡ D.answers_by driver.old }
{
    let Ok(mut trace) = GenSource::new(alloc, made.number, made.calls) else {
        return Err(ReplayError::NoMemory);
    };
    let mut out = Nowhere;
    replay(alloc, session, setup, kit, &mut trace, &mut out, driver)
}

// The same, and then its end line.
fn soak_over<K: Sink, D: Driver>(
    alloc: Global,
    session: Session,
    made: GenWords,
    setup: &Setup,
    kit: &Kit,
    out: &mut K,
    driver: &mut D,
) -> Result<Option<Session>, ReplayError>
    requires fresh { option_map (λ x. x.value.kept) session.started ≡ None }
    requires few { made.calls ≤ MOST }
    ensures ends { let sink = changed (K.held out.old) (K.held out.new) (K.faults out.old) (K.faults out.new) in
        (st : Status) (errs : Change) → HasStatus (end_kept (λ session. option_map (λ x. x.value.kept) session.started) result) st → SaysOf (end_kept (λ session. option_map (λ x. x.value.kept) session.started) result) errs
        → SoaksUnder (trace_setup (setup_content setup.now)) (gen_meant made) (traffic_of (D.log driver.old) (D.log driver.new) sink) errs st (session_at (end_kept (λ session. option_map (λ x. x.value.kept) session.started) result)) }
    ensures policy { D.answers_by driver.new ≡ D.answers_by driver.old }
{
    let session = match replay_made(alloc, session, made, setup, kit, driver) {
        Ok(session) => session,
        Err(error) => return Err(error),
    };
    match put_end(session.tally(), alloc, out) {
        Ok(()) => Ok(Some(session)),
        Err(error) => Err(error),
    }
}

/// Replays the generated trace with drivers of the words' policy, over the manifests of their root, and writes its end line alone.
pub(crate) fn soak<T: Tree, K: Sink, D: Driver>(
    alloc: Global,
    words: SoakWords<'_>,
    env: &EnvList,
    session: Session,
    kit: &Kit,
    tree: &mut T,
    out: &mut K,
    driver: &mut D,
) -> Result<Option<Session>, ReplayError>
    requires fresh { option_map (λ x. x.value.kept) session.started ≡ None }
    requires few { words.made.calls ≤ MOST }
    ensures ends { let seen = tree_seen (T.files tree.old) (T.faults tree.old) (T.faults tree.new) in
        let sink = changed (K.held out.old) (K.held out.new) (K.faults out.old) (K.faults out.new) in
        (st : Status) (source errs : Change) → IsUnread source → HasStatus (end_kept (λ session. option_map (λ x. x.value.kept) session.started) result) st → SaysOf (end_kept (λ session. option_map (λ x. x.value.kept) session.started) result) errs
        → EndsSoak (search_of words.entry.run.root.now words.entry.run.exe.now env.now seen) (gen_meant words.entry.made) (run_of source (D.log driver.old) (D.log driver.new) sink) errs st (session_at (end_kept (λ session. option_map (λ x. x.value.kept) session.started) result)) }
    ensures prepared { D.answers_by driver.new ≡ prepared (D.answers_by driver.old) words.entry.run.policy }
{
    match prepare(alloc, words.run, env, tree, driver) {
        Ok(setup) => soak_over(alloc, session, words.made, &setup, kit, out, driver),
        Err(error) => Err(error),
    }
}
