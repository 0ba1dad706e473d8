// From what the process was started with to its exit status.
ghost use Rattle.std.specs.Prelude.{◌≡◌, ◌≢◌, ◌⊎◌, None};
ghost use Rattle.std.specs.Option.{option_map};
ghost use Rattle.replay_base.specs.Changes.{changed};
ghost use Rattle.replay_core.specs.Replayed.{run_of};
ghost use Rattle.replay_tool.specs.Exits.{Exits, asked_by};
ghost use Rattle.replay_tool.specs.Outcome.{IsLeftBy};
ghost use Rattle.replay_tool.specs.Showing.{tree_seen};

use crate::finish::refuse_words;
use crate::top::replay_main;
use dispatch_chain::Kit;
use env_filters::EnvList;
use model_driver::Driver;
use program_words::WordsError;
use replay_base::{Sink, Source, Tree};
use replay_core::Session;
use std::alloc::Global;

/// What the process was started with: its words without the program's name, and its variables.
#[derive(Drop)]
pub struct Invocation {
    pub words: Vec<String>,
    pub env: EnvList,
}

/// Runs the program on what the process was started with, and answers its exit status, 0 to 7. Where that can't be had nothing
/// but the line of the status is said: `Usage` where a word isn't UTF-8. The driver is prepared, and the tree read, as
/// `replay_main` does it.
pub fn exit_status<T: Tree, S: Source, K: Sink, L: Sink, D: Driver>(
    alloc: Global,
    given: Result<Invocation, WordsError>,
    session: Session,
    kit: &Kit,
    tree: &mut T,
    trace: &mut S,
    out: &mut K,
    errs: &mut L,
    driver: &mut D,
) -> u8
    requires fresh { option_map (λ x. x.value.kept) session.started ≡ None }
    ensures exits { let seen = tree_seen (T.files tree.old) (T.faults tree.old) (T.faults tree.new) in
        let source = changed (S.left trace.old) (S.left trace.new) (S.faults trace.old) (S.faults trace.new) in
        let sink = changed (K.held out.old) (K.held out.new) (K.faults out.old) (K.faults out.new) in
        let run = run_of source (D.log driver.old) (D.log driver.new) sink in
        let said = changed (L.held errs.old) (L.held errs.new) (L.faults errs.old) (L.faults errs.new) in
        Exits given (record { tree = seen; run = run; errs = said; policy_before = D.answers_by driver.old; policy = D.answers_by driver.new }) result }
    ensures flushed { result ≢ 5 → (K.held_back out.new ≡ 0) ⊎ (out.new ≡ out.old) }
    ensures tree { IsLeftBy (asked_by given) tree.old tree.new }
{
    match given {
        Ok(given) => {
            replay_main(
                alloc,
                &given.words,
                &given.env,
                session,
                kit,
                tree,
                trace,
                out,
                errs,
                driver,
            )
            .status
            .code()
        }
        Err(why) => refuse_words(errs, why).code(),
    }
}
