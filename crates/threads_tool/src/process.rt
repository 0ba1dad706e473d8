// From what the process was started with to its exit status.
ghost use Rattle.std.specs.Prelude.{◌≡◌, ◌≢◌, ◌⊎◌};
ghost use Rattle.replay_base.specs.Changes.{changed};
ghost use Rattle.replay_tool.specs.Outcome.{IsLeftBy};
ghost use Rattle.replay_tool.specs.Showing.{tree_seen};
ghost use Rattle.threads_tool.specs.Exits.{Exits, asked_by};

use crate::finish::refuse_words;
use crate::top::threads_main;
use dispatch_chain::Kit;
use model_driver::SharedDriver;
use program_words::WordsError;
use replay_base::{Sink, Source, Tree};
use replay_tool::Invocation;
use std::alloc::Global;
use std::sync::Wait;
use std::thread::Threads;
use stream_workers::Gate;

/// Runs the program on what the process was started with, and answers its exit status, 0 to 7. Where that can't be had nothing but the line of the
/// status is said: `Usage` where a word isn't UTF-8.
pub fn threads_status<
    H: Threads + Wait + Sync,
    T: Tree,
    S: Source,
    K: Sink,
    L: Sink,
    D: SharedDriver,
    G: Gate,
>(
    rt: &H,
    alloc: Global,
    given: Result<Invocation, WordsError>,
    kit: &Kit,
    tree: &mut T,
    streams: &mut S,
    out: &mut K,
    errs: &mut L,
    driver: &D,
    gate: &G,
) -> u8
    ensures exits { let seen = tree_seen (T.files tree.old) (T.faults tree.old) (T.faults tree.new) in
        let source = changed (S.left streams.old) (S.left streams.new) (S.faults streams.old) (S.faults streams.new) in
        let sink = changed (K.held out.old) (K.held out.new) (K.faults out.old) (K.faults out.new) in
        let said = changed (L.held errs.old) (L.held errs.new) (L.faults errs.old) (L.faults errs.new) in
        Exits D.log given (record { tree = seen; streams = source; sink = sink; errs = said }) result }
    ensures flushed { result ≢ 5 → (K.held_back out.new ≡ 0) ⊎ (out.new ≡ out.old) }
    ensures tree { IsLeftBy (asked_by given) tree.old tree.new }
{
    match given {
        Ok(given) => threads_main(
            rt,
            alloc,
            &given.words,
            &given.env,
            kit,
            tree,
            streams,
            out,
            errs,
            driver,
            gate,
        )
        .status
        .code(),
        Err(why) => refuse_words(errs, why).code(),
    }
}
