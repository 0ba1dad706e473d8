// All that the program does.
ghost use Rattle.std.specs.Prelude.{◌≡◌, ◌≢◌, ◌⊎◌, ◌≤◌, [], false, length, IfErr, IfOk, None, OnOk};
ghost use Rattle.std.specs.List.{AllByRecursion, list_any};
ghost use Rattle.std.specs.Option.{option_map};
ghost use Rattle.chain_build.specs.Setup.{setup_content};
ghost use Rattle.layer_search.specs.Paths.{most_paths};
ghost use Rattle.model_driver.specs.Seats.{IsPolicy};
ghost use Rattle.program_words.specs.Content.{words_of};
ghost use Rattle.replay_base.specs.Changes.{changed};
ghost use Rattle.replay_core.specs.declared.status.Status.TheVariants as status;
ghost use Rattle.replay_model.specs.Stop.{exceeds_layers};
ghost use Rattle.replay_tool.specs.Outcome.{IsLeftBy};
ghost use Rattle.replay_tool.specs.Showing.{UnderSetup, search_of, tree_seen};
ghost use Rattle.report_text.specs.Setups.{trace_setup};
ghost use Rattle.stream_model.specs.FileParts.{all_events};
ghost use Rattle.stream_replay.specs.Replayed.{IsWholeFile};
ghost use Rattle.threaded_replay.specs.Files.{file_parts};
ghost use Rattle.threads_tool.specs.Ending.{AnswersStop, AnswersWith};
ghost use Rattle.threads_tool.specs.Outcome.{AnswerBy, Ends, threads_ask};
ghost use Rattle.threads_tool.specs.Stops.{NotShown, ShownAll, StopsRun, StopsUnder, WroteAll};
ghost use Rattle.threads_tool.specs.declared.reading.Stop.TheVariants as stop;

use crate::finish::{refuse, refuse_words, status_with};
use crate::printing::print;
use crate::reading::{Stop, file_under, setup_of};
use crate::words::{replay_words, with_command};
use chain_build::Setup;
use chain_session::Session;
use dispatch_chain::Kit;
use env_filters::EnvList;
use model_driver::{Policy, SharedDriver};
use program_words::RunWords;
use replay_base::{Sink, Source, Tree};
use replay_core::Status;
use std::alloc::Global;
use std::sync::Wait;
use std::thread::Threads;
use stream_replay::{
    Replayed, a_file_that_was_read_is_whole, replay_streams,
    the_events_of_a_whole_file_are_of_the_grammar,
};
use stream_workers::Gate;
use threaded_replay::StreamFile;

/// How a run ended. Where it ended without an error there are the seat that made the driver calls of setup and teardown and then one for each stream,
/// in the file's order, and the session that made the text; else no seat, and none.
#[derive(Drop)]
pub struct Ended<S: Drop> {
    pub status: Status,
    pub seats: Vec<S>,
    pub session: Option<Session>,
}

// No session and no seats.
fn without<S: Drop>(alloc: Global, status: Status) -> Ended<S>
    ensures status { result.status ≡ status }
    ensures seats { result.seats.items ≡ [] }
    ensures session { result.session ≡ None }
{
    Ended {
        status,
        seats: Vec::new(alloc),
        session: None,
    }
}

// Replays a file, and prints what came of it.
fn show<H: Threads + Wait + Sync, K: Sink, D: SharedDriver, G: Gate>(
    rt: &H,
    alloc: Global,
    file: &StreamFile,
    setup: &Setup,
    kit: &Kit,
    policy: Policy,
    out: &mut K,
    driver: &D,
    gate: &G,
) -> Result<(Session, Vec<D::Seat>), Stop>
    requires whole { IsWholeFile (file_parts file.now) }
    requires few { length (setup_content setup.now).drivers.list ≤ most_paths }
    requires short { list_any (exceeds_layers (trace_setup (setup_content setup.now))) (all_events (file_parts file.now)) ≡ false }
    ensures all { let sink = changed (K.held out.old) (K.held out.new) (K.faults out.old) (K.faults out.new) in
        IfOk result (λ r. ShownAll D.log (trace_setup (setup_content setup.now)) (file_parts file.now) sink (option_map (λ x. x.value.kept) r.0.started) r.1.items) }
    ensures cut { let sink = changed (K.held out.old) (K.held out.new) (K.faults out.old) (K.faults out.new) in
        IfErr result (NotShown D.log (trace_setup (setup_content setup.now)) (file_parts file.now) sink) }
    ensures flushed { OnOk result (K.held_back out.new ≡ 0) }
    ensures policy { IfOk result (λ r. AllByRecursion (λ seat. IsPolicy (D.answers_by seat) policy) r.1.items) }
    ensures untouched { IfErr result (λ e. e ≢ stop.Write → out.new ≡ out.old) }
{
    the_events_of_a_whole_file_are_of_the_grammar();
    let Replayed {
        merge,
        lines,
        session,
        seats,
        logs: _,
    } = replay_streams(rt, alloc, file, setup, kit, policy, driver, gate)?;
    match print(alloc, file, &merge, lines, setup, &session, out) {
        Ok(()) => Ok((session, seats)),
        Err(stop) => Err(stop),
    }
}

// Reads the stream file under a setup, replays it and prints it.
fn perform_under<H: Threads + Wait + Sync, S: Source, K: Sink, D: SharedDriver, G: Gate>(
    rt: &H,
    alloc: Global,
    setup: &Setup,
    kit: &Kit,
    policy: Policy,
    streams: &mut S,
    out: &mut K,
    driver: &D,
    gate: &G,
) -> Result<(Session, Vec<D::Seat>), Stop>
    requires few { length (setup_content setup.now).drivers.list ≤ most_paths }
    ensures all { let source = changed (S.left streams.old) (S.left streams.new) (S.faults streams.old) (S.faults streams.new) in
        let sink = changed (K.held out.old) (K.held out.new) (K.faults out.old) (K.faults out.new) in
        IfOk result (λ r. WroteAll D.log (trace_setup (setup_content setup.now)) source sink (option_map (λ x. x.value.kept) r.0.started) r.1.items) }
    ensures stops { let source = changed (S.left streams.old) (S.left streams.new) (S.faults streams.old) (S.faults streams.new) in
        let sink = changed (K.held out.old) (K.held out.new) (K.faults out.old) (K.faults out.new) in
        IfErr result (StopsUnder D.log (trace_setup (setup_content setup.now)) source sink) }
    ensures flushed { OnOk result (K.held_back out.new ≡ 0) }
    ensures policy { IfOk result (λ r. AllByRecursion (λ seat. IsPolicy (D.answers_by seat) policy) r.1.items) }
    ensures untouched { IfErr result (λ e. e ≢ stop.Write → out.new ≡ out.old) }
{
    a_file_that_was_read_is_whole();
    match file_under(alloc, setup, streams) {
        Ok(file) => show(rt, alloc, &file, setup, kit, policy, out, driver, gate),
        Err(stop) => Err(stop),
    }
}

// Reads what the words ask for, replays it and prints it.
fn perform<H: Threads + Wait + Sync, T: Tree, S: Source, K: Sink, D: SharedDriver, G: Gate>(
    rt: &H,
    alloc: Global,
    words: RunWords<'_>,
    env: &EnvList,
    kit: &Kit,
    tree: &mut T,
    streams: &mut S,
    out: &mut K,
    driver: &D,
    gate: &G,
) -> Result<(Session, Vec<D::Seat>), Stop>
    ensures all { let search = search_of words.entry.root.now words.entry.exe.now env.now (tree_seen (T.files tree.old) (T.faults tree.old) (T.faults tree.new)) in
        let source = changed (S.left streams.old) (S.left streams.new) (S.faults streams.old) (S.faults streams.new) in
        let sink = changed (K.held out.old) (K.held out.new) (K.faults out.old) (K.faults out.new) in
        IfOk result (λ r. UnderSetup search (λ s. WroteAll D.log s source sink (option_map (λ x. x.value.kept) r.0.started) r.1.items)) }
    ensures stops { let search = search_of words.entry.root.now words.entry.exe.now env.now (tree_seen (T.files tree.old) (T.faults tree.old) (T.faults tree.new)) in
        let source = changed (S.left streams.old) (S.left streams.new) (S.faults streams.old) (S.faults streams.new) in
        let sink = changed (K.held out.old) (K.held out.new) (K.faults out.old) (K.faults out.new) in
        IfErr result (StopsRun D.log search source sink) }
    ensures flushed { OnOk result (K.held_back out.new ≡ 0) }
    ensures policy { IfOk result (λ r. AllByRecursion (λ seat. IsPolicy (D.answers_by seat) words.entry.policy) r.1.items) }
    ensures untouched { IfErr result (λ e. e ≢ stop.Write → out.new ≡ out.old) }
{
    match setup_of(alloc, words, env, tree) {
        Ok(setup) => perform_under(
            rt,
            alloc,
            &setup,
            kit,
            words.policy,
            streams,
            out,
            driver,
            gate,
        ),
        Err(stop) => Err(stop),
    }
}

// What comes of a run, and what is said of it.
fn answer_of<L: Sink, S: Drop>(
    alloc: Global,
    done: Result<(Session, Vec<S>), Stop>,
    errs: &mut L,
) -> Ended<S>
    ensures done { let said = changed (L.held errs.old) (L.held errs.new) (L.faults errs.old) (L.faults errs.new) in
        IfOk done (λ r. AnswersWith (record { status = result.status; session = option_map (λ session. option_map (λ x. x.value.kept) session.started) result.session; seats = result.seats.items; errs = said }) (option_map (λ x. x.value.kept) r.0.started) r.1.items) }
    ensures stopped { let said = changed (L.held errs.old) (L.held errs.new) (L.faults errs.old) (L.faults errs.new) in
        IfErr done (AnswersStop (record { status = result.status; session = option_map (λ session. option_map (λ x. x.value.kept) session.started) result.session; seats = result.seats.items; errs = said })) }
{
    match done {
        Ok((session, seats)) => Ended {
            status: status_with(&session),
            seats,
            session: Some(session),
        },
        Err(stop) => without(alloc, refuse(errs, stop)),
    }
}

/// Runs the program: `words` are the command line's without the program's name, and are the options of a replay. Reads the manifests in the tree and
/// then the stream file; replays its setup, its streams beside each other and its teardown; and prints the trace of setup, what the
/// streams did in one order, and teardown, the line `text`, and the text that a replay of this trace writes. Nothing is written before all that is
/// done. `gate` is called after each step of a stream, under the lock of its device. A failure of the error sink changes no status.
pub fn threads_main<
    H: Threads + Wait + Sync,
    T: Tree,
    S: Source,
    K: Sink,
    L: Sink,
    D: SharedDriver,
    G: Gate,
>(
    rt: &H,
    alloc: Global,
    words: &[String],
    env: &EnvList,
    kit: &Kit,
    tree: &mut T,
    streams: &mut S,
    out: &mut K,
    errs: &mut L,
    driver: &D,
    gate: &G,
) -> Ended<D::Seat>
    // The promises of the program, each said where `Ends` is defined: each status has its cause, and what is written of a file that was replayed is the trace of
    // a merge of its streams and the text of this trace.
    ensures promises { let seen = tree_seen (T.files tree.old) (T.faults tree.old) (T.faults tree.new) in
        let source = changed (S.left streams.old) (S.left streams.new) (S.faults streams.old) (S.faults streams.new) in
        let sink = changed (K.held out.old) (K.held out.new) (K.faults out.old) (K.faults out.new) in
        let said = changed (L.held errs.old) (L.held errs.new) (L.faults errs.old) (L.faults errs.new) in
        Ends D.log (record { words = words_of words.now; env = env.now; tree = seen; streams = source; sink = sink; errs = said }) result.status
        (option_map (λ session. option_map (λ x. x.value.kept) session.started) result.session) result.seats.items }
    // Unless it failed, the sink holds nothing back at the end, or no method of it was called.
    ensures flushed { result.status ≢ status.WriteFault → (K.held_back out.new ≡ 0) ⊎ (out.new ≡ out.old) }
    // Each seat that comes back answers by the policy that the words choose.
    ensures policy { AnswerBy D.answers_by (threads_ask (words_of words.now)) result.seats.items }
    // No method of the tree is called but for a replay.
    ensures tree { IsLeftBy (threads_ask (words_of words.now)) tree.old tree.new }
{
    let Ok(all) = with_command(alloc, words) else {
        return without(alloc, refuse(errs, Stop::NoMemory));
    };
    match replay_words(alloc, &all) {
        Ok(asked) => {
            let done = perform(rt, alloc, asked, env, kit, tree, streams, out, driver, gate);
            answer_of(alloc, done, errs)
        }
        Err(error) => without(alloc, refuse_words(errs, error)),
    }
}
