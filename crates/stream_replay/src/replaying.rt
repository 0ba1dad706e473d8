//! All sections of a stream file.
ghost use Rattle.std.specs.Prelude.{◌≡◌, ◌∷◌, ◌<◌, ◌^◌, false, length, map, IfOk};
ghost use Rattle.std.specs.List.{AllByRecursion, list_any};
ghost use Rattle.std.specs.Option.{option_map};
ghost use Rattle.trace_format.specs.Content.{content};
ghost use Rattle.model_driver.specs.Seats.{IsPolicy};
ghost use Rattle.replay_model.specs.Stop.{exceeds_layers};
ghost use Rattle.chain_build.specs.Setup.{setup_content};
ghost use Rattle.report_text.specs.Setups.{trace_setup};
ghost use Rattle.threaded_replay.specs.Files.{file_parts};
ghost use Rattle.stream_replay.specs.Replayed.{AreLogsBehind, HasReplayed, IsWholeFile};

use crate::following::follow;
use crate::laws::sections_follow_each_other;
use crate::seats::make_seats;
use crate::section::replay_section;
use chain_build::Setup;
use chain_session::Session;
use command_tables::NoMemory;
use dispatch_chain::Kit;
use model_driver::{Policy, SharedDriver};
use seat_facts::seats_are_told_what_the_trace_says;
use std::alloc::{AllocError, Global};
use std::sync::Wait;
use std::thread::Threads;
use stream_log::Entry;
use stream_run::run_streams;
use stream_workers::Gate;
use threaded_replay::StreamFile;
use trace_format::{Event, Name};

/// A stream file that was replayed: what its threads did in one order, and the lines of setup, this and teardown, without notes and end line. The
/// session stands for all these events. The first seat made the driver calls of setup and teardown, and each further one those of its
/// stream, in the file's order. Each device that a stream names stands with its closed log, in the order in which the streams first name them.
#[derive(Drop)]
pub struct Replayed<S: Drop> {
    pub merge: Vec<Event>,
    pub lines: Vec<u8>,
    pub session: Session,
    pub seats: Vec<S>,
    pub logs: Vec<(Name, Vec<Entry>)>,
}

// The seats with this one before them.
fn with_first<S: Drop>(alloc: Global, first: S, others: Vec<S>) -> Result<Vec<S>, AllocError>
    ensures { IfOk result (λ all. all.items ≡ first ∷ others.items) }
{
    let mut all = Vec::new(alloc);
    all.push(first)?;
    for seat in others {
        all.push(seat)?;
    }
    Ok(all)
}

/// Replays a stream file: setup in this thread, the streams beside each other, each in a thread of its own where one can be made, what they did in
/// one order with the replies that they had, and teardown in this thread. No chain of the file has more than 64 layers, and there are
/// fewer than 2^32 drivers.
pub fn replay_streams<H: Threads + Wait + Sync, D: SharedDriver, G: Gate>(
    rt: &H,
    alloc: Global,
    file: &StreamFile,
    setup: &Setup,
    kit: &Kit,
    policy: Policy,
    driver: &D,
    gate: &G,
) -> Result<Replayed<D::Seat>, NoMemory>
    requires whole { IsWholeFile (file_parts file.now) }
    requires few { length (setup_content setup.now).drivers.list < 2 ^ 32 }
    requires first { list_any (exceeds_layers (trace_setup (setup_content setup.now))) (file_parts file.now).setup ≡ false }
    requires last { list_any (exceeds_layers (trace_setup (setup_content setup.now))) (file_parts file.now).teardown ≡ false }
    ensures replayed { IfOk result (λ r. HasReplayed D.log (trace_setup (setup_content setup.now)) (file_parts file.now) (map content r.merge.items) r.lines.items (option_map (λ x. x.value.kept) r.session.started) r.seats.items) }
    ensures logs { IfOk result (λ r. AreLogsBehind (file_parts file.now) (map content r.merge.items) r.logs.items) }
    ensures policy { IfOk result (λ r. AllByRecursion (λ seat. IsPolicy (D.answers_by seat) policy) r.seats.items) }
{
    sections_follow_each_other();
    seats_are_told_what_the_trace_says();
    let mut session = Session::new(alloc, kit);
    let mut lines = Vec::new(alloc);
    let unused = driver.seat(alloc, policy, 0, 0, 0)?;
    let before = replay_section(
        &mut session,
        &file.setup,
        setup,
        kit,
        driver,
        unused,
        &mut lines,
    )?;
    let seats = make_seats(alloc, file, policy, driver)?;
    let (merged, told) = run_streams(rt, alloc, file, &session, driver, gate, seats)?;
    follow(
        &mut session,
        &merged.events,
        &merged.replies,
        setup,
        kit,
        &mut lines,
    )?;
    let after = replay_section(
        &mut session,
        &file.teardown,
        setup,
        kit,
        driver,
        before,
        &mut lines,
    )?;
    let all = with_first(alloc, after, told)?;
    Ok(Replayed {
        merge: merged.events,
        lines,
        session,
        seats: all,
        logs: merged.logs,
    })
}
