// A replay from its notes to its end line.
ghost use Rattle.std.specs.Prelude.{◌≡◌, ◌+◌, ◌<◌, ◌^◌, [], false, length, nat_lt, vec_len, None, IfErr, IfOk, OnOk};
ghost use Rattle.std.specs.Option.{option_map};
ghost use Rattle.replay_base.specs.Changes.{changed};
ghost use Rattle.replay_base.specs.Reader.{kept_of, state_of};
ghost use Rattle.replay_base.specs.declared.limit.TheConstants.{MOST_LINE_BYTES as MOST};
ghost use Rattle.trace_format.specs.State.{SumsUp};
ghost use Rattle.chain_build.specs.Setup.{setup_content};
ghost use Rattle.report_text.specs.Setups.{trace_setup};
ghost use Rattle.replay_core.specs.Given.{source_of};
ghost use Rattle.replay_core.specs.Plays.{PlaysWhole};
ghost use Rattle.replay_core.specs.Replayed.{Ended, IsCutShort, run_of};
ghost use Rattle.replay_core.specs.Traffic.{traffic_of};

use crate::error::ReplayError;
use crate::play::play;
use crate::player::Player;
use crate::put::{put_end, put_notes};
use chain_build::Setup;
use chain_session::Session;
use dispatch_chain::Kit;
use layer_search::Drivers;
use model_driver::Driver;
use replay_base::{LineReader, MOST_LINE_BYTES, Sink, Source};
use std::alloc::{AllocError, Global};

// The lines of a trace, and the end line behind them where nothing stops it.
fn play_whole<S: Source + Drop, K: Sink, D: Driver>(
    player: &mut Player,
    reader: &mut LineReader<S>,
    alloc: Global,
    setup: &Setup,
    kit: &Kit,
    driver: &mut D,
    out: &mut K,
) -> Result<(), ReplayError>
    requires session { option_map (λ x. x.value.kept) player.old.session.started ≡ None }
    requires state { SumsUp player.old.state [] }
    requires fine { reader.old.error ≡ None }
    requires unread { reader.old.finished ≡ false }
    requires none { kept_of reader.old ≡ [] }
    requires few { length (setup_content setup.now).drivers.list < 2 ^ 32 }
    ensures plays { let s = trace_setup (setup_content setup.now) in
        let sink = changed (K.held out.old) (K.held out.new) (K.faults out.old) (K.faults out.new) in
        let source = source_of (state_of S.left S.faults reader.old) (state_of S.left S.faults reader.new) in
        PlaysWhole s (option_map (λ x. x.value.kept) player.new.session.started) source (traffic_of (D.log driver.old) (D.log driver.new) sink) result }
    ensures same { S.loan reader.new.source ≡ S.loan reader.old.source }
    ensures policy { D.answers_by driver.new ≡ D.answers_by driver.old }
{
    match play(player, reader, setup, kit, driver, out) {
        Ok(()) => put_end(player.session.tally(), alloc, out),
        Err(error) => Err(error),
    }
}

// The notes, the lines of a trace, and the end line.
fn play_noted<S: Source + Drop, K: Sink, D: Driver>(
    player: &mut Player,
    reader: &mut LineReader<S>,
    alloc: Global,
    setup: &Setup,
    kit: &Kit,
    driver: &mut D,
    out: &mut K,
) -> Result<(), ReplayError>
    requires session { option_map (λ x. x.value.kept) player.old.session.started ≡ None }
    requires state { SumsUp player.old.state [] }
    requires fine { reader.old.error ≡ None }
    requires unread { reader.old.finished ≡ false }
    requires none { kept_of reader.old ≡ [] }
    requires few { length (setup_content setup.now).drivers.list < 2 ^ 32 }
    ensures ended { let sink = changed (K.held out.old) (K.held out.new) (K.faults out.old) (K.faults out.new) in
        let source = source_of (state_of S.left S.faults reader.old) (state_of S.left S.faults reader.new) in
        OnOk result (Ended (trace_setup (setup_content setup.now)) (option_map (λ x. x.value.kept) player.new.session.started) (run_of source (D.log driver.old) (D.log driver.new) sink)) }
    ensures cut { let sink = changed (K.held out.old) (K.held out.new) (K.faults out.old) (K.faults out.new) in
        let source = source_of (state_of S.left S.faults reader.old) (state_of S.left S.faults reader.new) in
        IfErr result (IsCutShort (trace_setup (setup_content setup.now)) (run_of source (D.log driver.old) (D.log driver.new) sink)) }
    ensures same { S.loan reader.new.source ≡ S.loan reader.old.source }
    ensures policy { D.answers_by driver.new ≡ D.answers_by driver.old }
{
    match put_notes(alloc, setup, out) {
        Err(error) => Err(error),
        Ok(()) => match play_whole(player, reader, alloc, setup, kit, driver, out) {
            Err(error) => Err(error),
            Ok(()) => Ok(()),
        },
    }
}

// The same of a source that is lent, through this buffer.
fn play_source<S: Source, K: Sink, D: Driver>(
    player: &mut Player,
    trace: &mut S,
    buffer: Vec<u8>,
    alloc: Global,
    setup: &Setup,
    kit: &Kit,
    driver: &mut D,
    out: &mut K,
) -> Result<(), ReplayError>
    requires session { option_map (λ x. x.value.kept) player.old.session.started ≡ None }
    requires state { SumsUp player.old.state [] }
    requires room { length buffer.items ≡ MOST + 1 }
    requires few { length (setup_content setup.now).drivers.list < 2 ^ 32 }
    ensures ended { let sink = changed (K.held out.old) (K.held out.new) (K.faults out.old) (K.faults out.new) in
        let source = changed (S.left trace.old) (S.left trace.new) (S.faults trace.old) (S.faults trace.new) in
        OnOk result (Ended (trace_setup (setup_content setup.now)) (option_map (λ x. x.value.kept) player.new.session.started) (run_of source (D.log driver.old) (D.log driver.new) sink)) }
    ensures cut { let sink = changed (K.held out.old) (K.held out.new) (K.faults out.old) (K.faults out.new) in
        let source = changed (S.left trace.old) (S.left trace.new) (S.faults trace.old) (S.faults trace.new) in
        IfErr result (IsCutShort (trace_setup (setup_content setup.now)) (run_of source (D.log driver.old) (D.log driver.new) sink)) }
    ensures policy { D.answers_by driver.new ≡ D.answers_by driver.old }
{
    let mut reader = LineReader::with_buffer(trace, buffer);
    let ended = play_noted(player, &mut reader, alloc, setup, kit, driver, out);
    let _source = reader.into_source();
    ended
}

// Room for a block of a reader: one byte more than a line may have.
fn line_buffer(alloc: Global) -> Result<Vec<u8>, AllocError>
    ensures { IfOk result (λ buffer. length buffer.items ≡ MOST + 1) }
{
    Ok(vec![in alloc; 0u8; MOST_LINE_BYTES + 1]?)
}

// Drivers are counted in 32 bits.
fn can_count(drivers: &Drivers) -> bool
    ensures { result ≡ nat_lt (vec_len drivers.now.list) (2 ^ 32) }
{
    drivers.list.len() < 1 << 32
}

/// Replays a trace: writes the notes of the setup, and then reads the trace a line at a time. A line is replayed, and its text written,
/// before the next is read, up to the first that stops the trace; the end line comes last. Lines count from 1. `Trace` comes where a
/// line has a fault, `Limit` where a line is one too many or too long, would bring too many names, or its vkCreateInstance a chain of
/// too many layers, `Read` and `Write` only where the source or the sink failed. A setup of 4,294,967,296 drivers or more is answered by
/// `NoMemory`. The session is one for which nothing was replayed yet; it comes back where the trace came to its end.
pub fn replay<S: Source, K: Sink, D: Driver>(
    alloc: Global,
    session: Session,
    setup: &Setup,
    kit: &Kit,
    trace: &mut S,
    out: &mut K,
    driver: &mut D,
) -> Result<Session, ReplayError>
    requires fresh { option_map (λ x. x.value.kept) session.started ≡ None }
    ensures ended { let source = changed (S.left trace.old) (S.left trace.new) (S.faults trace.old) (S.faults trace.new) in
        let sink = changed (K.held out.old) (K.held out.new) (K.faults out.old) (K.faults out.new) in
        IfOk result (λ session. Ended (trace_setup (setup_content setup.now)) (option_map (λ x. x.value.kept) session.started) (run_of source (D.log driver.old) (D.log driver.new) sink)) }
    ensures cut { let source = changed (S.left trace.old) (S.left trace.new) (S.faults trace.old) (S.faults trace.new) in
        let sink = changed (K.held out.old) (K.held out.new) (K.faults out.old) (K.faults out.new) in
        IfErr result (IsCutShort (trace_setup (setup_content setup.now)) (run_of source (D.log driver.old) (D.log driver.new) sink)) }
    ensures policy { D.answers_by driver.new ≡ D.answers_by driver.old }
{
    if !can_count(&setup.drivers) {
        return Err(ReplayError::NoMemory);
    }
    let buffer = line_buffer(alloc)?;
    let mut player = Player::new(alloc, session);
    match play_source(&mut player, trace, buffer, alloc, setup, kit, driver, out) {
        Err(error) => Err(error),
        Ok(()) => Ok(player.into_session()),
    }
}
