// Replaying the lines of a trace.
ghost use Rattle.std.specs.Prelude.{◌≡◌, ◌<◌, ◌^◌, List, [], false, length, None};
ghost use Rattle.trace_format.specs.Content.{TraceEvent};
ghost use Rattle.std.specs.Option.{option_map};
ghost use Rattle.replay_base.specs.Changes.{changed};
ghost use Rattle.replay_base.specs.Reader.{kept_of, state_of};
ghost use Rattle.trace_format.specs.State.{SumsUp};
ghost use Rattle.chain_build.specs.Setup.{setup_content};
ghost use Rattle.report_text.specs.Setups.{trace_setup};
ghost use Rattle.replay_core.specs.Given.{FinishesAt, source_of};
ghost use Rattle.replay_core.specs.Plays.{Plays};
ghost use Rattle.replay_core.specs.Traffic.{traffic_of};

use crate::error::ReplayError;
use crate::lines::{line_behind, read_header};
use crate::player::Player;
use chain_build::Setup;
use dispatch_chain::Kit;
use model_driver::Driver;
use replay_base::{LineReader, Sink, Source};
use trace_format::TraceState;

// Whether a trace may end where it does, in front of the line with this number.
fn finish(state: &TraceState, number: u64) -> Result<(), ReplayError>
    ensures { (events : List TraceEvent) → SumsUp state.now events → FinishesAt events number result }
{
    match state.finish() {
        Ok(()) => Ok(()),
        Err(fault) => Err(ReplayError::Trace {
            line: number,
            fault,
        }),
    }
}

/// The trace of a reader that has given nothing yet, up to the first line that stops the replay. A line is replayed before the next is
/// read, and its text handed on before the source is asked for more.
pub fn play<S: Source + Drop, K: Sink, D: Driver>(
    player: &mut Player,
    reader: &mut LineReader<S>,
    setup: &Setup,
    kit: &Kit,
    driver: &mut D,
    out: &mut K,
) -> Result<(), ReplayError>
    requires session { option_map (λ x. x.value.kept) player.old.session.started ≡ None }
    requires state { SumsUp player.old.state [] }
    requires fine { reader.old.error ≡ None }
    requires unread { reader.old.finished ≡ false }
    requires none { kept_of reader.old ≡ [] }
    requires few { length (setup_content setup.now).drivers.list < 2 ^ 32 }
    ensures plays { let s = trace_setup (setup_content setup.now) in
        let sink = changed (K.held out.old) (K.held out.new) (K.faults out.old) (K.faults out.new) in
        let source = source_of (state_of S.left S.faults reader.old) (state_of S.left S.faults reader.new) in
        Plays s (option_map (λ x. x.value.kept) player.new.session.started) source (traffic_of (D.log driver.old) (D.log driver.new) sink) result }
    ensures same { S.loan reader.new.source ≡ S.loan reader.old.source }
    ensures policy { D.answers_by driver.new ≡ D.answers_by driver.old }
{
    match read_header(reader) {
        Ok(()) => {}
        Err(error) => return Err(error),
    }
    let mut number: u64 = 2;
    loop {
        match line_behind(reader, number, out) {
            Err(error) => return Err(error),
            Ok(false) => return finish(&player.state, number),
            Ok(true) => {}
        }
        match player.play_line(reader.line(), number, setup, kit, driver, out) {
            Ok(()) => {}
            Err(error) => return Err(error),
        }
        number += 1;
    }
}
