//! The events of a list, one after the other.
ghost use Rattle.std.specs.Prelude.{◌≡◌, ◌<◌, ◌^◌, ◌∷◌, [], false, length, map, IfErr, OnOk};
ghost use Rattle.std.specs.List.{list_any};
ghost use Rattle.std.specs.Option.{option_map};
ghost use Rattle.trace_format.specs.Content.{content};
ghost use Rattle.replay_model.specs.Stop.{exceeds_layers};
ghost use Rattle.chain_build.specs.Setup.{setup_content};
ghost use Rattle.report_text.specs.Setups.{trace_setup};
ghost use Rattle.event_replay.specs.Through.{CanGoOn, GoesThrough, IsLongAmong};

use chain_build::Setup;
use chain_session::{Session, SessionError};
use dispatch_chain::Kit;
use model_driver::Driver;
use trace_format::Event;

// One event, which may come next. A begin has the number behind those of the calls so far.
fn replay_event<D: Driver>(
    session: &mut Session,
    event: &Event,
    setup: &Setup,
    kit: &Kit,
    driver: &mut D,
    lines: &mut Vec<u8>,
) -> Result<(), SessionError>
    requires can { CanGoOn (trace_setup (setup_content setup.now)) (option_map (λ x. x.value.kept) session.old.started) (content event.now ∷ []) }
    requires few { length (setup_content setup.now).drivers.list < 2 ^ 32 }
    ensures ok { OnOk result (GoesThrough (trace_setup (setup_content setup.now)) (option_map (λ x. x.value.kept) session.old.started) (option_map (λ x. x.value.kept) session.new.started) (content event.now ∷ [])
        (record { old_log = D.log driver.old; log = D.log driver.new; old_lines = lines.old.items; lines = lines.new.items })) }
    ensures within { OnOk result (exceeds_layers (trace_setup (setup_content setup.now)) (content event.now) ≡ false) }
    ensures fault { IfErr result (IsLongAmong (trace_setup (setup_content setup.now)) (content event.now ∷ [])) }
    ensures policy { D.answers_by driver.new ≡ D.answers_by driver.old }
{
    match event {
        Event::Begin { .. } => {
            let number = session.tally().calls + 1;
            session.begin(number, event, setup, kit, driver, lines)
        }
        Event::Return { thread } => {
            session.finish(*thread, lines)?;
            Ok(())
        }
    }
}

/// Replays events, one after the other, which may follow those for which the session stands; their names may have gaps. Their lines are added.
/// `Chain` comes only where one of them would make a chain of more than 64 layers, and none does where all were replayed. After an error the
/// session is for dropping alone.
pub fn replay_events<D: Driver>(
    session: &mut Session,
    events: &[Event],
    setup: &Setup,
    kit: &Kit,
    driver: &mut D,
    lines: &mut Vec<u8>,
) -> Result<(), SessionError>
    requires can { CanGoOn (trace_setup (setup_content setup.now)) (option_map (λ x. x.value.kept) session.old.started) (map content events.now) }
    requires few { length (setup_content setup.now).drivers.list < 2 ^ 32 }
    ensures ok { OnOk result (GoesThrough (trace_setup (setup_content setup.now)) (option_map (λ x. x.value.kept) session.old.started) (option_map (λ x. x.value.kept) session.new.started) (map content events.now)
        (record { old_log = D.log driver.old; log = D.log driver.new; old_lines = lines.old.items; lines = lines.new.items })) }
    ensures within { OnOk result (list_any (exceeds_layers (trace_setup (setup_content setup.now))) (map content events.now) ≡ false) }
    ensures fault { IfErr result (IsLongAmong (trace_setup (setup_content setup.now)) (map content events.now)) }
    ensures policy { D.answers_by driver.new ≡ D.answers_by driver.old }
{
    for event in events {
        replay_event(session, event, setup, kit, driver, lines)?;
    }
    Ok(())
}
