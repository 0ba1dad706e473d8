// Going on with events to which the replies are written.
ghost use Rattle.std.specs.Prelude.{◌≡◌, ◌<◌, ◌^◌, false, length, map, OnOk};
ghost use Rattle.std.specs.List.{list_any};
ghost use Rattle.std.specs.Option.{option_map};
ghost use Rattle.trace_format.specs.Content.{content};
ghost use Rattle.model_driver.specs.Driver.{reply_shown};
ghost use Rattle.replay_model.specs.Stop.{exceeds_layers};
ghost use Rattle.chain_build.specs.Setup.{setup_content};
ghost use Rattle.report_text.specs.Setups.{trace_setup};
ghost use Rattle.event_replay.specs.Through.{CanGoOn, GoesThrough};
ghost use Rattle.stream_replay.specs.Playing.{Follows};

use crate::played::PlayedDriver;
use chain_build::Setup;
use chain_session::{Session, SessionError};
use command_tables::NoMemory;
use dispatch_chain::Kit;
use event_replay::replay_events;
use model_driver::{Driver, DriverReply};
use trace_format::Event;

// Events none of which makes a chain of too many layers.
pub(crate) fn replay_within<D: Driver>(
    session: &mut Session,
    events: &[Event],
    setup: &Setup,
    kit: &Kit,
    driver: &mut D,
    lines: &mut Vec<u8>,
) -> Result<(), NoMemory>
    requires can { CanGoOn (trace_setup (setup_content setup.now)) (option_map (λ x. x.value.kept) session.old.started) (map content events.now) }
    requires few { length (setup_content setup.now).drivers.list < 2 ^ 32 }
    requires within { list_any (exceeds_layers (trace_setup (setup_content setup.now))) (map content events.now) ≡ false }
    ensures { OnOk result (GoesThrough (trace_setup (setup_content setup.now)) (option_map (λ x. x.value.kept) session.old.started) (option_map (λ x. x.value.kept) session.new.started) (map content events.now)
        (record { old_log = D.log driver.old; log = D.log driver.new; old_lines = lines.old.items; lines = lines.new.items })) }
{
    match replay_events(session, events, setup, kit, driver, lines) {
        Ok(()) => Ok(()),
        Err(SessionError::NoMemory) => Err(NoMemory),
        Err(SessionError::Chain { .. }) => unreachable!(),
    }
}

/// Replays events behind those for which the session stands, with written replies, oldest first, in place of a driver, and adds the lines. `NoMemory`
/// comes also where the replies aren't just those that the calls of these events need. After it the session is for dropping alone.
pub(crate) fn follow(
    session: &mut Session,
    events: &[Event],
    replies: &[DriverReply],
    setup: &Setup,
    kit: &Kit,
    lines: &mut Vec<u8>,
) -> Result<(), NoMemory>
    requires can { CanGoOn (trace_setup (setup_content setup.now)) (option_map (λ x. x.value.kept) session.old.started) (map content events.now) }
    requires few { length (setup_content setup.now).drivers.list < 2 ^ 32 }
    requires within { list_any (exceeds_layers (trace_setup (setup_content setup.now))) (map content events.now) ≡ false }
    ensures { OnOk result (Follows (trace_setup (setup_content setup.now)) (option_map (λ x. x.value.kept) session.old.started) (option_map (λ x. x.value.kept) session.new.started) (map content events.now) (map reply_shown replies.now) lines.old.items lines.new.items) }
{
    let mut driver = PlayedDriver::new(replies);
    replay_within(session, events, setup, kit, &mut driver, lines)?;
    if !driver.has_given(replies) {
        return Err(NoMemory);
    }
    Ok(())
}
