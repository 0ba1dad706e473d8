//! The sections that are replayed in one thread.
ghost use Rattle.std.specs.Prelude.{◌≡◌, ◌<◌, ◌^◌, false, length, map, IfOk};
ghost use Rattle.std.specs.List.{list_any};
ghost use Rattle.std.specs.Option.{option_map};
ghost use Rattle.trace_format.specs.Content.{content};
ghost use Rattle.replay_model.specs.Stop.{exceeds_layers};
ghost use Rattle.chain_build.specs.Setup.{setup_content};
ghost use Rattle.report_text.specs.Setups.{trace_setup};
ghost use Rattle.event_replay.specs.Through.{CanGoOn, GoesThrough};

use crate::following::replay_within;
use crate::one_seat::{NamedSeat, OneSeat, SeatPolicy};
use chain_build::Setup;
use chain_session::Session;
use command_tables::NoMemory;
use dispatch_chain::Kit;
use model_driver::{SeatDriver, SharedDriver};
use std::marker::Brand;
use trace_format::Event;

// So through a seat that answers by the policy that `N` names.
fn replay_named<N: SeatPolicy + Send + Sync, D: SharedDriver>(
    session: &mut Session,
    events: &[Event],
    setup: &Setup,
    kit: &Kit,
    driver: &D,
    seat: D::Seat,
    lines: &mut Vec<u8>,
) -> Result<D::Seat, NoMemory>
    requires can { CanGoOn (trace_setup (setup_content setup.now)) (option_map (λ x. x.value.kept) session.old.started) (map content events.now) }
    requires few { length (setup_content setup.now).drivers.list < 2 ^ 32 }
    requires within { list_any (exceeds_layers (trace_setup (setup_content setup.now))) (map content events.now) ≡ false }
    requires policy { D.answers_by seat ≡ N.policy }
    ensures goes { IfOk result (λ after. GoesThrough (trace_setup (setup_content setup.now)) (option_map (λ x. x.value.kept) session.old.started) (option_map (λ x. x.value.kept) session.new.started) (map content events.now)
        (record { old_log = D.log seat; log = D.log after; old_lines = lines.old.items; lines = lines.new.items })) }
    ensures policy { IfOk result (λ after. D.answers_by after ≡ N.policy) }
{
    let one = OneSeat::<N, D>::new(driver);
    let mut seated = SeatDriver::new(&one, NamedSeat::new(seat));
    replay_within(session, events, setup, kit, &mut seated, lines)?;
    Ok(seated.into_seat().into_seat())
}

/// Replays the events of a section, whose drivers are called through a seat, which comes back.
pub(crate) fn replay_section<D: SharedDriver>(
    session: &mut Session,
    events: &[Event],
    setup: &Setup,
    kit: &Kit,
    driver: &D,
    seat: D::Seat,
    lines: &mut Vec<u8>,
) -> Result<D::Seat, NoMemory>
    requires can { CanGoOn (trace_setup (setup_content setup.now)) (option_map (λ x. x.value.kept) session.old.started) (map content events.now) }
    requires few { length (setup_content setup.now).drivers.list < 2 ^ 32 }
    requires within { list_any (exceeds_layers (trace_setup (setup_content setup.now))) (map content events.now) ≡ false }
    ensures goes { IfOk result (λ after. GoesThrough (trace_setup (setup_content setup.now)) (option_map (λ x. x.value.kept) session.old.started) (option_map (λ x. x.value.kept) session.new.started) (map content events.now)
        (record { old_log = D.log seat; log = D.log after; old_lines = lines.old.items; lines = lines.new.items })) }
    ensures policy { IfOk result (λ after. D.answers_by after ≡ D.answers_by seat) }
{
    replay_named::<Brand, D>(session, events, setup, kit, driver, seat, lines)
}
