// A driver over one seat.
ghost use Rattle.std.specs.Prelude.{◌≡◌};
ghost use Rattle.model_driver.specs.Driver.{call_shown, HasShape};
ghost use Rattle.model_driver.specs.Seats.{room_for};

use crate::driver::{Driver, DriverCall, DriverReply, Policy};
use crate::due::handles_due;
use crate::shared_driver::SharedDriver;
use command_tables::NoMemory;

/// A driver over one seat of a shared driver, whose log is the seat's list. Before each call it makes the room that the call
/// needs, in the seat and in the reply. To prepare it changes nothing, since the seat has its policy.
#[derive(Drop)]
pub struct SeatDriver<'a, D: SharedDriver> {
    driver: &'a D,
    seat: D::Seat,
}

impl<'a, D: SharedDriver> SeatDriver<'a, D> {
    pub fn new(driver: &'a D, seat: D::Seat) -> SeatDriver<'a, D>
        ensures driver { result.driver.now ≡ driver.now }
        ensures seat { result.seat ≡ seat }
    {
        SeatDriver { driver, seat }
    }

    /// The seat, with what the calls made of it.
    pub fn into_seat(self) -> D::Seat
        ensures { result ≡ self.entry.seat }
    {
        self.seat
    }
}

// How many handles a call takes of a seat's room.
#[tactic(auto, using(crate::proofs::Taken::taken_few, crate::proofs::Flats::count_more))]
fn handles_taken(call: &DriverCall) -> u32
    requires { HasShape (call_shown call.now) }
    ensures { result ≡ (room_for (call_shown call.now)).handles }
{
    let args = &call.body.args;
    let mut count = handles_due(call);
    for p in 0..args.len() {
        count += args.param(p).len() as u32;
    }
    count
}

impl<'a, D: SharedDriver> Driver for SeatDriver<'a, D> {
    ghost use Rattle.std.specs.Prelude.{◌≡◌, None};
    ghost use Rattle.model_driver.specs.Seats.{Seated};

    ghost log = { λ d. D.log d.seat };

    ghost answers_by = { λ _. None };

    ghost prepare_gives = { λ before _ behind. behind ≡ before };

    ghost call_gives = { λ before call reply behind. Seated (D.extend_gives before.driver.now) (D.call_gives before.driver.now) before.seat call reply behind.seat };

    fn prepare(&mut self, _policy: Policy) {}

    fn call(&mut self, call: &DriverCall, reply: &mut DriverReply) -> Result<(), NoMemory> {
        reply.handles.clear();
        reply.handles.reserve(handles_due(call) as usize)?;
        let bytes = call.body.payload.len();
        self.driver
            .extend(&mut self.seat, 1, handles_taken(call), bytes)?;
        self.driver.call(&mut self.seat, call, reply);
        Ok(())
    }
}
