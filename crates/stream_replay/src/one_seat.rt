//! One seat of a shared driver, of which the type says by which policy it answers.
ghost use Rattle.std.specs.Prelude.{◌≡◌};

use command_tables::NoMemory;
use model_driver::{DriverCall, DriverReply, Policy, SharedDriver};
use std::alloc::Global;
use std::marker::{Brand, Model, PhantomData};

/// Names the policy by which a seat answers, where the driver tells it, for contracts alone.
pub(crate) trait SeatPolicy {
    ghost use Rattle.std.specs.Prelude.{Option};
    ghost use Rattle.model_driver.specs.declared.driver.Policy.{Policy};

    ghost policy: { Option Policy };
}

impl SeatPolicy for Brand {
    ghost use Rattle.std.specs.Prelude.{None};

    ghost policy = { None };
}

/// A seat that answers by the policy that `N` names. Contracts see the seat.
#[derive(Drop)]
pub(crate) struct NamedSeat<N: SeatPolicy, D: SharedDriver> {
    seat: D::Seat,
    policy: PhantomData<N>,
}

impl<N: SeatPolicy, D: SharedDriver> Model for NamedSeat<N, D> {
    ghost use Rattle.std.specs.Prelude.{◌≡◌};

    ghost Value = { D.Seat };

    ghost view = { λ s. s.seat };

    ghost invariant = { λ s. D.answers_by s.seat ≡ N.policy };
}

impl<N: SeatPolicy, D: SharedDriver> NamedSeat<N, D> {
    pub(crate) fn new(seat: D::Seat) -> NamedSeat<N, D>
        requires { D.answers_by seat ≡ N.policy }
        ensures { result ≡ seat }
    {
        NamedSeat {
            seat,
            policy: PhantomData,
        }
    }

    pub(crate) fn into_seat(self) -> D::Seat
        ensures seat { result ≡ self }
        ensures policy { D.answers_by result ≡ N.policy }
    {
        self.seat
    }
}

/// A shared driver through which only named seats are called. It makes none: each is one of the driver's own.
#[derive(Drop)]
pub(crate) struct OneSeat<'a, N: SeatPolicy, D: SharedDriver> {
    driver: &'a D,
    policy: PhantomData<N>,
}

impl<'a, N: SeatPolicy, D: SharedDriver> OneSeat<'a, N, D> {
    pub(crate) fn new(driver: &'a D) -> OneSeat<'a, N, D> {
        OneSeat {
            driver,
            policy: PhantomData,
        }
    }
}

impl<'a, N: SeatPolicy + Send + Sync, D: SharedDriver> SharedDriver for OneSeat<'a, N, D> {
    type Seat = NamedSeat<N, D>;

    ghost use Rattle.model_driver.specs.Seats.{IsPolicy};

    ghost log = { λ s. D.log s };

    ghost answers_by = { λ s. D.answers_by s };

    ghost room = { λ s. D.room s };

    ghost seat_gives = { λ _ policy seat. IsPolicy (D.answers_by seat) policy };

    ghost extend_gives = { λ d before behind. D.extend_gives d.driver.now before behind };

    ghost call_gives = { λ d before call reply behind. D.call_gives d.driver.now before call reply behind };

    fn seat(
        &self,
        _alloc: Global,
        _policy: Policy,
        _calls: u32,
        _handles: u32,
        _bytes: usize,
    ) -> Result<NamedSeat<N, D>, NoMemory> {
        Err(NoMemory)
    }

    fn extend(
        &self,
        seat: &mut NamedSeat<N, D>,
        calls: u32,
        handles: u32,
        bytes: usize,
    ) -> Result<(), NoMemory> {
        self.driver.extend(&mut seat.seat, calls, handles, bytes)
    }

    fn call(&self, seat: &mut NamedSeat<N, D>, call: &DriverCall, reply: &mut DriverReply) {
        self.driver.call(&mut seat.seat, call, reply);
    }
}
