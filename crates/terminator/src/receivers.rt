//! The drivers that a call goes to.
ghost use Rattle.std.specs.Prelude.{◌≡◌, ◌<◌, length, slice_get, slice_index, unwrap_or};
ghost use Rattle.terminator.specs.Shown.{drivers_named};

/// The drivers of a call, in order.
#[derive(Clone, Copy)]
pub enum Receivers {
    /// Every driver, of so many.
    All(u32),
    One(u32),
}

impl Receivers {
    /// How many they are.
    #[tactic(auto, using(crate::proofs::Drivers::count_all))]
    pub fn count(self) -> u32
        ensures { result ≡ length (drivers_named self) }
    {
        match self {
            Receivers::All(count) => count,
            Receivers::One(_) => 1,
        }
    }

    /// The driver in a place.
    #[tactic(auto, using(crate::proofs::Drivers::at_all))]
    pub fn at(self, place: u32) -> u32
        requires { place < length (drivers_named self) }
        ensures { result ≡ slice_index (drivers_named self) place }
    {
        match self {
            Receivers::All(_) => place,
            Receivers::One(driver) => driver,
        }
    }

    /// The first driver, and 0 where there is none.
    pub fn first(self) -> u32
        ensures { result ≡ unwrap_or (slice_get (drivers_named self) 0) 0 }
    {
        match self {
            Receivers::All(_) => 0,
            Receivers::One(driver) => driver,
        }
    }
}
