// A shared driver that keeps the list of each seat.
ghost use Rattle.std.specs.Prelude.{◌≡◌, ◌++◌, OnOk};
ghost use Rattle.model_driver.specs.Logs.{exchanges_shown};

use crate::driver::{DriverCall, DriverReply, Policy};
use crate::flat_calls::FlatCalls;
use crate::shared_driver::SharedDriver;
use command_tables::NoMemory;
use std::alloc::Global;
use std::marker::Model;

/// A shared driver that tells the list of each seat.
#[derive(Drop)]
pub struct RecordingShared<D> {
    inner: D,
}

/// A seat of the driver inside, with the list of its calls, each with its reply.
#[derive(Drop)]
pub struct RecordingSeat<S: Drop> {
    inner: S,
    kept: FlatCalls,
    left_calls: u32,
    left_handles: u32,
    left_bytes: usize,
}

impl<S: Drop> Model for RecordingSeat<S> {
    ghost use Rattle.model_driver.specs.Flat.{FitsFlat, RecordedSeat};

    ghost Value = { RecordedSeat S };

    ghost view = { λ s. record { inner = s.inner; calls = s.kept.calls; left = record { calls = s.left_calls; handles = s.left_handles; bytes = s.left_bytes } } };

    ghost invariant = { λ s. FitsFlat (record { calls = s.left_calls; handles = s.left_handles; bytes = s.left_bytes }) s.kept.room };
}

impl<S: Drop> RecordingSeat<S> {
    /// Adds copies of the seat's calls, each with its reply, to a list. After `NoMemory` anything stands behind what was there.
    pub fn log(&self, out: &mut Vec<(DriverCall, DriverReply)>) -> Result<(), NoMemory>
        ensures { OnOk result (exchanges_shown out.new.items ≡ exchanges_shown out.old.items ++ self.now.calls) }
    {
        self.kept.append_to(out)
    }
}

impl<D: SharedDriver> RecordingShared<D> {
    pub fn new(inner: D) -> RecordingShared<D>
        ensures { result.inner ≡ inner }
    {
        RecordingShared { inner }
    }
}

impl<D: SharedDriver> SharedDriver for RecordingShared<D> {
    type Seat = RecordingSeat<D::Seat>;

    ghost use Rattle.std.specs.Prelude.{◌≡◌, ◌∷◌, [], ◌++◌};
    ghost use Rattle.model_driver.specs.Seats.{shared_room};
    ghost use Rattle.model_driver.specs.Logs.{Calls};

    ghost log = { λ s. Calls s.calls };

    ghost answers_by = { λ s. D.answers_by s.inner };

    ghost room = { λ s. shared_room s.left (D.room s.inner) };

    ghost seat_gives = { λ d policy seat. D.seat_gives d.inner policy seat.inner × (seat.calls ≡ []) };

    ghost extend_gives = { λ d before behind. D.extend_gives d.inner before.inner behind.inner × (behind.calls ≡ before.calls) };

    ghost call_gives = { λ d before call reply behind. D.call_gives d.inner before.inner call reply behind.inner × (behind.calls ≡ before.calls ++ (call, reply) ∷ []) };

    fn seat(
        &self,
        alloc: Global,
        policy: Policy,
        calls: u32,
        handles: u32,
        bytes: usize,
    ) -> Result<RecordingSeat<D::Seat>, NoMemory> {
        let mut kept = FlatCalls::new(alloc);
        kept.reserve(calls, handles, bytes)?;
        let inner = self.inner.seat(alloc, policy, calls, handles, bytes)?;
        Ok(RecordingSeat {
            inner,
            kept,
            left_calls: calls,
            left_handles: handles,
            left_bytes: bytes,
        })
    }

    // The seat inside has its room last, so that a refusal leaves both as they were.
    fn extend(
        &self,
        seat: &mut RecordingSeat<D::Seat>,
        calls: u32,
        handles: u32,
        bytes: usize,
    ) -> Result<(), NoMemory> {
        seat.kept.reserve(calls, handles, bytes)?;
        self.inner.extend(&mut seat.inner, calls, handles, bytes)?;
        seat.left_calls = seat.left_calls.max(calls);
        seat.left_handles = seat.left_handles.max(handles);
        seat.left_bytes = seat.left_bytes.max(bytes);
        Ok(())
    }

    fn call(&self, seat: &mut RecordingSeat<D::Seat>, call: &DriverCall, reply: &mut DriverReply) {
        self.inner.call(&mut seat.inner, call, reply);
        let taken = seat.kept.push_reserved(call, reply);
        seat.left_calls -= 1;
        seat.left_handles -= taken as u32;
        seat.left_bytes -= call.body.payload.len();
    }
}
