// A driver that many threads call side by side.
use crate::driver::{DriverCall, DriverReply, Policy};
use command_tables::NoMemory;
use std::alloc::Global;

/// A driver with seats. Each thread calls it through a seat of its own, which has its own policy, its own list of calls and
/// its own room, so that a call waits for no other and takes no memory.
pub trait SharedDriver: Sync {
    type Seat: Send + Drop;

    ghost use Rattle.std.specs.Prelude.{◌≡◌, ◌∷◌, ◌≤◌, [], Option, IfOk, OnOk, OnErr, vec_capacity};
    ghost use Rattle.command_tables.specs.Calls.{DriverCallContent, ReplyContent};
    ghost use Rattle.model_driver.specs.declared.driver.Policy.{Policy};
    ghost use Rattle.model_driver.specs.Driver.{call_shown, reply_shown, handles_due, HasShape, IsAnsweredBy};
    ghost use Rattle.model_driver.specs.Logs.{Log, logged};
    ghost use Rattle.model_driver.specs.Seats.{SeatRoom, FitsIn, IsEmptyLog, IsPolicy, joined_room, room_for};

    /// The calls of a seat so far, each with its reply, where the driver tells them.
    ghost log: { Self.Seat → Log };

    /// The policy by which a seat answers, where the driver tells it.
    ghost answers_by: { Self.Seat → Option Policy };

    /// What a seat has room for.
    ghost room: { Self.Seat → SeatRoom };

    /// What a new seat of a policy is.
    ghost seat_gives: { Self → Policy → Self.Seat → Type 0 };

    /// What more room makes of a seat.
    ghost extend_gives: { Self → Self.Seat → Self.Seat → Type 0 };

    /// What an answered call makes of a seat.
    ghost call_gives: { Self → Self.Seat → DriverCallContent → ReplyContent → Self.Seat → Type 0 };

    /// A new seat of this policy, with room for so many calls, for so many handles of their arguments and replies together,
    /// and for so many payload bytes.
    fn seat(
        &self,
        alloc: Global,
        policy: Policy,
        calls: u32,
        handles: u32,
        bytes: usize,
    ) -> Result<Self::Seat, NoMemory>
        ensures gives { IfOk result (λ seat. seat_gives self.now policy seat) }
        ensures log { IfOk result (λ seat. IsEmptyLog (log seat)) }
        ensures policy { IfOk result (λ seat. IsPolicy (answers_by seat) policy) }
        ensures room { IfOk result (λ seat. FitsIn (record { calls = calls; handles = handles; bytes = bytes }) (room seat)) };

    /// Makes the room that is left in a seat at least so much; no room is lost. After `NoMemory` the seat is as it was.
    fn extend(
        &self,
        seat: &mut Self::Seat,
        calls: u32,
        handles: u32,
        bytes: usize,
    ) -> Result<(), NoMemory>
        ensures gives { OnOk result (extend_gives self.now seat.old seat.new) }
        ensures log { log seat.new ≡ log seat.old }
        ensures policy { answers_by seat.new ≡ answers_by seat.old }
        ensures room { OnOk result (FitsIn (record { calls = calls; handles = handles; bytes = bytes }) (room seat.new)) }
        ensures kept { FitsIn (room seat.old) (room seat.new) }
        ensures same { OnErr result (seat.new ≡ seat.old) };

    /// Answers a call as a `Driver` does, at a seat with room for it and into a reply with room for the handles that are due.
    /// It takes no memory.
    fn call(&self, seat: &mut Self::Seat, call: &DriverCall, reply: &mut DriverReply)
        requires shape { HasShape (call_shown call.now) }
        requires room { FitsIn (room_for (call_shown call.now)) (room seat.old) }
        requires reply { handles_due (call_shown call.now) ≤ vec_capacity reply.old.handles }
        ensures answers { IsAnsweredBy (call_shown call.now) (reply_shown reply.new) }
        ensures gives { call_gives self.now seat.old (call_shown call.now) (reply_shown reply.new) seat.new }
        ensures log { log seat.new ≡ logged (log seat.old) ((call_shown call.now, reply_shown reply.new) ∷ []) }
        ensures policy { answers_by seat.new ≡ answers_by seat.old }
        ensures room { FitsIn (room seat.old) (joined_room (room_for (call_shown call.now)) (room seat.new)) }
        ensures capacity { vec_capacity reply.old.handles ≤ vec_capacity reply.new.handles };
}
