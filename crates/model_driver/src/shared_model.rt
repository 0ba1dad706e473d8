// The driver of the many-threaded program.
ghost use Rattle.std.specs.Prelude.{◌≡◌, ◌≤◌, vec_capacity};
ghost use Rattle.model_driver.specs.Driver.{call_shown, reply_shown, handles_due, HasShape, IsAnsweredBy};
ghost use Rattle.model_driver.specs.GivenValues.{handles_at_seat, seat_after};

use crate::driver::{DriverCall, DriverReply, Policy};
use crate::due::handles_due;
use crate::given_values::{give, keep_heap, make_room, take_back};
use crate::model_driver::ended;
use crate::shared_driver::SharedDriver;
use command_tables::NoMemory;
use std::alloc::Global;
use std::cmp::Reverse;
use std::collections::BinaryHeap;
use std::marker::Model;

/// Answers by the policy of the seat, where each seat counts for itself, over all drivers of the chain. It tells no log.
#[derive(Drop)]
pub struct SharedModel;

/// A seat of the shared model driver. Of its room only that of handles is ever used up.
pub struct ModelSeat {
    policy: Policy,
    left: u32,
    back: Vec<bool>,
    free: Option<BinaryHeap<Reverse<u64>>>,
}

impl Drop for ModelSeat {
    fn drop(self) {
        let ModelSeat {
            policy: _policy,
            left: _left,
            back: _back,
            free: _free,
        } = self;
    }
}

impl Model for ModelSeat {
    ghost use Rattle.std.specs.Prelude.{◌≡◌, ◌≤◌, ◌+◌, is_some, length, vec_capacity};
    ghost use Rattle.model_driver.specs.GivenValues.{SeatState};
    ghost use Rattle.model_driver.specs.Books.{HasHeapRoom, HasBook};
    ghost use Rattle.model_driver.specs.Policies.{gives_again};

    ghost Value = { SeatState };

    ghost view = { λ s. record { policy = s.policy; back = s.back.items; left = s.left } };

    ghost invariant = { λ s. (is_some s.free ≡ gives_again s.policy) × HasBook s.back.items s.free × (length s.back.items + s.left ≤ vec_capacity s.back) × HasHeapRoom s.free (length s.back.items + s.left) };
}

impl SharedModel {
    pub fn new() -> SharedModel {
        SharedModel
    }
}

impl SharedDriver for SharedModel {
    type Seat = ModelSeat;

    ghost use Rattle.std.specs.Prelude.{◌≡◌, ◌^◌, [], Some, None};
    ghost use Rattle.model_driver.specs.GivenValues.{handles_at_seat, seat_after};
    ghost use Rattle.model_driver.specs.Logs.{Untold};

    ghost log = { λ _. Untold };

    ghost answers_by = { λ s. Some s.policy };

    ghost room = { λ s. record { calls = 2 ^ 32; handles = s.left; bytes = 2 ^ 64 } };

    ghost seat_gives = { λ _ policy seat. (seat.policy ≡ policy) × (seat.back ≡ []) };

    ghost extend_gives = { λ _ before behind. behind ≡ record before { left = behind.left } };

    ghost call_gives = { λ _ before call reply behind. (reply.handles ≡ handles_at_seat before call) × (behind ≡ seat_after before call) };

    fn seat(
        &self,
        alloc: Global,
        policy: Policy,
        _calls: u32,
        handles: u32,
        _bytes: usize,
    ) -> Result<ModelSeat, NoMemory> {
        let mut back = Vec::new(alloc);
        let mut free = None;
        keep_heap(alloc, policy, &back, &mut free)?;
        make_room(&mut back, &mut free, handles as usize)?;
        Ok(ModelSeat {
            policy,
            left: handles,
            back,
            free,
        })
    }

    fn extend(
        &self,
        seat: &mut ModelSeat,
        _calls: u32,
        handles: u32,
        _bytes: usize,
    ) -> Result<(), NoMemory> {
        if seat.left < handles {
            make_room(&mut seat.back, &mut seat.free, handles as usize)?;
            seat.left = handles;
        }
        Ok(())
    }

    fn call(&self, seat: &mut ModelSeat, call: &DriverCall, reply: &mut DriverReply)
        requires shape { HasShape (call_shown call.now) }
        requires left { handles_due (call_shown call.now) ≤ seat.old.left }
        requires reply { handles_due (call_shown call.now) ≤ vec_capacity reply.old.handles }
        ensures answers { IsAnsweredBy (call_shown call.now) (reply_shown reply.new) }
        ensures handles { reply.new.handles.items ≡ handles_at_seat seat.old (call_shown call.now) }
        ensures seat { seat.new ≡ seat_after seat.old (call_shown call.now) }
        ensures capacity { vec_capacity reply.old.handles ≤ vec_capacity reply.new.handles }
    {
        let due = handles_due(call);
        reply.handles.clear();
        take_back(&mut seat.back, &mut seat.free, ended(call));
        give(
            seat.policy,
            &mut seat.back,
            &mut seat.free,
            due as usize,
            &mut reply.handles,
        );
        seat.left -= due;
        reply.code = call.body.code;
    }
}
