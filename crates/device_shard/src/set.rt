//! The locks of all plans.
ghost use Rattle.std.specs.Prelude.{◌≡◌, ◌≤◌, [], ◌∷◌, is_some, length, slice_get};
ghost use Rattle.trace_format.specs.Accepting.{same_name};
ghost use Rattle.device_shard.specs.Sets.{devices_of, held_of, logs_of};

use crate::names::ShardNames;
use crate::shard::Shard;
use crate::shard_ref::ShardRef;
use std::sync::Mutex;
use stream_log::DeviceLog;
use trace_format::Name;

/// One lock for each plan, in the field with the plan's number, and the logs.
#[derive(Drop)]
pub struct ShardSet<N: ShardNames> {
    pub(crate) devices: Vec<Name>,
    pub(crate) logs: Vec<DeviceLog>,
    pub(crate) p0: Option<Mutex<Shard<N, 0>>>,
    pub(crate) p1: Option<Mutex<Shard<N, 1>>>,
    pub(crate) p2: Option<Mutex<Shard<N, 2>>>,
    pub(crate) p3: Option<Mutex<Shard<N, 3>>>,
    pub(crate) p4: Option<Mutex<Shard<N, 4>>>,
    pub(crate) p5: Option<Mutex<Shard<N, 5>>>,
    pub(crate) p6: Option<Mutex<Shard<N, 6>>>,
    pub(crate) p7: Option<Mutex<Shard<N, 7>>>,
    pub(crate) p8: Option<Mutex<Shard<N, 8>>>,
    pub(crate) p9: Option<Mutex<Shard<N, 9>>>,
    pub(crate) p10: Option<Mutex<Shard<N, 10>>>,
    pub(crate) p11: Option<Mutex<Shard<N, 11>>>,
    pub(crate) p12: Option<Mutex<Shard<N, 12>>>,
    pub(crate) p13: Option<Mutex<Shard<N, 13>>>,
    pub(crate) p14: Option<Mutex<Shard<N, 14>>>,
    pub(crate) p15: Option<Mutex<Shard<N, 15>>>,
    ghost devices_are: { devices.items ≡ devices_of N.shards },
    ghost logs_are: { logs.items ≡ logs_of N.shards },
    ghost few: { length devices.items ≤ 16 },
    ghost held_are: { is_some p0 ∷ is_some p1 ∷ is_some p2 ∷ is_some p3 ∷ is_some p4 ∷ is_some p5 ∷ is_some p6 ∷ is_some p7 ∷ is_some p8 ∷ is_some p9 ∷ is_some p10 ∷ is_some p11 ∷ is_some p12 ∷ is_some p13 ∷ is_some p14 ∷ is_some p15 ∷ [] ≡ held_of N.shards },
}

impl<N: ShardNames> ShardSet<N> {
    ghost use Rattle.std.specs.Prelude.{if◌then◌else◌, nat_lt, None, Some};
    ghost use Rattle.std.specs.Option.{option_map};
    ghost use Rattle.device_shard.specs.Refs.{number_at};
    ghost use Rattle.device_shard.specs.Sets.{log_of, number_of};

    // The number of a device's plan.
    fn place(&self, device: Name) -> Option<usize>
        ensures { result ≡ number_of N.shards device }
    {
        self.devices
            .iter()
            .position(|other| is_same(*other, device))
    }

    /// The lock of the plan with a number, from 0, in the variant with this number. None comes exactly for a number without a plan.
    pub fn lock_at(&self, number: usize) -> Option<ShardRef<'_, N>>
        ensures { option_map number_at result ≡ (if nat_lt number (length N.shards) then Some number else None) }
    {
        match number {
            0 => Some(ShardRef::P0(self.p0.as_ref()?)),
            1 => Some(ShardRef::P1(self.p1.as_ref()?)),
            2 => Some(ShardRef::P2(self.p2.as_ref()?)),
            3 => Some(ShardRef::P3(self.p3.as_ref()?)),
            4 => Some(ShardRef::P4(self.p4.as_ref()?)),
            5 => Some(ShardRef::P5(self.p5.as_ref()?)),
            6 => Some(ShardRef::P6(self.p6.as_ref()?)),
            7 => Some(ShardRef::P7(self.p7.as_ref()?)),
            8 => Some(ShardRef::P8(self.p8.as_ref()?)),
            9 => Some(ShardRef::P9(self.p9.as_ref()?)),
            10 => Some(ShardRef::P10(self.p10.as_ref()?)),
            11 => Some(ShardRef::P11(self.p11.as_ref()?)),
            12 => Some(ShardRef::P12(self.p12.as_ref()?)),
            13 => Some(ShardRef::P13(self.p13.as_ref()?)),
            14 => Some(ShardRef::P14(self.p14.as_ref()?)),
            15 => Some(ShardRef::P15(self.p15.as_ref()?)),
            _ => None,
        }
    }

    /// The lock of a device's plan, in the variant with the plan's number. None comes exactly for a device without a plan.
    pub fn get(&self, device: Name) -> Option<ShardRef<'_, N>>
        ensures { option_map number_at result ≡ number_of N.shards device }
    {
        let number = self.place(device)?;
        self.lock_at(number)
    }

    /// The log of the plan with a number. None comes exactly for a number without a plan.
    pub fn log_at(&self, number: usize) -> Option<&DeviceLog>
        ensures { option_map (λ l. l.now) result ≡ slice_get (logs_of N.shards) number }
    {
        self.logs.get(number)
    }

    /// The log of a device's plan. None comes exactly for a device without a plan.
    pub fn log(&self, device: Name) -> Option<&DeviceLog>
        ensures { option_map (λ l. l.now) result ≡ log_of N.shards device }
    {
        let number = self.place(device)?;
        self.logs.get(number)
    }
}

// Whether two names are one.
pub(crate) fn is_same(one: Name, other: Name) -> bool
    ensures { result ≡ same_name one other }
{
    one.thread == other.thread && one.number == other.number
}
