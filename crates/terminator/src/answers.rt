//! What the drivers of a call answered.
ghost use Rattle.std.specs.Prelude.{◌≡◌, ◌≤◌, ◌<◌, ◌+◌, ◌^◌, ◌++◌, ◌∷◌, [], false, map, length, slice_get, unwrap_or, vec_capacity, IfOk, IsOk, OnOk};
ghost use Rattle.command_tables.specs.Tests.{same_command};
ghost use Rattle.command_tables.specs.declared.types.CommandId.TheVariants as command;
ghost use Rattle.layer_model.specs.Terminator.{plain_handle, values_from};
ghost use Rattle.object_model.specs.Routes.{driver_behind};
ghost use Rattle.object_model.specs.Values.{first_value, values_answered};
ghost use Rattle.terminator.specs.Calls.{born_where};
ghost use Rattle.terminator.specs.Shown.{answers_in, drivers_named};
ghost use Rattle.terminator.specs.Table.{value_of};

use crate::receivers::Receivers;
use crate::value::DriverValue;
use command_tables::{CommandId, NoMemory};
use model_driver::DriverReply;

/// A call's command, its drivers and their replies, one for each.
#[derive(Clone, Copy)]
pub struct Answers<'a> {
    pub cmd: CommandId,
    pub receivers: Receivers,
    pub replies: &'a [DriverReply],
}

// The handle in a place, and 0 where none was answered.
fn handle_at(handles: &[u64], place: usize) -> u64
    ensures { result ≡ unwrap_or (slice_get handles.now place) 0 }
{
    match handles.get(place) {
        None => 0,
        Some(handle) => *handle,
    }
}

/// Whether a command enumerates physical devices, of which each driver has one.
#[tactic(auto, unfolding(command_tables::specs::Tests::same_command))]
pub fn enumerates_devices(cmd: CommandId) -> bool
    ensures { result ≡ same_command cmd command.EnumeratePhysicalDevices }
{
    cmd == CommandId::EnumeratePhysicalDevices
}

// A driver's value, behind those of others.
fn push_value(values: &mut Vec<DriverValue>, driver: u32, value: u64) -> Result<(), NoMemory>
    ensures added { OnOk result (map value_of values.new.items ≡ map value_of values.old.items ++ record { driver = driver; value = value } ∷ []) }
    ensures count { OnOk result (length values.new.items ≡ length values.old.items + 1) }
    ensures succeeds { length values.old.items < vec_capacity values.old → IsOk result }
    ensures room { vec_capacity values.old ≤ vec_capacity values.new }
{
    values.push(DriverValue { driver, value })?;
    Ok(())
}

// What one driver answered for the result in a place, behind what others did.
#[tactic(auto, using(crate::proofs::Answering::one_value, crate::proofs::Answering::one_device, crate::proofs::Answering::no_device))]
fn add_value(
    cmd: CommandId,
    driver: u32,
    handles: &[u64],
    place: usize,
    values: &mut Vec<DriverValue>,
) -> Result<(), NoMemory>
    ensures added { OnOk result (map value_of values.new.items ≡ map value_of values.old.items ++ values_answered cmd (record { driver = driver; handles = handles.now } ∷ []) place) }
    ensures count { OnOk result (length values.new.items ≤ length values.old.items + 1) }
    ensures succeeds { length values.old.items < vec_capacity values.old → IsOk result }
    ensures room { vec_capacity values.old ≤ vec_capacity values.new }
{
    if !enumerates_devices(cmd) {
        push_value(values, driver, handle_at(handles, place))?;
    } else if driver as usize == place {
        push_value(values, driver, handle_at(handles, 0))?;
    }
    Ok(())
}

impl Answers<'_> {
    /// The values of the result in a place, one for each driver that answered it. What stood in `values` before is gone.
    pub fn gather(self, place: usize, values: &mut Vec<DriverValue>) -> Result<(), NoMemory>
        requires { length self.replies.now ≡ length (drivers_named self.receivers) }
        ensures values { OnOk result (map value_of values.new.items ≡ values_answered self.entry.cmd (answers_in self.entry) place) }
        ensures count { OnOk result (length values.new.items ≤ length (drivers_named self.entry.receivers)) }
        ensures succeeds { length (drivers_named self.entry.receivers) ≤ vec_capacity values.old → IsOk result }
        ensures room { vec_capacity values.old ≤ vec_capacity values.new }
    {
        values.clear();
        for k in 0..self.receivers.count() {
            let handles = &self.replies[k as usize].handles;
            add_value(self.cmd, self.receivers.at(k), handles, place, values)?;
        }
        Ok(())
    }

    /// The driver behind the result in a place.
    pub fn driver_behind(self, place: usize) -> Result<u32, NoMemory>
        ensures driver { IfOk result (λ driver. driver ≡ driver_behind self.entry.cmd (drivers_named self.entry.receivers) place) }
        ensures succeeds { place < 2 ^ 32 → IsOk result }
    {
        if enumerates_devices(self.cmd) {
            u32::try_from(place).ok().ok_or(NoMemory)
        } else {
            Ok(self.receivers.first())
        }
    }

    // The first driver's handle in a place.
    #[tactic(auto, using(crate::proofs::Answering::first_answered, crate::proofs::Answering::first_none))]
    fn first_handle(self, place: usize) -> u64
        requires count { length self.replies.now ≡ length (drivers_named self.receivers) }
        requires plain { same_command self.cmd command.EnumeratePhysicalDevices ≡ false }
        ensures { result ≡ first_value (values_answered self.entry.cmd (answers_in self.entry) place) }
    {
        if self.replies.is_empty() {
            return 0;
        }
        handle_at(&self.replies[0].handles, place)
    }

    /// Each result that is born becomes the first driver's handle; a lost one stays 0.
    #[tactic(auto, using(crate::proofs::Answering::handed_lost, crate::proofs::Answering::handed_more, crate::proofs::Answering::handed_all))]
    pub fn hand_up(self, results: &mut [u64])
        requires count { length self.replies.now ≡ length (drivers_named self.receivers) }
        requires plain { same_command self.cmd command.EnumeratePhysicalDevices ≡ false }
        ensures { results.new ≡ map plain_handle (values_from self.entry.cmd (answers_in self.entry) 0 (born_where results.old)) }
    {
        for place in 0..results.len() {
            if results[place] != 0 {
                results[place] = self.first_handle(place);
            }
        }
    }
}
