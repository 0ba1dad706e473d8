//! Devices with their numbers.
ghost use Rattle.std.specs.Prelude.{◌≡◌, ◌++◌, ◌∷◌, [], None, OnOk, Some};
ghost use Rattle.stream_model.specs.Order.{with_device};
ghost use Rattle.merge_model.specs.Planned.{number_among};
ghost use Rattle.stream_plans.specs.Dealt.{AreNumbered};

use crate::table::NameTable;
use std::alloc::{AllocError, Global};
use trace_format::Name;

/// Devices, and of each its place among them: a look-up is two reads, however many there are.
#[derive(Drop)]
pub struct NumberedDevices {
    pub names: Vec<Name>,
    numbers: NameTable<usize>,
}

impl NumberedDevices {
    /// No devices yet.
    pub fn new(alloc: Global) -> NumberedDevices
        ensures none { result.names.items ≡ [] }
        ensures numbered { AreNumbered result }
    {
        NumberedDevices {
            names: Vec::new(alloc),
            numbers: NameTable::new(alloc),
        }
    }

    /// The number of a device among these, where it is one.
    pub fn number(&self, device: Option<Name>) -> Option<usize>
        requires { AreNumbered self.now }
        ensures { result ≡ number_among self.now.names.items device }
    {
        self.numbers.value(device?)
    }

    // Adds a device that is another than these.
    fn push(&mut self, device: Name) -> Result<(), AllocError>
        requires numbered { AreNumbered self.old }
        requires another { number_among self.old.names.items (Some device) ≡ None }
        ensures names { OnOk result (self.new.names.items ≡ self.old.names.items ++ device ∷ []) }
        ensures numbered { OnOk result (AreNumbered self.new) }
    {
        self.numbers.put(device, Some(self.names.len()))?;
        self.names.push(device)?;
        Ok(())
    }

    // Adds a device, where it is another than these.
    fn add_one(&mut self, device: Name) -> Result<(), AllocError>
        requires { AreNumbered self.old }
        ensures names { OnOk result (self.new.names.items ≡ with_device (Some device) self.old.names.items) }
        ensures numbered { OnOk result (AreNumbered self.new) }
    {
        match self.number(Some(device)) {
            Some(_) => Ok(()),
            None => {
                self.push(device)?;
                Ok(())
            }
        }
    }

    /// Adds a device, if there is one and it is another than those before it.
    pub fn add(&mut self, device: Option<Name>) -> Result<(), AllocError>
        requires { AreNumbered self.old }
        ensures names { OnOk result (self.new.names.items ≡ with_device device self.old.names.items) }
        ensures numbered { OnOk result (AreNumbered self.new) }
    {
        match device {
            None => Ok(()),
            Some(device) => {
                self.add_one(device)?;
                Ok(())
            }
        }
    }
}
