// The environment of a run.
ghost use Rattle.std.specs.Prelude.{◌≡◌, [], ◌∷◌, OnOk, OnErr, option_map};
ghost use Rattle.env_filters.specs.Variables.{value_of};

use crate::NoMemory;
use std::alloc::{AllocError, Global};
use std::marker::Model;

#[derive(Drop)]
struct Entry {
    name: String,
    value: String,
}

/// Environment variables with their values. The last value of a name counts.
pub struct EnvList {
    entries: Vec<Entry>,
}

impl Drop for EnvList {
    fn drop(self) {
        let EnvList { entries: _entries } = self;
    }
}

impl Model for EnvList {
    ghost use Rattle.std.specs.Prelude.{List, map, reverse, string_bytes};
    ghost use Rattle.env_filters.specs.Variables.{Variable};

    ghost Value = { List Variable };

    ghost view = { λ s. map (λ e. record { name = string_bytes e.name; value = string_bytes e.value }) (reverse s.entries.items) };
}

impl EnvList {
    pub fn new(alloc: Global) -> EnvList
        ensures { result ≡ [] }
    {
        EnvList {
            entries: Vec::new(alloc),
        }
    }

    /// Puts a variable. A value that was put under the name before counts no longer.
    pub fn put(&mut self, name: &str, value: &str) -> Result<(), NoMemory>
        ensures put { OnOk result (self.new ≡ record { name = name.now; value = value.now } ∷ self.old) }
        ensures kept { OnErr result (self.new ≡ self.old) }
    {
        let alloc = *self.entries.allocator();
        let name = String::from_str(alloc, name)?;
        let value = String::from_str(alloc, value)?;
        self.entries.push(Entry { name, value })?;
        Ok(())
    }

    /// The value of a variable, where it is set. An empty value is a value.
    pub fn get(&self, name: &str) -> Option<&str>
        ensures { option_map (λ value. value.now) result ≡ value_of self.now name.now }
    {
        let entry = self
            .entries
            .iter()
            .rev()
            .find(|entry| entry.name.as_str() == name)?;
        Some(entry.value.as_str())
    }
}

impl Clone for EnvList {
    ghost is_clone = { λ s t. t ≡ s };

    fn clone(&self) -> Result<EnvList, AllocError> {
        let mut entries = Vec::new(*self.entries.allocator());
        for entry in &self.entries {
            entries.push(Entry {
                name: entry.name.clone()?,
                value: entry.value.clone()?,
            })?;
        }
        Ok(EnvList { entries })
    }
}
