// The variables of the process.
ghost use Rattle.std.specs.Prelude.{◌≡◌, IfOk, OnErr, OnOk, map, option_map};
ghost use Rattle.replay_tool.specs.Environment.{HasFirsts, TakesEntry, variable_in};

use env_filters::{EnvList, NoMemory};
use std::alloc::{AllocError, Global};
use std::env::{Env, FillError};

// How many bytes a variable with its name may have before more room is taken for it.
const FIRST_ROOM: usize = 4_096;

// The name and the value of an entry that is written as `NAME=value`. What has no name is none, and so is what isn't UTF-8.
fn named(entry: &[u8]) -> Option<(&str, &str)>
    ensures { option_map (λ pair. record { name = pair.0.now; value = pair.1.now }) result ≡ variable_in entry.now }
{
    let Ok(text) = str::from_utf8(entry) else {
        return None;
    };
    let Some((name, value)) = text.split_once('=') else {
        return None;
    };
    if name.is_empty() {
        return None;
    }
    Some((name, value))
}

// Puts the variable of an entry, where its name isn't set: of two with one name the first counts, as it does for the system's getenv.
fn put_entry(variables: &mut EnvList, entry: &[u8]) -> Result<(), NoMemory>
    ensures taken { OnOk result (TakesEntry entry.now variables.old variables.new) }
    ensures kept { OnErr result (variables.new ≡ variables.old) }
{
    let Some((name, value)) = named(entry) else {
        return Ok(());
    };
    if variables.get(name).is_some() {
        return Ok(());
    }
    variables.put(name, value)
}

/// The variables of entries.
pub(crate) fn first_values(alloc: Global, entries: &[Vec<u8>]) -> Result<EnvList, NoMemory>
    ensures { IfOk result (λ variables. HasFirsts (map (λ entry. entry.items) entries.now) variables) }
{
    let mut variables = EnvList::new(alloc);
    for entry in entries {
        put_entry(&mut variables, entry)?;
    }
    Ok(variables)
}

// The entries of the process's environment, as the system gives them. No contract tells which the system has.
fn entries_of<E: Env>(env: &E, alloc: Global) -> Result<Vec<Vec<u8>>, NoMemory> {
    let mut entries = Vec::new(alloc);
    let mut room = Vec::new(alloc);
    room.resize(FIRST_ROOM, 0u8)?;
    let mut index = 0usize;
    for _ in 0..usize::MAX {
        match env.var_at(index, room.as_mut_slice()) {
            Ok(length) => {
                entries.push(Vec::from_slice(alloc, &room[..length])?)?;
                index = index.saturating_add(1);
            }
            Err(FillError::TooLong) => room.resize(room.len().saturating_mul(2), 0u8)?,
            Err(FillError::NotPresent) => break,
        }
    }
    Ok(entries)
}

/// The variables of the process that are UTF-8 and have a name, of two with one name the first.
pub fn variables_of<E: Env>(env: &E, alloc: Global) -> Result<EnvList, NoMemory> {
    let entries = entries_of(env, alloc)?;
    first_values(alloc, &entries)
}
