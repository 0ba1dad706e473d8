//! Where the names of a file come from, by thread and number: a look-up is two reads.
ghost use Rattle.std.specs.Prelude.{◌≡◌, ◌&&◌, ◌==◌, ◌<◌, ◌^◌, ℕ, [], None, Some, OnOk, if◌then◌else◌, length};
ghost use Rattle.trace_format.specs.declared.event.Name.{Name};
ghost use Rattle.trace_format.specs.Accepting.{same_name};
ghost use Rattle.threaded_replay.specs.Origins.{PutResults, cell, cell_in, device_in, origin_in, origin_of, stream_in};

use crate::origin::Origin;
use std::alloc::{AllocError, Global};
use trace_format::Name;

/// Where names come from; what was never given has no place or an empty one.
#[derive(Drop)]
pub struct Origins {
    alloc: Global,
    pub rows: Vec<Vec<Option<Origin>>>,
}

// There are rows up to this one.
fn add_rows(
    alloc: Global,
    rows: &mut Vec<Vec<Option<Origin>>>,
    row: usize,
) -> Result<(), AllocError>
    ensures there { OnOk result (row < length rows.new.items) }
    ensures same { (r n : ℕ) → cell rows.new.items r n ≡ cell rows.old.items r n }
{
    'rows: while rows.len() <= row {
        rows.push(Vec::new(alloc))?;
    }
    Ok(())
}

// A row has places up to this one.
fn lengthen(cells: &mut Vec<Option<Origin>>, at: usize) -> Result<(), AllocError>
    requires { at < 2 ^ 63 }
    ensures there { OnOk result (at < length cells.new.items) }
    ensures same { (n : ℕ) → cell_in cells.new.items n ≡ cell_in cells.old.items n }
{
    if cells.len() <= at {
        cells.resize(at + 1, None)?;
    }
    Ok(())
}

// An origin is put into a place of a row.
fn put_in(cells: &mut Vec<Option<Origin>>, at: usize, origin: Origin) -> Result<(), AllocError>
    requires { at < 2 ^ 63 }
    ensures ok { OnOk result ((n : ℕ) → cell_in cells.new.items n ≡ (if at == n then Some origin else cell_in cells.old.items n)) }
{
    lengthen(cells, at)?;
    cells[at] = Some(origin);
    Ok(())
}

// Puts an origin into a place, in memory up to the place.
fn put_value(
    alloc: Global,
    rows: &mut Vec<Vec<Option<Origin>>>,
    row: usize,
    at: usize,
    origin: Origin,
) -> Result<(), AllocError>
    requires { at < 2 ^ 63 }
    ensures { OnOk result ((r n : ℕ) → cell rows.new.items r n ≡ (if row == r && at == n then Some origin else cell rows.old.items r n)) }
{
    add_rows(alloc, rows, row)?;
    put_in(&mut rows[row], at, origin)?;
    Ok(())
}

// What is kept in a place of a row, if anything.
fn value_at(rows: &[Vec<Option<Origin>>], row: usize, at: usize) -> Option<Origin>
    ensures { result ≡ cell rows.now row at }
{
    match rows.get(row) {
        None => None,
        Some(cells) => match cells.get(at) {
            None => None,
            Some(origin) => *origin,
        },
    }
}

impl Origins {
    /// No names yet.
    pub fn new(alloc: Global) -> Origins
        ensures { result.rows.items ≡ [] }
    {
        Origins {
            alloc,
            rows: Vec::new(alloc),
        }
    }

    fn origin(&self, name: Name) -> Option<Origin>
        ensures { result ≡ origin_in self.now.rows.items name }
    {
        value_at(&self.rows, name.thread as usize, name.number as usize)
    }

    /// The written device of a name.
    pub fn device(&self, name: Name) -> Option<Name>
        ensures { result ≡ device_in self.now.rows.items name }
    {
        self.origin(name)?.device
    }

    /// The thread of the stream in which a name was given.
    pub fn stream(&self, name: Name) -> Option<u32>
        ensures { result ≡ stream_in self.now.rows.items name }
    {
        self.origin(name)?.stream
    }

    // A name has its origin.
    fn put(&mut self, name: Name, origin: Origin) -> Result<(), AllocError>
        ensures { OnOk result ((n : Name) → origin_in self.new.rows.items n ≡ (if same_name name n then Some origin else origin_in self.old.rows.items n)) }
    {
        put_value(
            self.alloc,
            &mut self.rows,
            name.thread as usize,
            name.number as usize,
            origin,
        )?;
        Ok(())
    }

    /// The results of a call come from these: a device is its own, and anything else is its owner's.
    pub fn put_results(
        &mut self,
        results: &[Name],
        is_device: bool,
        owner: Option<Name>,
        stream: Option<u32>,
    ) -> Result<(), AllocError>
        ensures { OnOk result (PutResults self.old.rows.items self.new.rows.items results.now (origin_of is_device owner stream)) }
    {
        for name in results {
            let device = if is_device { Some(*name) } else { owner };
            self.put(*name, Origin { device, stream })?;
        }
        Ok(())
    }
}
