//! What is kept of the names of a file, by thread and number: a look-up is two reads.
ghost use Rattle.std.specs.Prelude.{◌≡◌, ◌&&◌, ◌==◌, ◌<◌, ◌^◌, ℕ, [], OnOk, if◌then◌else◌, length};
ghost use Rattle.trace_format.specs.declared.event.Name.{Name};
ghost use Rattle.trace_format.specs.Accepting.{same_name};
ghost use Rattle.stream_plans.specs.Tables.{cell, cell_in, value_in};

use std::alloc::{AllocError, Global};
use trace_format::Name;

/// Values of names; what has none has no place or an empty one.
#[derive(Drop)]
pub struct NameTable<V: Copy + Drop> {
    alloc: Global,
    pub rows: Vec<Vec<Option<V>>>,
}

// There are rows up to this one.
fn add_rows<V: Copy + Drop>(
    alloc: Global,
    rows: &mut Vec<Vec<Option<V>>>,
    row: usize,
) -> Result<(), AllocError>
    ensures there { OnOk result (row < length rows.new.items) }
    ensures same { (r n : ℕ) → cell rows.new.items r n ≡ cell rows.old.items r n }
{
    'rows: while rows.len() <= row {
        rows.push(Vec::new(alloc))?;
    }
    Ok(())
}

// A row has places up to this one.
fn lengthen<V: Copy + Drop>(cells: &mut Vec<Option<V>>, at: usize) -> Result<(), AllocError>
    requires { at < 2 ^ 63 }
    ensures there { OnOk result (at < length cells.new.items) }
    ensures same { (n : ℕ) → cell_in cells.new.items n ≡ cell_in cells.old.items n }
{
    if cells.len() <= at {
        cells.resize(at + 1, None)?;
    }
    Ok(())
}

// A value is put into a place of a row.
fn put_in<V: Copy + Drop>(
    cells: &mut Vec<Option<V>>,
    at: usize,
    value: Option<V>,
) -> Result<(), AllocError>
    requires { at < 2 ^ 63 }
    ensures ok { OnOk result ((n : ℕ) → cell_in cells.new.items n ≡ (if at == n then value else cell_in cells.old.items n)) }
{
    lengthen(cells, at)?;
    cells[at] = value;
    Ok(())
}

// Puts a value into a place, in memory up to the place.
fn put_value<V: Copy + Drop>(
    alloc: Global,
    rows: &mut Vec<Vec<Option<V>>>,
    row: usize,
    at: usize,
    value: Option<V>,
) -> Result<(), AllocError>
    requires { at < 2 ^ 63 }
    ensures { OnOk result ((r n : ℕ) → cell rows.new.items r n ≡ (if row == r && at == n then value else cell rows.old.items r n)) }
{
    add_rows(alloc, rows, row)?;
    put_in(&mut rows[row], at, value)?;
    Ok(())
}

// What is kept in a place of a row, if anything.
fn value_at<V: Copy + Drop>(rows: &[Vec<Option<V>>], row: usize, at: usize) -> Option<V>
    ensures { result ≡ cell rows.now row at }
{
    match rows.get(row) {
        None => None,
        Some(cells) => match cells.get(at) {
            None => None,
            Some(value) => *value,
        },
    }
}

impl<V: Copy + Drop> NameTable<V> {
    /// No names yet.
    pub fn new(alloc: Global) -> NameTable<V>
        ensures { result.rows.items ≡ [] }
    {
        NameTable {
            alloc,
            rows: Vec::new(alloc),
        }
    }

    /// The value of a name.
    pub fn value(&self, name: Name) -> Option<V>
        ensures { result ≡ value_in self.now.rows.items name }
    {
        value_at(&self.rows, name.thread as usize, name.number as usize)
    }

    /// A name has this value, or none.
    pub fn put(&mut self, name: Name, value: Option<V>) -> Result<(), AllocError>
        ensures { OnOk result ((n : Name) → value_in self.new.rows.items n ≡ (if same_name name n then value else value_in self.old.rows.items n)) }
    {
        put_value(
            self.alloc,
            &mut self.rows,
            name.thread as usize,
            name.number as usize,
            value,
        )?;
        Ok(())
    }
}
