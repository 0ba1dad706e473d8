// Values by row and place, in plain vectors: a look-up is two reads. Places where nothing was put hold the value of an empty one.
ghost use Rattle.std.specs.Prelude.{◌≡◌, ◌&&◌, ◌==◌, ◌<◌, ◌+◌, ◌^◌, ℕ, IfOk, IsOk, OnOk, OnErr, if◌then◌else◌, length, map, max, true};
ghost use Rattle.session_tables.specs.Dense.{cell, cell_in, has_cell};

use std::alloc::{AllocError, Global};

/// The value in a place.
pub fn value_at<V: Copy>(rows: &[Vec<V>], row: usize, at: usize, empty: V) -> V
    ensures { result ≡ cell empty rows.now row at }
{
    match rows.get(row) {
        None => empty,
        Some(cells) => match cells.get(at) {
            None => empty,
            Some(value) => *value,
        },
    }
}

/// Whether there is such a place.
pub fn has_place<V: Copy>(rows: &[Vec<V>], row: usize, at: usize) -> bool
    ensures { result ≡ has_cell rows.now row at }
{
    match rows.get(row) {
        None => false,
        Some(cells) => at < cells.len(),
    }
}

/// Rows of their own with the same values.
pub fn copy_rows<V: Copy + Drop>(alloc: Global, rows: &[Vec<V>]) -> Result<Vec<Vec<V>>, AllocError>
    ensures { IfOk result (λ copies. map (λ r. r.items) copies.items ≡ map (λ r. r.items) rows.now) }
{
    let mut copies = Vec::new(alloc);
    for row in rows {
        copies.push(Vec::from_slice(alloc, row)?)?;
    }
    Ok(copies)
}

// There are rows up to this one.
fn add_rows<V: Copy + Drop>(
    alloc: Global,
    rows: &mut Vec<Vec<V>>,
    row: usize,
) -> Result<(), AllocError>
    ensures there { OnOk result (row < length rows.new.items) }
    ensures same { (empty : V) (r n : ℕ) → cell empty rows.new.items r n ≡ cell empty rows.old.items r n }
{
    'rows: while rows.len() <= row {
        rows.push(Vec::new(alloc))?;
    }
    Ok(())
}

// A row has places up to this one.
fn lengthen<V: Copy + Drop>(cells: &mut Vec<V>, at: usize, empty: V) -> Result<(), AllocError>
    requires { at < 2 ^ 63 }
    ensures long { OnOk result (length cells.new.items ≡ max (length cells.old.items) (at + 1)) }
    ensures same { (n : ℕ) → cell_in empty cells.new.items n ≡ cell_in empty cells.old.items n }
    ensures err { OnErr result (cells.new.items ≡ cells.old.items) }
    ensures succeeds { at < length cells.old.items → IsOk result }
{
    if cells.len() <= at {
        cells.resize(at + 1, empty)?;
    }
    Ok(())
}

/// Puts a value into a place of a row, which is made as long: in no memory where the place is there.
pub fn put_in<V: Copy + Drop>(
    cells: &mut Vec<V>,
    at: usize,
    value: V,
    empty: V,
) -> Result<(), AllocError>
    requires { at < 2 ^ 63 }
    ensures ok { OnOk result ((n : ℕ) → cell_in empty cells.new.items n ≡ (if at == n then value else cell_in empty cells.old.items n)) }
    ensures long { OnOk result (length cells.new.items ≡ max (length cells.old.items) (at + 1)) }
    ensures err { OnErr result (cells.new.items ≡ cells.old.items) }
    ensures succeeds { at < length cells.old.items → IsOk result }
{
    lengthen(cells, at, empty)?;
    cells[at] = value;
    Ok(())
}

/// Puts a value into a place, in memory up to the place: in none where the place is there.
pub fn put_value<V: Copy + Drop>(
    alloc: Global,
    rows: &mut Vec<Vec<V>>,
    row: usize,
    at: usize,
    value: V,
    empty: V,
) -> Result<(), AllocError>
    requires { at < 2 ^ 63 }
    ensures ok { OnOk result ((r n : ℕ) → cell empty rows.new.items r n ≡ (if row == r && at == n then value else cell empty rows.old.items r n)) }
    ensures err { OnErr result ((r n : ℕ) → cell empty rows.new.items r n ≡ cell empty rows.old.items r n) }
    ensures succeeds { has_cell rows.old.items row at ≡ true → IsOk result }
{
    if has_place(rows, row, at) {
        overwrite(rows, row, at, value);
        return Ok(());
    }
    add_rows(alloc, rows, row)?;
    put_in(&mut rows[row], at, value, empty)?;
    Ok(())
}

fn overwrite_in<V: Copy + Drop>(cells: &mut Vec<V>, at: usize, value: V)
    requires { at < length cells.old.items }
    ensures { (empty : V) (n : ℕ) → cell_in empty cells.new.items n ≡ (if at == n then value else cell_in empty cells.old.items n) }
{
    cells[at] = value;
}

// A value is put in the place of another one.
fn overwrite<V: Copy + Drop>(rows: &mut Vec<Vec<V>>, row: usize, at: usize, value: V)
    requires { has_cell rows.old.items row at ≡ true }
    ensures { (empty : V) (r n : ℕ) → cell empty rows.new.items r n ≡ (if row == r && at == n then value else cell empty rows.old.items r n) }
{
    if row < rows.len() {
        overwrite_in(&mut rows[row], at, value);
    }
}
