// Values by row and place, each with the type of the object that it is filed for. A row is two columns, since one list of both would hold
// padding behind each type.
ghost use Rattle.std.specs.Prelude.{◌≡◌, ◌&&◌, ◌==◌, ◌<◌, ◌^◌, ℕ, None, IfOk, IsOk, OnOk, OnErr, if◌then◌else◌, length, map, nat_lt, true};
ghost use Rattle.session_tables.specs.Dense.{cell_in};
ghost use Rattle.session_tables.specs.FiledRows.{cells_of, filed_cell, has_filed_cell, nothing_filed};

use crate::dense::put_in;
use crate::filed_type::FiledType;
use command_tables::ObjectType;
use std::alloc::{AllocError, Global};

/// A value with the type of the object that it is filed for; with none where nothing is filed.
#[derive(Clone, Copy, Drop)]
pub struct Filed<V> {
    pub ty: Option<ObjectType>,
    pub value: V,
}

/// The places of a row: as many as the shorter column has. One takes 5 bytes for a `u32` and 9 for a `u64`, where one list of both would
/// take 8 and 16.
#[derive(Drop)]
pub struct FiledRow<V> {
    pub types: Vec<FiledType>,
    pub values: Vec<V>,
}

/// What stands where nothing is filed.
pub fn nothing<V>(empty: V) -> Filed<V>
    ensures { result ≡ nothing_filed empty }
{
    Filed {
        ty: None,
        value: empty,
    }
}

fn filed_in<V: Copy>(columns: &FiledRow<V>, at: usize, empty: V) -> Filed<V>
    ensures { result ≡ cell_in (nothing_filed empty) (cells_of columns.now) at }
{
    match columns.types.get(at) {
        None => nothing(empty),
        Some(ty) => match columns.values.get(at) {
            None => nothing(empty),
            Some(value) => Filed {
                ty: ty.get(),
                value: *value,
            },
        },
    }
}

/// What is filed in a place.
pub fn filed_at<V: Copy>(rows: &[FiledRow<V>], row: usize, at: usize, empty: V) -> Filed<V>
    ensures { result ≡ filed_cell empty rows.now row at }
{
    match rows.get(row) {
        None => nothing(empty),
        Some(columns) => filed_in(columns, at, empty),
    }
}

// How many places a row has.
fn places<V>(columns: &FiledRow<V>) -> usize
    ensures { result ≡ length (cells_of columns.now) }
{
    columns.types.len().min(columns.values.len())
}

/// Whether there is such a place.
pub fn has_filed<V>(rows: &[FiledRow<V>], row: usize, at: usize) -> bool
    ensures { result ≡ has_filed_cell rows.now row at }
{
    match rows.get(row) {
        None => false,
        Some(columns) => at < places(columns),
    }
}

fn copy_columns<V: Copy + Drop>(
    alloc: Global,
    columns: &FiledRow<V>,
) -> Result<FiledRow<V>, AllocError>
    ensures { IfOk result (λ copy. cells_of copy ≡ cells_of columns.now) }
{
    Ok(FiledRow {
        types: Vec::from_slice(alloc, &columns.types)?,
        values: Vec::from_slice(alloc, &columns.values)?,
    })
}

/// Rows of their own with the same places.
pub fn copy_filed<V: Copy + Drop>(
    alloc: Global,
    rows: &[FiledRow<V>],
) -> Result<Vec<FiledRow<V>>, AllocError>
    ensures { IfOk result (λ copies. map cells_of copies.items ≡ map cells_of rows.now) }
{
    let mut copies = Vec::new(alloc);
    for row in rows {
        copies.push(copy_columns(alloc, row)?)?;
    }
    Ok(copies)
}

// There are rows up to this one.
fn add_filed_rows<V: Copy + Drop>(
    alloc: Global,
    rows: &mut Vec<FiledRow<V>>,
    row: usize,
) -> Result<(), AllocError>
    ensures there { OnOk result (row < length rows.new.items) }
    ensures same { (empty : V) (r n : ℕ) → filed_cell empty rows.new.items r n ≡ filed_cell empty rows.old.items r n }
{
    'rows: while rows.len() <= row {
        rows.push(FiledRow {
            types: Vec::new(alloc),
            values: Vec::new(alloc),
        })?;
    }
    Ok(())
}

// The columns are as long as the shorter one was: what the other has beyond is from a `put_filed` that found no memory.
fn make_even<V: Copy + Drop>(columns: &mut FiledRow<V>)
    ensures same { cells_of columns.new ≡ cells_of columns.old }
    ensures even { length columns.new.types.items ≡ length columns.new.values.items }
{
    let n = places(columns);
    columns.types.truncate(n);
    columns.values.truncate(n);
}

fn put_in_columns<V: Copy + Drop>(
    columns: &mut FiledRow<V>,
    at: usize,
    filed: Filed<V>,
    empty: V,
) -> Result<(), AllocError>
    requires { at < 2 ^ 63 }
    ensures ok { OnOk result ((n : ℕ) → cell_in (nothing_filed empty) (cells_of columns.new) n ≡ (if at == n then filed else cell_in (nothing_filed empty) (cells_of columns.old) n)) }
    ensures err { OnErr result ((n : ℕ) → cell_in (nothing_filed empty) (cells_of columns.new) n ≡ cell_in (nothing_filed empty) (cells_of columns.old) n) }
{
    make_even(columns);
    put_in(
        &mut columns.types,
        at,
        FiledType::new(filed.ty),
        FiledType::new(None),
    )?;
    put_in(&mut columns.values, at, filed.value, empty)?;
    Ok(())
}

/// Files a value in a place, in memory up to the place: in none where the place is there.
pub fn put_filed<V: Copy + Drop>(
    alloc: Global,
    rows: &mut Vec<FiledRow<V>>,
    row: usize,
    at: usize,
    filed: Filed<V>,
    empty: V,
) -> Result<(), AllocError>
    requires { at < 2 ^ 63 }
    ensures ok { OnOk result ((r n : ℕ) → filed_cell empty rows.new.items r n ≡ (if row == r && at == n then filed else filed_cell empty rows.old.items r n)) }
    ensures err { OnErr result ((r n : ℕ) → filed_cell empty rows.new.items r n ≡ filed_cell empty rows.old.items r n) }
    ensures succeeds { has_filed_cell rows.old.items row at ≡ true → IsOk result }
{
    if has_filed(rows, row, at) {
        overwrite_filed(rows, row, at, filed);
        return Ok(());
    }
    add_filed_rows(alloc, rows, row)?;
    put_in_columns(&mut rows[row], at, filed, empty)?;
    Ok(())
}

fn overwrite_in_columns<V: Copy + Drop>(columns: &mut FiledRow<V>, at: usize, filed: Filed<V>)
    requires { at < length (cells_of columns.old) }
    ensures { (empty : V) (n : ℕ) → cell_in (nothing_filed empty) (cells_of columns.new) n ≡ (if at == n then filed else cell_in (nothing_filed empty) (cells_of columns.old) n) }
{
    columns.types[at] = FiledType::new(filed.ty);
    columns.values[at] = filed.value;
}

/// Files a value in the place of another one.
pub fn overwrite_filed<V: Copy + Drop>(
    rows: &mut Vec<FiledRow<V>>,
    row: usize,
    at: usize,
    filed: Filed<V>,
)
    requires { has_filed_cell rows.old.items row at ≡ true }
    ensures { (empty : V) (r n : ℕ) → filed_cell empty rows.new.items r n ≡ (if row == r && at == n then filed else filed_cell empty rows.old.items r n) }
{
    if row < rows.len() {
        overwrite_in_columns(&mut rows[row], at, filed);
    }
}
