//! The stored dispatch tables of a chain.
ghost use Rattle.std.specs.Prelude.{◌≡◌, [], IfOk, false, map, slice_get};
ghost use Rattle.std.specs.List.{list_any};
ghost use Rattle.std.specs.Option.{option_map_or};
ghost use Rattle.command_tables.specs.Effects.{type_made};
ghost use Rattle.command_tables.specs.Table.{row_of, seen_param};
ghost use Rattle.layer_model.specs.Ids as spec;
ghost use Rattle.layer_model.specs.Walks as walk;
ghost use Rattle.object_model.specs.declared.PartKind.TheVariants as part;
ghost use Rattle.dispatch_chain.specs.Rows.{entries_of, kinds_placed};

use crate::entry::Entry;
use crate::kit::Kit;
use chain_build::Chain;
use command_tables::{
    COMMANDS, CommandId, Effect, NoMemory, ObjectType, Param, facts_of_the_table, row,
};
use object_model::PartKind;
use std::alloc::Global;
use std::marker::Model;

/// For each command the parts of a chain that intercept it; no rows are kept where there are no parts. A contract sees the kinds of the
/// chain's parts.
pub struct Rows {
    kinds: Vec<PartKind>,
    rows: Vec<Vec<Entry>>,
}

impl Drop for Rows {
    fn drop(self) {
        let Rows {
            kinds: _kinds,
            rows: _rows,
        } = self;
    }
}

impl Model for Rows {
    ghost use Rattle.std.specs.Prelude.{List};
    ghost use Rattle.object_model.specs.declared.PartKind.{PartKind};
    ghost use Rattle.dispatch_chain.specs.Rows.{AreRows};

    ghost Value = { List PartKind };

    ghost view = { λ t. t.kinds.items };

    ghost invariant = { λ t. AreRows t.kinds.items t.rows.items };
}

/// The rows of a chain, with the functions that its parts are called by.
pub struct DispatchTable {
    pub kit: Kit,
    pub rows: Rows,
}

impl Drop for DispatchTable {
    fn drop(self) {
        let DispatchTable {
            kit: _kit,
            rows: _rows,
        } = self;
    }
}

// Whether a unique part issues ids for objects of this type: non-dispatchable ones but surfaces.
#[tactic(auto, unfolding(command_tables::specs::Tests::same_type))]
fn is_wrapped(ty: ObjectType) -> bool
    ensures { result ≡ spec.is_wrapped ty }
{
    !matches!(
        ty,
        ObjectType::Instance
            | ObjectType::PhysicalDevice
            | ObjectType::Device
            | ObjectType::Queue
            | ObjectType::CommandBuffer
            | ObjectType::Surface
    )
}

// Whether parameters name an object for which a unique part issues ids.
fn names_wrapped(params: &[Param]) -> bool
    ensures { result ≡ list_any (λ p. spec.is_wrapped p.ty) params.now }
{
    params.iter().any(|param| is_wrapped(param.ty))
}

// Whether an effect makes or gives one.
fn makes_wrapped(effect: Effect) -> bool
    ensures { result ≡ option_map_or spec.is_wrapped (type_made effect) false }
{
    match effect.type_made() {
        None => false,
        Some(ty) => is_wrapped(ty),
    }
}

// Whether a unique part intercepts a command.
#[tactic(auto, using(crate::proofs::Rows::any_of_the_table))]
fn is_unwrapped(cmd: CommandId) -> bool
    ensures { result ≡ walk.intercepts part.Unique cmd }
{
    let row = row(cmd);
    names_wrapped(row.params) || makes_wrapped(row.effect)
}

// Whether a part of a kind intercepts a command.
fn intercepts(kind: PartKind, cmd: CommandId) -> bool
    ensures { result ≡ walk.intercepts kind cmd }
{
    match kind {
        PartKind::Threads | PartKind::Lifetimes => true,
        PartKind::Unique => is_unwrapped(cmd),
    }
}

// The row of a command.
fn row_for(alloc: Global, kinds: &[PartKind], cmd: CommandId) -> Result<Vec<Entry>, NoMemory>
    ensures { IfOk result (λ row. row.items ≡ entries_of cmd kinds.now) }
{
    let mut entries = Vec::new(alloc);
    let mut place = 0u32;
    for kind in kinds {
        place = place.checked_add(1).ok_or(NoMemory)?;
        if intercepts(*kind, cmd) {
            entries.push(Entry { place, kind: *kind })?;
        }
    }
    Ok(entries)
}

// The rows of commands.
fn rows_for(
    alloc: Global,
    kinds: &[PartKind],
    commands: &[CommandId],
) -> Result<Vec<Vec<Entry>>, NoMemory>
    ensures { IfOk result (λ rows. map (λ row. row.items) rows.items ≡ map (λ cmd. entries_of cmd kinds.now) commands.now) }
{
    let mut rows = Vec::new(alloc);
    for cmd in commands {
        rows.push(row_for(alloc, kinds, *cmd)?)?;
    }
    Ok(rows)
}

// The kinds of placed parts.
fn kinds_placed(alloc: Global, parts: &[(PartKind, u32)]) -> Result<Vec<PartKind>, NoMemory>
    ensures { IfOk result (λ kinds. kinds.items ≡ kinds_placed parts.now) }
{
    let mut kinds = Vec::new(alloc);
    for part in parts {
        kinds.push(part.0)?;
    }
    Ok(kinds)
}

// The row at an index; nothing behind the last.
fn row_at(rows: &[Vec<Entry>], index: usize) -> &[Entry]
    ensures { result.now ≡ option_map_or (λ row. row.items) (slice_get rows.now index) [] }
{
    match rows.get(index) {
        None => &[],
        Some(row) => row,
    }
}

/// The rows of a chain without parts. Takes no memory.
#[tactic(auto, using(crate::proofs::Rows::rows_none))]
pub fn no_rows(alloc: Global) -> Rows
    ensures { result ≡ [] }
{
    Rows {
        kinds: Vec::new(alloc),
        rows: Vec::new(alloc),
    }
}

impl Rows {
    #[tactic(auto, using(crate::proofs::Rows::rows_built))]
    fn build(alloc: Global, parts: &[(PartKind, u32)]) -> Result<Rows, NoMemory>
        ensures { IfOk result (λ rows. rows ≡ kinds_placed parts.now) }
    {
        facts_of_the_table();
        let kinds = kinds_placed(alloc, parts)?;
        let rows = rows_for(alloc, &kinds, &COMMANDS)?;
        Ok(Rows { kinds, rows })
    }

    fn at(&self, cmd: CommandId) -> &[Entry]
        ensures { result.now ≡ entries_of cmd self.now }
    {
        row_at(&self.rows, cmd.number() as usize - 1)
    }
}

impl DispatchTable {
    /// The table of a chain, for all commands.
    pub fn build(alloc: Global, chain: &Chain, kit: &Kit) -> Result<DispatchTable, NoMemory>
        ensures { IfOk result (λ table. table.rows ≡ kinds_placed chain.now.parts.items) }
    {
        let rows = Rows::build(alloc, &chain.parts)?;
        Ok(DispatchTable { kit: *kit, rows })
    }

    /// The table of another chain, whose parts are called by the same functions.
    pub fn of_chain(&self, alloc: Global, chain: &Chain) -> Result<DispatchTable, NoMemory>
        ensures { IfOk result (λ table. table.rows ≡ kinds_placed chain.now.parts.items) }
    {
        DispatchTable::build(alloc, chain, &self.kit)
    }

    /// The parts that intercept a command, from the application down. Takes no memory.
    pub fn at(&self, cmd: CommandId) -> &[Entry]
        ensures { result.now ≡ entries_of cmd self.now.rows }
    {
        self.rows.at(cmd)
    }
}
