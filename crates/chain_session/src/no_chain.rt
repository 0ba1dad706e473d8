// The rows where there is no chain.
ghost use Rattle.std.specs.Prelude.{◌≡◌, []};

use dispatch_chain::{DispatchTable, Kit, no_rows};
use std::alloc::Global;

/// A table of no parts. Takes no memory.
pub(crate) fn no_parts(alloc: Global, kit: &Kit) -> DispatchTable
    ensures { result.rows ≡ [] }
{
    DispatchTable {
        kit: *kit,
        rows: no_rows(alloc),
    }
}

/// Such a table, in a type of its own: who moves a session needn't know its fields.
#[derive(Drop)]
pub(crate) struct NoChain {
    table: DispatchTable,
    ghost without_parts: { table.rows ≡ [] },
}

impl NoChain {
    pub(crate) fn new(alloc: Global, kit: &Kit) -> NoChain {
        NoChain {
            table: no_parts(alloc, kit),
        }
    }

    pub(crate) fn table(&self) -> &DispatchTable
        ensures { result.now.rows ≡ [] }
    {
        &self.table
    }
}
