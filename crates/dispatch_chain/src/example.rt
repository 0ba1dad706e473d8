//! How a kit is made of the layers' own calls.
ghost use Rattle.std.specs.Prelude.{◌≡◌, IfOk, length};
ghost use Rattle.dispatch_chain.specs.Rows.{entries_of, kinds_placed};

use crate::kit::Kit;
use crate::table::DispatchTable;
use chain_build::Chain;
use command_tables::{CommandId, NoMemory};
use lifetime_layer::LifeState;
use std::alloc::Global;
use thread_layer::UseState;
use unique_layer::UniqueState;

/// How many parts of a chain intercept a command, by a table with the layers' own calls. A program makes its kit in the same way.
pub fn count_parts(alloc: Global, chain: &Chain, cmd: CommandId) -> Result<usize, NoMemory>
    ensures { IfOk result (λ n. n ≡ length (entries_of cmd (kinds_placed chain.now.parts.items))) }
{
    let kit = Kit::new(
        UniqueState::enter,
        UniqueState::leave,
        LifeState::enter,
        LifeState::leave,
        UseState::enter,
        UseState::leave,
    );
    let table = DispatchTable::build(alloc, chain, &kit)?;
    Ok(table.at(cmd).len())
}
