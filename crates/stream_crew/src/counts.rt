//! Counts that memory could not hold.
ghost use Rattle.std.specs.Prelude.{◌≡◌, ◌+◌, IfOk};

use command_tables::NoMemory;

/// The sum. One that can't be counted is refused as want of memory.
pub fn plus(one: usize, other: usize) -> Result<usize, NoMemory>
    ensures { IfOk result (λ n. n ≡ one + other) }
{
    one.checked_add(other).ok_or(NoMemory)
}
