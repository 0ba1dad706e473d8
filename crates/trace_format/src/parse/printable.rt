//! Whether bytes are printable, sixteen at a time.
ghost use Rattle.std.specs.Prelude.{◌≡◌, ◌≤◌, ◌+◌, length, IsTrue};
ghost use Rattle.std.specs.List.{list_all};
ghost use Rattle.trace_format.specs.Grammar.{is_printable};
ghost use Rattle.trace_format.specs.Between.{PassBetween};

use std::simd::prelude::*;

/// The bytes of a block.
const BLOCK: usize = 16;

/// Whether a block is printable.
#[inline(always)]
fn is_block(line: &[u8], at: usize) -> bool
    requires { at + BLOCK ≤ length line.now }
    ensures { IsTrue result → PassBetween is_printable line.now at (at + BLOCK) }
{
    let v = u8x16::from_slice(&line[at..]);
    (v.simd_lt(u8x16::splat(b' ')) | v.simd_ge(u8x16::splat(0x7f))).to_bitmask() == 0
}

/// Whether all blocks are. The last may overlap the one before.
fn are_blocks(line: &[u8]) -> bool
    requires { BLOCK ≤ length line.now }
    ensures { IsTrue result → PassBetween is_printable line.now 0 (length line.now) }
{
    let mut at = 0;
    while line.len() - at > BLOCK {
        if !is_block(line, at) {
            return false;
        }
        at += BLOCK;
    }
    is_block(line, line.len() - BLOCK)
}

/// The same by one byte at a time.
fn are_bytes(line: &[u8]) -> bool
    ensures { result ≡ list_all is_printable line.now }
{
    line.iter().all(|byte| 0x20 <= *byte && *byte <= 0x7E)
}

/// Whether each byte is a printable one, from 0x20 to 0x7E.
#[tactic(auto, using(crate::proofs::Between::all_between))]
pub fn is_ascii(line: &[u8]) -> bool
    ensures { result ≡ list_all is_printable line.now }
{
    if line.len() >= BLOCK && are_blocks(line) {
        return true;
    }
    are_bytes(line)
}
