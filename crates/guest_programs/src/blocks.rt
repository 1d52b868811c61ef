//! Programs, with an index of their blocks by address.
ghost use Rattle.std.specs.Prelude.{◌≡◌, ℕ, IfOk, map};
ghost use Rattle.std.specs.BTreeMap.{get};
ghost use Rattle.std.specs.Ordering.{nat_cmp};
ghost use Rattle.guest_script.specs.Grammar.{guest};
ghost use Rattle.guest_programs.specs.Blocks.{block_at, ops_at, ops_found};

use board_core::Op;
use guest_script::Block;
use std::alloc::{AllocError, Global};
use std::collections::BTreeMap;

/// A program: what the guests and the clock of a board do.
#[derive(Drop)]
pub struct Program<'a> {
    /// The guests' blocks, each with the address of its entry.
    pub blocks: &'a [Block],
    /// The clock's ticks, in their order.
    pub ticks: &'a [u64],
    /// The index of the first block of each address.
    first: BTreeMap<u64, usize>,
    ghost indexed: { (addr : ℕ)
        → ops_found (map guest blocks.now) (get nat_cmp first addr) ≡ block_at (map guest blocks.now) addr },
}

impl<'a> Program<'a> {
    /// The operations of the block at an address; empty if there is no such block. If two blocks have the address, the
    /// first counts. It takes logarithmic time in the number of blocks, and allocates nothing.
    pub fn block_at(&self, addr: u64) -> &'a [Op]
        ensures { result.now ≡ block_at (map guest self.now.blocks.now) addr }
    {
        match self.first.get(&addr) {
            Some(block) => self.ops_in(*block),
            None => &[],
        }
    }

    /// The index of the first block at an address, if there is one and it has operations.
    pub(crate) fn first_at(&self, addr: u64) -> Option<usize>
        ensures { ops_found (map guest self.now.blocks.now) result ≡ block_at (map guest self.now.blocks.now) addr }
    {
        let block = *self.first.get(&addr)?;
        if self.ops_in(block).is_empty() {
            return None;
        }
        Some(block)
    }

    /// The operations of the block of this index; empty if there is none.
    pub(crate) fn ops_in(&self, block: usize) -> &'a [Op]
        ensures { result.now ≡ ops_at (map guest self.now.blocks.now) block }
    {
        match self.blocks.get(block) {
            Some(block) => &block.ops,
            None => &[],
        }
    }
}

/// The index of the first block of each address.
fn first_blocks(alloc: Global, blocks: &[Block]) -> Result<BTreeMap<u64, usize>, AllocError>
    ensures { IfOk result (λ first. (addr : ℕ)
        → ops_found (map guest blocks.now) (get nat_cmp first addr) ≡ block_at (map guest blocks.now) addr) }
{
    let mut first = BTreeMap::new(alloc);
    for i in (0..blocks.len()).rev() {
        first.insert(blocks[i].addr, i)?;
    }
    Ok(first)
}

/// A program of these blocks and ticks.
///
/// # Errors
///
/// Out of memory.
pub(crate) fn indexed<'a>(
    alloc: Global,
    blocks: &'a [Block],
    ticks: &'a [u64],
) -> Result<Program<'a>, AllocError>
    ensures blocks { IfOk result (λ program. program.blocks.now ≡ blocks.now) }
    ensures ticks { IfOk result (λ program. program.ticks.now ≡ ticks.now) }
{
    let first = first_blocks(alloc, blocks)?;
    Ok(Program {
        blocks,
        ticks,
        first,
    })
}
