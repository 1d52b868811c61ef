//! The walk of page tables.
ghost use Rattle.std.specs.Prelude.{◌≡◌, ◌↔◌, ◌≤◌, ◌<◌, ◌+◌, ℕ, Option, Result};
ghost use Rattle.sv39.specs.Leaves.{by_right};
ghost use Rattle.sv39.specs.Maps.{Maps, maps};
ghost use Rattle.sv39.specs.Memory.{word_in};
ghost use Rattle.sv39.specs.Pages.{page_of, size};

use crate::cause::{Cause, Kind};
use crate::entry::TableEntry;
use crate::page::Leaf;
use crate::ram::Ram;
use crate::satp::Satp;

/// Walks the page tables in the RAM for a virtual address. It returns the leaf, if the leaf allows an access of this
/// kind, or why the access fails (Privileged 4.3.2, 4.4.1, 4.5.1). It reads at most four words. With MODE Bare it walks
/// as by Sv39.
pub fn walk(ram: &Ram, satp: Satp, va: u64, kind: Kind) -> Result<Leaf, Cause>
    ensures { result ≡ maps (word_in ram.now) satp va kind }
{
    if !satp.is_valid(va) {
        return Err(kind.page_fault());
    }
    let mut level = satp.paging().root();
    let mut table = satp.root();
    let mut global = false;
    'levels: loop {
        let at = table + 8 * level.part(va);
        if !ram.holds(at) {
            return Err(kind.access_fault());
        }
        let entry = TableEntry { bits: ram.load(at) };
        let Some(below) = entry.pointed(level) else {
            return entry.outcome(va, kind, level, global);
        };
        global |= entry.is_global();
        table = entry.address();
        level = below;
    }
}

/// The result of `walk` is the rule's: at exactly one level there is no valid pointer while all levels above have one,
/// and the entry at that level decides (Privileged 4.3.2, 4.4.1, 4.5.1). A law: there is nothing to run.
pub fn maps_is_the_rule()
    ensures { (memory : ℕ → Option ℕ) (satp va : ℕ) (kind : Kind) (result : Result Leaf Cause)
        → Maps memory satp va kind result ↔ (result ≡ maps memory satp va kind) }
{}

/// The leaf that maps an address maps the page of its level that has the address. It decides each access to that page:
/// an access that it allows gets the leaf, and any other gets a page fault (Privileged 4.3.2). A law: there is nothing
/// to run.
pub fn one_leaf_for_a_page()
    ensures page { (memory : ℕ → Option ℕ) (satp va : ℕ) (kind : Kind) (leaf : Leaf)
        → maps memory satp va kind ≡ Ok leaf
        → leaf.page ≡ page_of leaf.level va }
    ensures decides { (memory : ℕ → Option ℕ) (satp a b : ℕ) (kind other : Kind) (leaf : Leaf)
        → maps memory satp a kind ≡ Ok leaf
        → leaf.page ≤ b
        → b < leaf.page + size leaf.level
        → maps memory satp b other ≡ by_right other leaf }
{}
