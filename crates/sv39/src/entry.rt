//! An entry of a page table.
ghost use Rattle.std.specs.Prelude.{◌≡◌, ◌*◌, ◌<◌, Some, None, if◌then◌else◌};
ghost use Rattle.sv39.specs.Entries.{has_bit, has_g, is_aligned, is_leaf, is_pointer, is_present, leaf_of, page_number};
ghost use Rattle.sv39.specs.Maps.{outcome};
ghost use Rattle.sv39.specs.Pages.{below};

use crate::cause::{Cause, Kind};
use crate::page::{Leaf, Level, PAGE_BYTES};
use crate::satp::PPN_BITS;

// The bits of an entry (Privileged 4.3.1).

const V: u64 = 0;

const R: u64 = 1;

const W: u64 = 2;

const X: u64 = 3;

const U: u64 = 4;

const G: u64 = 5;

const A: u64 = 6;

const D: u64 = 7;

/// An entry of a page table (Privileged 4.3.1, 4.4.1, 4.5.1).
#[derive(Clone, Copy)]
pub struct TableEntry {
    pub bits: u64,
}

impl TableEntry {
    /// Whether the bit is 1.
    fn has(self, bit: u64) -> bool
        requires { bit < 64 }
        ensures { result ≡ has_bit bit self.bits }
    {
        self.bits >> bit & 1 == 1
    }

    /// G: the mapping is in all address spaces.
    pub fn is_global(self) -> bool
        ensures { result ≡ has_g self.bits }
    {
        self.has(G)
    }

    /// The physical address of the page that the entry's PPN names.
    pub fn address(self) -> u64
        ensures { result ≡ PAGE_BYTES * page_number self.bits }
    {
        (self.bits >> 10) % (1 << PPN_BITS) * PAGE_BYTES
    }

    /// The level of the table that the entry points to. None: it isn't a valid pointer.
    pub fn pointed(self, level: Level) -> Option<Level>
        ensures { result ≡ (if is_pointer level self.bits then below level else None) }
    {
        if self.is_branch() {
            level.below()
        } else {
            None
        }
    }

    /// V is 1, and bits 63 to 54 are 0.
    fn is_present(self) -> bool
        ensures { result ≡ is_present self.bits }
    {
        self.has(V) && self.bits >> 54 == 0
    }

    /// Whether the entry is a valid pointer, at a level that isn't the lowest.
    fn is_branch(self) -> bool
        ensures { result ≡ is_pointer Level.Mega self.bits }
    {
        self.is_present()
            && !(self.has(R) || self.has(W) || self.has(X))
            && !(self.has(A) || self.has(D) || self.has(U))
    }

    /// Whether the entry is a valid leaf at the level.
    fn is_leaf(self, level: Level) -> bool
        ensures { result ≡ is_leaf level self.bits }
    {
        self.is_present()
            && (self.has(R) || self.has(X))
            && (self.has(R) || !self.has(W))
            && !self.has(U)
            && self.has(A)
            && self.is_aligned(level)
    }

    /// Whether the entry's physical page is aligned to the size of the level's pages.
    fn is_aligned(self, level: Level) -> bool
        ensures { result ≡ is_aligned level self.bits }
    {
        self.address() % level.size() == 0
    }

    /// The result of a walk that ends at this entry (Privileged 4.3.2).
    pub fn outcome(self, va: u64, kind: Kind, level: Level, global: bool) -> Result<Leaf, Cause>
        ensures { result ≡ outcome (Some self.bits) va kind level global }
    {
        if !self.is_leaf(level) {
            return Err(kind.page_fault());
        }
        let leaf = self.leaf(va, level, global);
        if leaf.allows(kind) {
            Ok(leaf)
        } else {
            Err(kind.page_fault())
        }
    }

    /// This entry as the leaf, at its level, of the page with the address.
    fn leaf(self, va: u64, level: Level, global: bool) -> Leaf
        ensures { result ≡ leaf_of self.bits va level global }
    {
        Leaf {
            page: va - va % level.size(),
            pa: self.address(),
            level,
            global: self.is_global() || global,
            r: self.has(R),
            w: self.has(W),
            x: self.has(X),
            d: self.has(D),
        }
    }
}
