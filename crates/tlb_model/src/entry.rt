//! An entry of a TLB.
ghost use Rattle.std.specs.Prelude.{◌≡◌};
ghost use Rattle.sv39.specs.Leaves.{allows};
ghost use Rattle.tlb_model.specs.Entries.{covers_entry, is_in_space, matches, reaches};
ghost use Rattle.tlb_model.specs.Inside.ItemTags.{address_tag, entry_tag, fence_tag, page_tag, range_tag};
ghost use Rattle.tlb_model.specs.Inside.TagLaws.{entry_covered, entry_held};

use crate::cache::Cached;
use crate::fence::{Flush, Range};
use crate::rights::{D, R, W, X, has, is_global, leaf_in, rights_of};
use crate::tag::ANY;
use std::fmt;
use std::marker::Model;
use sv39::{Kind, Leaf, Level};

/// A virtual address in an address space.
#[derive(Clone, Copy, Debug, PartialEq, Eq)]
pub struct Address {
    /// The address.
    pub va: u64,
    /// The address space: satp's ASID.
    pub asid: u16,
}

/// A TLB entry: a leaf of the page tables, and the ASID with which it was found (Privileged 4.2.1).
#[derive(Clone, Copy, PartialEq, Eq)]
pub struct Entry {
    page: u64,
    pa: u64,
    asid: u16,
    level: Level,
    // (whether the page is global, and what it allows: packed, since a look-up copies the entry)
    rights: u8,
}

impl Model for Entry {
    ghost use Rattle.std.specs.Prelude.{◌≡◌};
    ghost use Rattle.tlb_model.specs.Entries.{Entry as Seen};
    ghost use Rattle.tlb_model.specs.Inside.KeptRights.{leaf_in, rights_of};

    ghost Value = { Seen };

    ghost view = { λ e. record { leaf = leaf_in e.page e.pa e.level e.rights; asid = e.asid } };

    ghost invariant = { λ e. rights_of (leaf_in e.page e.pa e.level e.rights) ≡ e.rights };

    ghost inverse = { λ e. record {
      page = e.leaf.page;
      pa = e.leaf.pa;
      asid = e.asid;
      level = e.leaf.level;
      rights = rights_of e.leaf;
    } };

    ghost inverse_ok = { λ e well i. record {
      page = e.page;
      pa = e.pa;
      asid = e.asid;
      level = e.level;
      rights = well i;
    } };
}

impl fmt::Debug for Entry {
    fn fmt<W: fmt::Write>(&self, f: &mut fmt::Formatter<W>) -> fmt::Result {
        f.debug_struct("Entry")
            .field("leaf", &self.leaf())
            .field("asid", &self.asid)
            .finish()
    }
}

/// The entry in a place that has no fill yet.
impl Default for Entry {
    fn default() -> Entry {
        Entry {
            page: 0,
            pa: 0,
            asid: 0,
            level: Level::Kilo,
            rights: 0,
        }
    }
}

impl Cached for Entry {
    type Key = Address;

    ghost holds = { matches };

    ghost covers = { covers_entry };

    ghost tag = { entry_tag };

    ghost key_tag = { address_tag };

    ghost flush_tag = { fence_tag };

    ghost held = { entry_held };

    ghost covered = { entry_covered };

    fn holds(&self, at: Address) -> bool {
        let is_in_page = self.page <= at.va && at.va - self.page < self.level.size();
        is_in_page && (is_global(self.rights) || self.asid == at.asid)
    }

    fn is_covered_by(&self, flush: Flush) -> bool {
        match flush {
            Flush::Words => false,
            Flush::Entries(fence) => {
                self.is_in_space(fence.asid) && self.is_reached_by(fence.range)
            }
        }
    }

    fn tag(&self) -> u8 {
        match self.level {
            Level::Kilo => {
                if self.page % 4096 == 0 {
                    page_tag(self.page)
                } else {
                    ANY
                }
            }
            Level::Mega | Level::Giga | Level::Tera => ANY,
        }
    }

    fn key_tag(at: Address) -> u8 {
        page_tag(at.va)
    }

    fn flush_tag(flush: Flush) -> Option<u8> {
        match flush {
            Flush::Words => None,
            Flush::Entries(fence) => range_tag(fence.range),
        }
    }
}

/// The low byte of the number of a page of 4 KiB.
fn page_tag(va: u64) -> u8
    ensures { result ≡ page_tag va }
{
    (va / 4096 % 256) as u8
}

/// That of the page of 4 KiB in which the range lies, if it lies in one.
fn range_tag(range: Option<Range>) -> Option<u8>
    ensures { result ≡ range_tag range }
{
    match range {
        Some(range) if range.size <= 4096 - range.start % 4096 => Some(page_tag(range.start)),
        _ => None,
    }
}

impl Entry {
    /// The entry of a leaf that was found with this ASID.
    pub fn new(leaf: Leaf, asid: u16) -> Entry
        ensures { result ≡ record { leaf = leaf; asid = asid } }
    {
        Entry {
            page: leaf.page,
            pa: leaf.pa,
            asid,
            level: leaf.level,
            rights: rights_of(leaf),
        }
    }

    /// The leaf, as the page tables gave it.
    pub fn leaf(&self) -> Leaf
        ensures { result ≡ self.now.leaf }
    {
        leaf_in(self.page, self.pa, self.level, self.rights)
    }

    /// satp's ASID when the leaf was found.
    pub fn asid(&self) -> u16
        ensures { result ≡ self.now.asid }
    {
        self.asid
    }

    /// The first virtual address of the leaf's page.
    pub fn page(&self) -> u64
        ensures { result ≡ self.now.leaf.page }
    {
        self.page
    }

    /// The physical address of the page's first byte.
    pub fn pa(&self) -> u64
        ensures { result ≡ self.now.leaf.pa }
    {
        self.pa
    }

    /// Whether the page allows accesses of this kind (Privileged 4.3.2).
    pub fn allows(&self, kind: Kind) -> bool
        ensures { result ≡ allows kind self.now.leaf }
    {
        match kind {
            Kind::Fetch => has(self.rights, X),
            Kind::Load => has(self.rights, R),
            Kind::Store => has(self.rights, W) && has(self.rights, D),
            Kind::Amo => has(self.rights, R) && has(self.rights, W) && has(self.rights, D),
        }
    }

    /// Whether a fence of this address space, or of all (None), covers the entry's. A fence of one address space spares
    /// global entries (Privileged 4.2.1).
    fn is_in_space(&self, asid: Option<u16>) -> bool
        ensures { result ≡ is_in_space asid self.now }
    {
        match asid {
            None => true,
            Some(asid) => !is_global(self.rights) && self.asid == asid,
        }
    }

    /// Whether a fence of these addresses, or of all (None), reaches the entry's page.
    fn is_reached_by(&self, range: Option<Range>) -> bool
        ensures { result ≡ reaches range self.now.leaf }
    {
        match range {
            None => true,
            Some(range) => range.meets(self.page, self.level.size()),
        }
    }
}
