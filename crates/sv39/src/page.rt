//! Levels of page tables, and leaves of page tables.
ghost use Rattle.std.specs.Prelude.{◌≡◌};
ghost use Rattle.sv39.specs.Leaves.{allows};
ghost use Rattle.sv39.specs.Pages.{below, level_number, part, size};

use crate::cause::Kind;

/// The bytes of a page of the lowest level, and of a page table (Privileged 4.3.1).
pub const PAGE_BYTES: u64 = 4096;

/// The number of entries of a page table; each has 8 bytes (Privileged 4.3.1).
pub const TABLE_ENTRIES: u64 = 512;

/// The level below each level, by its number. (A `match` would be a jump, another one at each level of a walk.)
const BELOW: [Option<Level>; 4] = [
    None,
    Some(Level::Kilo),
    Some(Level::Mega),
    Some(Level::Giga),
];

/// The levels of page tables, named by the pages that their leaves map (Privileged 4.4.1, 4.5.1).
#[derive(Clone, Copy, Debug, PartialEq, Eq)]
pub enum Level {
    /// Level 0: pages of 4 KiB.
    Kilo,
    /// Level 1: megapages, of 2 MiB.
    Mega,
    /// Level 2: gigapages, of 1 GiB.
    Giga,
    /// Level 3: terapages, of 512 GiB.
    Tera,
}

impl Level {
    /// The level's number.
    pub fn number(self) -> u64
        ensures { result ≡ level_number self }
    {
        match self {
            Level::Kilo => 0,
            Level::Mega => 1,
            Level::Giga => 2,
            Level::Tera => 3,
        }
    }

    /// The size of a page of this level, in bytes.
    pub fn size(self) -> u64
        ensures { result ≡ size self }
    {
        match self {
            Level::Kilo => 1 << 12,
            Level::Mega => 1 << 21,
            Level::Giga => 1 << 30,
            Level::Tera => 1 << 39,
        }
    }

    /// The level below, if there is one.
    pub(crate) fn below(self) -> Option<Level>
        ensures { result ≡ below self }
    {
        BELOW[self.number() as usize]
    }

    /// The index of an address's entry in a table of this level: the address's VPN part (Privileged 4.4.1, 4.5.1).
    pub(crate) fn part(self, va: u64) -> u64
        ensures { result ≡ part self va }
    {
        va / self.size() % TABLE_ENTRIES
    }
}

/// A leaf of the page tables: where it maps a page, and what it allows (Privileged 4.3.1, 4.4.1, 4.5.1).
#[derive(Clone, Copy, Debug, PartialEq, Eq)]
pub struct Leaf {
    /// The page's first virtual address.
    pub page: u64,
    /// The physical address of the page's first byte.
    pub pa: u64,
    /// The leaf's level, which gives the page's size.
    pub level: Level,
    /// Whether the mapping is global: G is set in the leaf or in a pointer above it.
    pub global: bool,
    /// R: the page may be read.
    pub r: bool,
    /// W: the page may be written.
    pub w: bool,
    /// X: instructions may be fetched from the page.
    pub x: bool,
    /// D: the page is dirty, which a store and an AMO need.
    pub d: bool,
}

impl Leaf {
    /// Whether the page allows accesses of this kind (Privileged 4.3.2).
    pub fn allows(&self, kind: Kind) -> bool
        ensures { result ≡ allows kind self.now }
    {
        match kind {
            Kind::Fetch => self.x,
            Kind::Load => self.r,
            Kind::Store => self.w && self.d,
            Kind::Amo => self.r && self.w && self.d,
        }
    }
}
