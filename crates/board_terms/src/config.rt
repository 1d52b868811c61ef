//! The numbers that a board opens with, their limits, and why a board can't be made.
ghost use Rattle.std.specs.Prelude.{◌≡◌, ◌≤◌, ◌↔◌, IsTrue};
ghost use Rattle.board_terms.specs.Limits.{IsGood, build_fault_number, has_usual_spaces, is_start_address, spaces_of};

use sv39::{ASID_BITS, PAGE_BYTES, Paging, RAM_START, Spaces};
use thiserror::Error;

/// The numbers that a board opens with. Only `Board::new` checks their limits (profile).
#[derive(Clone, Copy, Debug, PartialEq, Eq)]
pub struct Config {
    /// The number of harts, 1 to 128; their ids are 0 to `harts` - 1.
    pub harts: u64,
    /// The size of RAM in pages of 4,096 bytes from 0x80000000, 1 to 256.
    pub pages: u64,
    /// The limit of the history, in events: 1 to 1,000,000.
    pub limit: u64,
    /// The hart that the firmware starts by itself.
    pub boot_hart: u64,
    /// The physical address at which the boot hart begins: even, and in RAM.
    pub boot_addr: u64,
    /// The value that the boot hart finds in a1.
    pub boot_opaque: u64,
    /// ASIDLEN: the number of ASID bits that are kept, 0 to 16 (Privileged 4.1.11).
    pub asid_len: u64,
    /// The bits of the widest virtual addresses: 39 for Sv39 only, or 48 for Sv48 too (Privileged 4.4, 4.5).
    pub width: u64,
}

/// ASIDLEN if the board line leaves it out: all 16 bits of an ASID are kept.
pub const USUAL_ASID_LEN: u64 = ASID_BITS;

/// The width if the board line leaves it out: Sv39 only.
pub const USUAL_WIDTH: u64 = 39;

/// Why a board can't be made, or a history can't be cut.
#[derive(Clone, Copy, Debug, PartialEq, Eq, Error)]
pub enum BuildFault {
    /// A number is outside the board's limits.
    #[error("bad board")]
    BadConfig,
    /// Out of memory.
    #[error("no memory")]
    NoMemory,
    /// Too many events were accepted since the first opening: places, fill numbers and counts could overflow after a
    /// cut.
    #[error("too many events for a cut")]
    CutFull,
}

impl BuildFault {
    /// The fault's number (profile).
    pub fn number(self) -> u64
        ensures { result ≡ build_fault_number self }
    {
        match self {
            BuildFault::BadConfig => 1,
            BuildFault::NoMemory => 2,
            BuildFault::CutFull => 3,
        }
    }
}

impl Config {
    /// Whether every number is within the limits (profile).
    pub fn is_good(&self) -> bool
        ensures { IsTrue result ↔ IsGood self.now }
    {
        let has_size = (1..=128).contains(&self.harts)
            && (1..=256).contains(&self.pages)
            && (1..=1_000_000).contains(&self.limit);
        let has_spaces = self.asid_len <= ASID_BITS && (self.width == 39 || self.width == 48);
        has_size
            && self.boot_hart < self.harts
            && is_start_address(self.pages, self.boot_addr)
            && has_spaces
    }

    /// The widths of the board's virtual addresses and ASIDs.
    pub fn spaces(&self) -> Spaces
        requires { IsGood self.now }
        ensures spaces { result ≡ spaces_of self.now }
        ensures limit { result.asid_len ≤ ASID_BITS }
    {
        let widest = if self.width == 48 {
            Paging::Sv48
        } else {
            Paging::Sv39
        };
        Spaces {
            asid_len: self.asid_len,
            widest,
        }
    }

    /// Whether ASIDLEN and the width are those of a board line that leaves them out.
    pub fn has_usual_spaces(&self) -> bool
        ensures { result ≡ has_usual_spaces self.now }
    {
        self.asid_len == USUAL_ASID_LEN && self.width == USUAL_WIDTH
    }
}

/// Whether a hart may begin at `address` on a board of so many pages: it is even and in RAM (profile).
pub fn is_start_address(pages: u64, address: u64) -> bool
    requires { pages ≤ 256 }
    ensures { result ≡ is_start_address pages address }
{
    address.is_multiple_of(2) && (RAM_START..RAM_START + PAGE_BYTES * pages).contains(&address)
}
