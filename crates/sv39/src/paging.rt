//! Paging modes, and the widths of virtual addresses and ASIDs.
ghost use Rattle.std.specs.Prelude.{◌≡◌, ◌≤◌, ◌<◌, ◌^◌};
ghost use Rattle.sv39.specs.Paging.{cut_asid, is_valid_by, named, scheme};

use crate::page::Level;

/// The number of bits of an ASID. A board may implement fewer (Privileged 4.1.11).
pub const ASID_BITS: u64 = 16;

/// The paging modes (Privileged 4.1.11).
#[derive(Clone, Copy, Debug, PartialEq, Eq)]
pub enum Paging {
    /// Sv39: virtual addresses of 39 bits, and three levels (Privileged 4.4).
    Sv39,
    /// Sv48: virtual addresses of 48 bits, and four levels (Privileged 4.5).
    Sv48,
}

impl Paging {
    /// The mode with this number in satp's MODE, if there is one (Privileged 4.1.11).
    pub(crate) fn named(number: u64) -> Option<Paging>
        ensures { result ≡ named number }
    {
        match number {
            8 => Some(Paging::Sv39),
            9 => Some(Paging::Sv48),
            _ => None,
        }
    }

    /// The number of bits of the mode's virtual addresses.
    pub fn width(self) -> u64
        ensures { result ≡ (scheme self).width }
    {
        match self {
            Paging::Sv39 => 39,
            Paging::Sv48 => 48,
        }
    }

    /// The level of the mode's root page table.
    pub(crate) fn root(self) -> Level
        ensures { result ≡ (scheme self).root }
    {
        match self {
            Paging::Sv39 => Level::Giga,
            Paging::Sv48 => Level::Tera,
        }
    }

    /// Whether a virtual address is valid by the mode: all bits from the mode's width up to bit 63 equal the bit below
    /// them (Privileged 4.4.1, 4.5.1).
    #[tactic(auto, using(crate::proofs::Addresses::is_valid_by_top))]
    pub fn is_valid(self, va: u64) -> bool
        ensures { result ≡ is_valid_by self va }
    {
        let (top, ones) = match self {
            Paging::Sv39 => (va >> 38, (1 << 26) - 1),
            Paging::Sv48 => (va >> 47, (1 << 17) - 1),
        };
        top == 0 || top == ones
    }
}

/// The widths of a board's virtual addresses and ASIDs.
#[derive(Clone, Copy, Debug, PartialEq, Eq)]
pub struct Spaces {
    /// ASIDLEN: the number of ASID bits that are kept, the lowest ones; at most 16 (Privileged 4.1.11).
    pub asid_len: u64,
    /// The widest mode that the board implements. It implements all narrower modes too (Privileged 4.1.11).
    pub widest: Paging,
}

impl Spaces {
    /// The low ASIDLEN bits of an ASID, which are kept (Privileged 4.1.11, 4.2.1).
    pub fn cut_asid(self, asid: u64) -> u64
        requires { self.asid_len ≤ ASID_BITS }
        ensures kept { result ≡ cut_asid self asid }
        ensures small { result < 2 ^ ASID_BITS }
    {
        asid % (1 << self.asid_len)
    }
}
