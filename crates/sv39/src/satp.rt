//! The satp register.
ghost use Rattle.std.specs.Prelude.{◌≡◌, ◌≤◌, false};
ghost use Rattle.sv39.specs.Satp.{asid_of, is_valid, kept_of, paging_of, root_address, satp_written, translates};

use crate::page::PAGE_BYTES;
use crate::paging::{ASID_BITS, Paging, Spaces};
use std::marker::Model;

/// The number of bits of a PPN, a physical page number. In satp it stands below the ASID (Privileged 4.1.11, 4.3.1).
pub const PPN_BITS: u64 = 44;

/// The lowest bit of satp's MODE (Privileged 4.1.11).
pub const MODE_BIT: u64 = 60;

/// satp: whether addresses are translated, and by which page tables (Privileged 4.1.11).
#[derive(Clone, Copy, Debug, PartialEq, Eq)]
pub struct Satp {
    bits: u64,
}

impl Model for Satp {
    ghost use Rattle.std.specs.Prelude.{ℕ};
    ghost use Rattle.sv39.specs.Satp.{IsSatp};

    ghost Value = { ℕ };

    ghost view = { λ satp. satp.bits };

    ghost invariant = { λ satp. IsSatp satp.bits };

    ghost inverse = { λ bits. record { bits = bits } };
}

impl Satp {
    /// satp is 0: no address is translated.
    pub fn bare() -> Satp
        ensures { result ≡ 0 }
    {
        Satp { bits: 0 }
    }

    /// satp after a write of this value, on a board with these widths. A MODE that the board doesn't implement changes
    /// nothing (Privileged 4.1.11).
    pub fn write(self, value: u64, spaces: Spaces) -> Satp
        requires { spaces.asid_len ≤ ASID_BITS }
        ensures { result ≡ satp_written spaces self value }
    {
        let mode = value >> MODE_BIT;
        match Paging::named(mode) {
            Some(paging) if paging.width() <= spaces.widest.width() => Satp {
                bits: kept(value, spaces),
            },
            None if mode == 0 => Satp::bare(),
            _ => self,
        }
    }

    /// All bits of satp.
    pub fn bits(self) -> u64
        ensures { result ≡ self }
    {
        self.bits
    }

    /// Whether satp's MODE is a paging mode. If it isn't, satp is 0.
    pub fn translates(self) -> bool
        ensures answer { result ≡ translates self }
        ensures bare { result ≡ false → self ≡ 0 }
    {
        Paging::named(self.bits >> MODE_BIT).is_some()
    }

    /// The paging mode, if addresses are translated; otherwise it has no meaning.
    pub fn paging(self) -> Paging
        ensures { result ≡ paging_of self }
    {
        Paging::named(self.bits >> MODE_BIT).unwrap_or(Paging::Sv39)
    }

    /// Whether a virtual address is valid by satp's mode (Privileged 4.4.1, 4.5.1).
    pub fn is_valid(self, va: u64) -> bool
        ensures { result ≡ is_valid self va }
    {
        self.paging().is_valid(va)
    }

    /// ASID: the address space (Privileged 4.1.11).
    pub fn asid(self) -> u64
        ensures { result ≡ asid_of self }
    {
        (self.bits >> PPN_BITS) % (1 << ASID_BITS)
    }

    /// The physical address of the root page table.
    pub(crate) fn root(self) -> u64
        ensures { result ≡ root_address self }
    {
        self.bits % (1 << PPN_BITS) * PAGE_BYTES
    }
}

/// The value that a write keeps: the bits of its ASID above ASIDLEN are cleared (Privileged 4.1.11).
fn kept(value: u64, spaces: Spaces) -> u64
    requires { spaces.asid_len ≤ ASID_BITS }
    ensures { result ≡ kept_of spaces value }
{
    let asid = spaces.cut_asid((value >> PPN_BITS) % (1 << ASID_BITS));
    (value >> MODE_BIT << MODE_BIT) + (asid << PPN_BITS) + value % (1 << PPN_BITS)
}
