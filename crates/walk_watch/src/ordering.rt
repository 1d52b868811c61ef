//! What fences order for walks of page tables.
ghost use Rattle.std.specs.Prelude.{◌≡◌};
ghost use Rattle.rfence.specs.Applied.{Drops};
ghost use Rattle.any_tlb.specs.Mixed.{is_of_walk, orders_ends, orders_pointers, reaches_page};

use sv39::Level;
use tlb_model::{Flush, Range};

/// Walks of a hart for an address that each fence orders alike: those by one ASID that meet no G or, with `met`, those
/// that meet G (Privileged 4.2.1).
#[derive(Clone, Copy)]
pub(crate) struct Walkers {
    pub(crate) hart: u64,
    pub(crate) va: u64,
    pub(crate) met: bool,
    pub(crate) asid: u64,
}

/// Whether a fence orders satp and the pointers that these walks read (Privileged 4.2.1).
pub(crate) fn orders_pointers(met: bool, asid: u64, flush: Flush) -> bool
    ensures { result ≡ orders_pointers met asid (Drops flush) }
{
    match flush {
        Flush::Words => false,
        Flush::Entries(fence) => fence.range.is_none() && is_of_walk(fence.asid, met, asid),
    }
}

/// Whether a fence orders the words of this level at which these walks end (Privileged 4.2.1).
pub(crate) fn orders_ends(walkers: Walkers, level: Level, flush: Flush) -> bool
    ensures { result ≡ orders_ends walkers.va level walkers.met walkers.asid (Drops flush) }
{
    match flush {
        Flush::Words => false,
        Flush::Entries(fence) => {
            reaches_page(fence.range, level, walkers.va)
                && is_of_walk(fence.asid, walkers.met, walkers.asid)
        }
    }
}

/// Whether a fence with this ASID, or without one, is of walks by an ASID that meet no G or, with `met`, of those that
/// meet G.
fn is_of_walk(of: Option<u16>, met: bool, asid: u64) -> bool
    ensures { result ≡ is_of_walk of met asid }
{
    match of {
        None => true,
        Some(of) => !met && asid == u64::from(of),
    }
}

/// Whether a fence of these addresses, or of all (None), reaches the page of this level that has the address.
fn reaches_page(range: Option<Range>, level: Level, va: u64) -> bool
    ensures { result ≡ reaches_page range level va }
{
    match range {
        None => true,
        Some(range) => {
            let size = level.size();
            range.meets(va - va % size, size)
        }
    }
}
