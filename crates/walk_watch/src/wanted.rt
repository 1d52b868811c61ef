//! What an access must be given.
ghost use Rattle.std.specs.Prelude.{◌≡◌};
ghost use Rattle.any_tlb.specs.Steady.{phys_of};
ghost use Rattle.tlb_watch.specs.Deciding.{is_same_result};
ghost use Rattle.walk_watch.specs.Inside.Fits.{is_mapped, result_fits, wanted_by};

use sv39::{Cause, Kind, Leaf};

/// What walks must give an access of a hart to an address.
#[derive(Clone, Copy)]
pub(crate) struct Wanted {
    pub(crate) hart: u64,
    pub(crate) va: u64,
    pub(crate) kind: Kind,
    /// This physical address, or this fault.
    pub(crate) phys: Result<u128, Cause>,
    /// Or a page fault.
    pub(crate) may_fault: bool,
}

impl Wanted {
    /// What the page tables give now, as a walk found it. With `may_fault` a page fault fits, too, where they give a leaf.
    pub(crate) fn by(
        hart: u64,
        va: u64,
        kind: Kind,
        may_fault: bool,
        walked: Result<Leaf, Cause>,
    ) -> Wanted
        ensures { result ≡ wanted_by hart va kind may_fault walked }
    {
        Wanted {
            hart,
            va,
            kind,
            phys: phys(walked, va),
            may_fault: may_fault && is_mapped(walked),
        }
    }

    /// Whether a result is what the access must be given.
    pub(crate) fn fits(self, found: Result<Leaf, Cause>) -> bool
        ensures { result ≡ result_fits self found }
    {
        let given = phys(found, self.va);
        is_same(given, self.phys) || (self.may_fault && is_same(given, Err(self.kind.page_fault())))
    }
}

/// Whether page tables give a leaf.
fn is_mapped(walked: Result<Leaf, Cause>) -> bool
    ensures { result ≡ is_mapped walked }
{
    match walked {
        Ok(_) => true,
        Err(_) => false,
    }
}

/// The physical address of an address by a walk's result, or the fault.
fn phys(walked: Result<Leaf, Cause>, va: u64) -> Result<u128, Cause>
    ensures { result ≡ phys_of walked va }
{
    match walked {
        Ok(leaf) => Ok(leaf.pa as u128 + va.saturating_sub(leaf.page) as u128),
        Err(cause) => Err(cause),
    }
}

/// Whether two accesses come to the same physical address, or the same fault.
fn is_same(a: Result<u128, Cause>, b: Result<u128, Cause>) -> bool
    ensures { result ≡ is_same_result a b }
{
    match (a, b) {
        (Ok(a), Ok(b)) => a == b,
        (Err(a), Err(b)) => a == b,
        _ => false,
    }
}
