//! How an access gets its physical address, or why it fails.
ghost use Rattle.std.specs.Prelude.{◌≡◌, Ok};
ghost use Rattle.sv39.specs.Memory.{word_in};
ghost use Rattle.tlb_model.specs.Contents.{hit};
ghost use Rattle.tlb_model.specs.Entries.{matches};
ghost use Rattle.hart_access.specs.Ways.{in_memory, place_by, translated, used_by, way};

use sv39::{Cause, Kind, Ram, Satp, walk};
use tlb_model::{Address, Entry, Tlb};

/// How an access gets from its virtual address to the physical one.
#[derive(Clone, Copy, Debug, PartialEq, Eq)]
pub enum Way {
    /// The addresses are the same: satp's MODE is Bare.
    Plain,
    /// This TLB entry translates it.
    Hit(Entry),
    /// The page tables translate it; their leaf is filled as this entry.
    Fill(Entry),
    /// The access fails before it has a translation.
    Fault(Cause),
}

impl Way {
    /// The way of an access of this kind. A TLB entry that matches decides, even if it doesn't allow the access. The
    /// page tables are read only if no entry matches (profile).
    pub fn of(ram: &Ram, satp: Satp, tlb: &Tlb, va: u64, kind: Kind) -> Way
        ensures { result ≡ way (word_in ram.now) satp (λ at. hit matches at tlb.now) va kind }
    {
        if va % 8 != 0 {
            return Way::Fault(kind.misaligned());
        }
        if !satp.translates() {
            return Way::Plain;
        }
        if !satp.is_valid(va) {
            return Way::Fault(kind.page_fault());
        }
        let asid = satp.asid() as u16;
        if let Some(entry) = tlb.lookup(Address { va, asid }) {
            return Way::Hit(entry);
        }
        match walk(ram, satp, va, kind) {
            Ok(leaf) => Way::Fill(Entry::new(leaf, asid)),
            Err(cause) => Way::Fault(cause),
        }
    }

    /// The entry that translates the address, if one does.
    pub fn used(self) -> Option<Entry>
        ensures { result ≡ used_by self }
    {
        match self {
            Way::Hit(entry) | Way::Fill(entry) => Some(entry),
            Way::Plain | Way::Fault(_) => None,
        }
    }

    /// The physical address of a word of the RAM, or why the access fails.
    pub fn place(self, ram: &Ram, va: u64, kind: Kind) -> Result<u64, Cause>
        ensures { result ≡ place_by (word_in ram.now) self va kind }
    {
        match self {
            Way::Plain => in_memory(ram, va, kind),
            Way::Hit(entry) | Way::Fill(entry) => translate(entry, ram, va, kind),
            Way::Fault(cause) => Err(cause),
        }
    }
}

/// The physical address of a virtual address in the entry's page, or why the access fails.
#[tactic(auto, using(crate::proofs::Past::no_word_past))]
fn translate(entry: Entry, ram: &Ram, va: u64, kind: Kind) -> Result<u64, Cause>
    ensures { result ≡ in_memory (word_in ram.now) kind (translated entry.leaf va kind) }
{
    if !entry.allows(kind) {
        return Err(kind.page_fault());
    }
    match entry.pa().checked_add(va.saturating_sub(entry.page())) {
        Some(pa) => in_memory(ram, pa, kind),
        None => Err(kind.access_fault()),
    }
}

/// The physical address if the RAM has a word there, or why the access fails.
fn in_memory(ram: &Ram, pa: u64, kind: Kind) -> Result<u64, Cause>
    ensures { result ≡ in_memory (word_in ram.now) kind (Ok pa) }
{
    if ram.holds(pa) {
        Ok(pa)
    } else {
        Err(kind.access_fault())
    }
}
