//! Accesses by TLB entries, as fence calls can miss them.
ghost use Rattle.std.specs.Prelude.{◌≡◌, ◌<◌, ◌↔◌, true};
ghost use Rattle.board_laws.specs.Fresh.{is_of_page, is_of_space};
ghost use Rattle.access_marks.specs.Inside.Missing.{IsOther, is_of_use};

use crate::taking::is_entry;
use any_tlb::agrees;
use board_core::{Board, Entry, Kind};
use sv39::{PAGE_BYTES, Satp, walk};
use tlb_model::{Fence, Range};
use tlb_watch::HartAddress;

/// An access by a TLB entry: where, of which kind, the entry, and the hart's satp.
#[derive(Clone, Copy)]
pub(crate) struct EntryUse {
    pub(crate) at: HartAddress,
    pub(crate) kind: Kind,
    pub(crate) entry: Entry,
    pub(crate) satp: Satp,
}

impl EntryUse {
    /// Whether this is the other access.
    pub(crate) fn is(&self, other: &EntryUse) -> bool
        ensures { result ≡ true → self.now ≡ other.now }
    {
        self.at == other.at
            && self.kind == other.kind
            && is_entry(self.entry, other.entry)
            && self.satp.bits() == other.satp.bits()
    }

    /// Whether the page tables give the access another address or fault than its entry: by the hart's present satp, and by that of
    /// the access.
    pub(crate) fn is_other(&self, board: &Board) -> bool
        requires { self.now.at.hart < board.now.opening.config.harts }
        ensures { (result ≡ true) ↔ IsOther board.now.opening board.now.past self.now }
    {
        let here = board.walk(self.at.hart, self.at.address, self.kind);
        let there = walk(board.view().ram(), self.satp, self.at.address, self.kind);
        let is_same_here = agrees(&self.entry, self.at.address, self.kind, here);
        let is_same_there = agrees(&self.entry, self.at.address, self.kind, there);
        !is_same_here && !is_same_there
    }

    /// Whether a fence is of the address, and of the entry's address space.
    pub(crate) fn is_fenced_by(&self, fence: Fence) -> bool
        ensures { result ≡ is_of_use fence self.now }
    {
        is_of_page(fence.range, self.at.address) && self.is_of_space(fence.asid)
    }

    /// Whether a fence of this address space, or of all (None), is of the entry's.
    fn is_of_space(&self, asid: Option<u16>) -> bool
        ensures { result ≡ is_of_space asid self.now.satp self.now.entry.leaf }
    {
        match asid {
            None => true,
            Some(asid) => !self.entry.leaf().global && self.satp.asid() == u64::from(asid),
        }
    }
}

/// Whether a fence of these addresses, or of all (None), is of the address's page.
fn is_of_page(range: Option<Range>, va: u64) -> bool
    ensures { result ≡ is_of_page range va }
{
    match range {
        None => true,
        Some(range) => range.meets(va / PAGE_BYTES * PAGE_BYTES, PAGE_BYTES),
    }
}
