//! The entries that a hart's TLB may hold for an address, followed through a record: since when the page tables gave each, and up to
//! when (Privileged 4.2.1, 4.3.2).
ghost use Rattle.std.specs.Prelude.{◌<◌};

use crate::cause::{Finding, Held, Origin};
use crate::runs::{Run, is_given, later, runs_after};
use crate::seen::Seen;
use crate::sight::Sight;
use any_tlb::{EntryWatch, Walking, Walks, agrees};
use board_core::{Board, Entry, Flush};
use std::alloc::{AllocError, Global};
use sv39::{Ram, Satp};
use tlb_model::{Address, Cached};
use tlb_watch::CacheEffect;

/// A satp that a hart had since the event in one place, up to the one in another, or to now.
#[derive(Drop)]
struct Had {
    satp: Satp,
    from: usize,
    until: Option<usize>,
}

/// The entries that a hart's TLB may hold for an address.
#[derive(Drop)]
pub(crate) struct PossibleLook {
    /// The satps by which walks may have begun, and the fences that were applied since, each once.
    walks: Walks,
    /// The satps that the hart had since the last reset, oldest first.
    satps: Vec<Had>,
    runs: Vec<Run>,
    /// Whether a page fault may come where the page tables give a leaf.
    may_fault: bool,
}

impl PossibleLook {
    /// Before the first event, when satp translates nothing.
    pub(crate) fn new(alloc: Global, may_fault: bool) -> PossibleLook {
        PossibleLook {
            walks: Walks::new(alloc),
            satps: Vec::new(alloc),
            runs: Vec::new(alloc),
            may_fault,
        }
    }

    /// An event was the board's last. It counts if the memory or the hart's satp changed, or the hart fenced.
    ///
    /// # Errors
    ///
    /// Memory was refused.
    pub(crate) fn happened(
        &mut self,
        alloc: Global,
        sight: &Sight,
        board: &Board,
        seen: &Seen,
    ) -> Result<(), AllocError>
        requires { sight.now.at.hart < board.now.opening.config.harts }
    {
        let satp = board.view().satp_register(sight.at.hart);
        let flush = seen.flush_at(sight.at.hart);
        if seen.effect == CacheEffect::Reset {
            self.clear();
        }
        if !seen.is_write && flush.is_none() && self.is_last(satp) {
            return Ok(());
        }
        self.log(flush, satp)?;
        self.see_satp(satp, seen.place)?;
        let mut given = EntryWatch::new(alloc, sight.at.address);
        given.replay(board.view().ram(), &self.walks)?;
        self.runs = runs_after(alloc, &self.runs, &given.entries, flush, seen.place)?;
        Ok(())
    }

    /// A reset empties the caches.
    fn clear(&mut self) {
        self.walks.clear();
        self.satps.clear();
        self.runs.clear();
    }

    /// Whether this satp is the last that the hart had.
    fn is_last(&self, satp: Satp) -> bool {
        match self.satps.last() {
            Some(last) => last.satp.bits() == satp.bits(),
            None => !satp.translates(),
        }
    }

    /// Logs that the hart applied this fence, if it applied one, and has this satp since. An older note of either says nothing more.
    fn log(&mut self, flush: Option<Flush>, satp: Satp) -> Result<(), AllocError> {
        let bits = satp.bits();
        let walks = &mut self.walks;
        walks.items.retain(|walking| !is_had(walking, bits));
        if let Some(flush) = flush
            && !walks.items.is_empty()
        {
            walks.items.retain(|walking| !is_fence(walking, flush));
            walks.fence(flush)?;
        }
        if satp.translates() {
            walks.has(satp)?;
        }
        Ok(())
    }

    /// The hart has this satp behind this place.
    fn see_satp(&mut self, satp: Satp, place: usize) -> Result<(), AllocError> {
        if self.is_last(satp) {
            return Ok(());
        }
        if let Some(last) = self.satps.last_mut() {
            last.until = Some(place);
        }
        self.satps.push(Had {
            satp,
            from: place,
            until: None,
        })?;
        Ok(())
    }

    /// The entry that gives the access another result than the page tables, if there is one, as its cause: of several the one that
    /// walks gave last.
    ///
    /// # Errors
    ///
    /// Memory was refused.
    pub(crate) fn finding(
        &self,
        alloc: Global,
        sight: &Sight,
        ram: &Ram,
    ) -> Result<Option<Finding>, AllocError> {
        let Some(run) = self.other(sight) else {
            return Ok(None);
        };
        let Some((origin, changed)) = self.origin(alloc, sight, ram, &run)? else {
            return Ok(None);
        };
        let held = Held::Entry(run.entry());
        Ok(Some(Finding {
            held,
            origin,
            changed,
        }))
    }

    /// The run of that entry.
    fn other(&self, sight: &Sight) -> Option<Run> {
        if !is_translated(sight) {
            return None;
        }
        let mut found = None;
        for run in self.runs.iter() {
            let entry = run.entry();
            let may_fault = self.may_fault && sight.only_faults(&entry);
            if gives_other(sight, &entry) && !may_fault {
                found = Some(later(found, *run));
            }
        }
        found
    }

    /// Since when a hart may hold a run's entry, and the place since which the page tables don't give it.
    fn origin(
        &self,
        alloc: Global,
        sight: &Sight,
        ram: &Ram,
        run: &Run,
    ) -> Result<Option<(Origin, usize)>, AllocError> {
        match run.until {
            Some(until) => {
                let from = run.from;
                Ok(Some((Origin::Given { from, until }, until)))
            }
            None => self.former(alloc, sight, ram, run),
        }
    }

    /// The last former satp by which walks give an entry now. If they may give it, no fence since has ended such a walk.
    fn former(
        &self,
        alloc: Global,
        sight: &Sight,
        ram: &Ram,
        run: &Run,
    ) -> Result<Option<(Origin, usize)>, AllocError> {
        let mut found = None;
        for had in self.satps.iter() {
            let mut given = EntryWatch::new(alloc, sight.at.address);
            given.look(ram, had.satp)?;
            if let Some(until) = had.until
                && is_given(run, &given.entries)
            {
                found = Some((by_satp(had, until), until));
            }
        }
        Ok(found)
    }
}

/// A former satp up to a place, as an entry's origin.
fn by_satp(had: &Had, until: usize) -> Origin {
    Origin::BySatp {
        satp: had.satp.bits(),
        from: had.from,
        until,
    }
}

/// Whether the access is translated, if its satp is valid for the address (profile: it is aligned to 8).
fn is_translated(sight: &Sight) -> bool {
    let va = sight.at.address;
    va.is_multiple_of(8) && sight.satp.translates() && sight.satp.is_valid(va)
}

/// Whether an access would use an entry that gives it another result than the page tables.
fn gives_other(sight: &Sight, entry: &Entry) -> bool {
    let key = Address {
        va: sight.at.address,
        asid: sight.satp.asid() as u16,
    };
    entry.holds(key) && !agrees(entry, sight.at.address, sight.kind, sight.walked)
}

/// Whether an item of a log of walks says that the hart had the satp of these bits.
fn is_had(walking: &Walking, bits: u64) -> bool {
    match walking {
        Walking::Had(satp) => satp.bits() == bits,
        Walking::Fenced(_) => false,
    }
}

/// Whether an item of a log of walks says that the hart applied this fence.
fn is_fence(walking: &Walking, flush: Flush) -> bool {
    match walking {
        Walking::Had(_) => false,
        Walking::Fenced(other) => *other == flush,
    }
}
