//! What walks for an access may still see, followed through a record: the words of page tables and the satps that stood before, and the
//! fences since (Privileged 4.2.1, 4.3.2).
ghost use Rattle.std.specs.Prelude.{◌<◌};

use crate::cause::{Fencing, Finding, Former, Held, Origin, Walked};
use crate::fences::{Fenced, Kinds, fencing_by, is_of_kinds, parted};
use crate::seen::{Seen, Stood};
use crate::sight::Sight;
use board_core::{Board, Fence, Flush, Range};
use std::alloc::{AllocError, Global};
use sv39::{PAGE_BYTES, Ram, Satp};
use tlb_watch::CacheEffect;
use walk_watch::{FormerSatp, FormerWord, WalkLog};

/// An event that walks may tell.
#[derive(Clone, Copy)]
enum Change {
    /// This word changed.
    Word(Stood),
    /// The hart's satp changed.
    Satp(FormerSatp),
    /// The hart applied this fence.
    Fence(Flush),
}

/// The same, with its place.
#[derive(Clone, Copy)]
struct Placed {
    place: usize,
    change: Change,
}

/// What walks for an access may still see.
#[derive(Drop)]
pub(crate) struct WalkLook {
    /// The events since the last reset, oldest first.
    changes: Vec<Placed>,
    /// The hart's satp behind the last event.
    satp: Satp,
    /// Whether a page fault may come where the page tables give a leaf.
    may_fault: bool,
}

impl WalkLook {
    /// Before the first event, when satp translates nothing.
    pub(crate) fn new(alloc: Global, may_fault: bool) -> WalkLook {
        WalkLook {
            changes: Vec::new(alloc),
            satp: Satp::bare(),
            may_fault,
        }
    }

    /// An event was the board's last.
    ///
    /// # Errors
    ///
    /// Memory was refused.
    pub(crate) fn happened(
        &mut self,
        sight: &Sight,
        board: &Board,
        seen: &Seen,
    ) -> Result<(), AllocError>
        requires { sight.now.at.hart < board.now.opening.config.harts }
    {
        if seen.effect == CacheEffect::Reset {
            self.changes.clear();
        } else {
            self.see(sight.at.hart, board, seen)?;
        }
        self.satp = board.view().satp_register(sight.at.hart);
        Ok(())
    }

    /// The same of an event that is no reset.
    fn see(&mut self, hart: u64, board: &Board, seen: &Seen) -> Result<(), AllocError>
        requires { hart < board.now.opening.config.harts }
    {
        if let Some(stood) = seen.changed(board) {
            self.note(seen.place, Change::Word(stood))?;
        }
        let satp = self.satp;
        if board.view().satp_register(hart).bits() != satp.bits() {
            self.note(seen.place, Change::Satp(FormerSatp { hart, satp }))?;
        }
        if let Some(flush) = seen.flush_at(hart) {
            self.note(seen.place, Change::Fence(flush))?;
        }
        Ok(())
    }

    /// An event in this place may be told by walks.
    fn note(&mut self, place: usize, change: Change) -> Result<(), AllocError> {
        self.changes.push(Placed { place, change })?;
        Ok(())
    }

    /// What stood before and gives the access another result than the page tables, if something does, as its cause: of several the
    /// one that changed last, with which what changed later suffices. And the fence that would have ended it, by the record's fences
    /// so far, on the board before the access.
    ///
    /// # Errors
    ///
    /// Memory was refused.
    pub(crate) fn found(
        &self,
        alloc: Global,
        sight: &Sight,
        board: &Board,
        fences: &[Fenced],
    ) -> Result<Option<(Finding, Fencing)>, AllocError> {
        let ram = board.view().ram();
        let Some(first) = self.first_needed(alloc, sight, ram)? else {
            return Ok(None);
        };
        let Some(placed) = self.changes.get(first) else {
            return Ok(None);
        };
        let Placed { place, change } = *placed;
        let Some(former) = former_of(change) else {
            return Ok(None);
        };
        let (_, behind) = parted(fences, place);
        let call = self.first_call(alloc, sight, ram, first, behind)?;
        let kinds = match call {
            Some(call) => self.kinds_at(alloc, sight, ram, first, call)?,
            None => self.kinds_behind(alloc, sight, ram, first, place)?,
        };
        let walked = Walked {
            former,
            asid: kinds.asid,
            is_whole: kinds.is_whole,
            is_global: kinds.is_global,
        };
        let finding = Finding {
            held: Held::Walked(walked),
            origin: Origin::Had(place),
            changed: place,
        };
        let fencing = fencing_by(board, sight.at, &finding, call, fences);
        Ok(Some((finding, fencing)))
    }

    /// The first of these fences that a call asked for and that would have ended what stood before this number, had the hart applied it
    /// at once. It hasn't applied it.
    fn first_call<'a>(
        &self,
        alloc: Global,
        sight: &Sight,
        ram: &Ram,
        first: usize,
        fences: &'a [Fenced],
    ) -> Result<Option<&'a Fenced>, AllocError> {
        for fence in fences {
            if fence.is_missing(sight.at)
                && self.fits(alloc, sight, ram, first, Some((fence.place, fence.flush)))?
            {
                return Ok(Some(fence));
            }
        }
        Ok(None)
    }

    /// The kinds of fences that end it in the place of such a call.
    fn kinds_at(
        &self,
        alloc: Global,
        sight: &Sight,
        ram: &Ram,
        first: usize,
        call: &Fenced,
    ) -> Result<Kinds, AllocError> {
        let mut kinds = kinds_of(sight, false, false);
        let Flush::Entries(fence) = call.flush else {
            return Ok(kinds);
        };
        if fence.range.is_none() {
            let of_page = Flush::Entries(Fence {
                asid: fence.asid,
                range: Some(page(sight)),
            });
            kinds.is_whole = !self.fits(alloc, sight, ram, first, Some((call.place, of_page)))?;
        }
        if fence.asid.is_none() {
            let of_space = Flush::Entries(Fence {
                asid: Some(kinds.asid),
                range: fence.range,
            });
            kinds.is_global = !self.fits(alloc, sight, ram, first, Some((call.place, of_space)))?;
        }
        Ok(kinds)
    }

    /// The kinds of fences that end it right behind the change in this place, and of which the hart has applied none since.
    fn kinds_behind(
        &self,
        alloc: Global,
        sight: &Sight,
        ram: &Ram,
        first: usize,
        place: usize,
    ) -> Result<Kinds, AllocError> {
        let some = [
            kinds_of(sight, false, false),
            kinds_of(sight, false, true),
            kinds_of(sight, true, false),
        ];
        for kinds in &some {
            if !self.was_fenced(sight, first, *kinds)
                && self.fits(
                    alloc,
                    sight,
                    ram,
                    first,
                    Some((place, weakest(sight, *kinds))),
                )?
            {
                return Ok(*kinds);
            }
        }
        Ok(kinds_of(sight, true, true))
    }

    /// Whether the hart applied a fence of these kinds behind the change of this number.
    fn was_fenced(&self, sight: &Sight, first: usize, kinds: Kinds) -> bool {
        let Some(left) = self.changes.get(first..) else {
            return false;
        };
        for placed in left {
            if let Change::Fence(Flush::Entries(fence)) = placed.change
                && is_of_kinds(fence, kinds, sight.at.address)
            {
                return true;
            }
        }
        false
    }

    /// The number of the last change from which on those of the record give the access another result, if all do.
    fn first_needed(
        &self,
        alloc: Global,
        sight: &Sight,
        ram: &Ram,
    ) -> Result<Option<usize>, AllocError> {
        if self.fits(alloc, sight, ram, 0, None)? {
            return Ok(None);
        }
        let mut first: usize = 0;
        let mut behind = self.changes.len();
        for _ in 0..64 {
            let middle = first.saturating_add(behind.saturating_sub(first) / 2);
            if middle <= first {
                break;
            }
            if self.fits(alloc, sight, ram, middle, None)? {
                behind = middle;
            } else {
                first = middle;
            }
        }
        Ok(Some(first))
    }

    /// Whether walks give the access what it must be given, if what changed before this number isn't seen, and the hart applied this
    /// fence, too, behind the event in its place.
    fn fits(
        &self,
        alloc: Global,
        sight: &Sight,
        ram: &Ram,
        first: usize,
        fence: Option<(usize, Flush)>,
    ) -> Result<bool, AllocError> {
        let log = self.log(alloc, sight.at.hart, first, fence)?;
        if self.may_fault {
            log.is_lenient(alloc, sight.at, ram, sight.satp, sight.kind)
        } else {
            log.is_firm(alloc, sight.at, ram, sight.satp, sight.kind)
        }
    }

    /// The log of the changes from this number on, and of this fence.
    fn log(
        &self,
        alloc: Global,
        hart: u64,
        first: usize,
        fence: Option<(usize, Flush)>,
    ) -> Result<WalkLog, AllocError> {
        let mut log = WalkLog::new(alloc);
        let mut due = fence;
        if let Some(left) = self.changes.get(first..) {
            for placed in left {
                if let Some((place, flush)) = due
                    && place < placed.place
                {
                    put(&mut log, hart, Change::Fence(flush))?;
                    due = None;
                }
                put(&mut log, hart, placed.change)?;
            }
        }
        if let Some((_, flush)) = due {
            put(&mut log, hart, Change::Fence(flush))?;
        }
        Ok(log)
    }
}

/// Adds a change to a log. A fence is the hart's.
fn put(log: &mut WalkLog, hart: u64, change: Change) -> Result<(), AllocError> {
    match change {
        Change::Word(stood) => {
            let word = FormerWord {
                at: u128::from(stood.pa),
                word: stood.word,
            };
            log.happened(CacheEffect::Nothing, Some(word), None)
        }
        Change::Satp(satp) => log.happened(CacheEffect::Nothing, None, Some(satp)),
        Change::Fence(flush) => log.happened(CacheEffect::Applied(hart, flush), None, None),
    }
}

/// What stood before a change. None: it is a fence.
fn former_of(change: Change) -> Option<Former> {
    match change {
        Change::Word(stood) => Some(Former::Word {
            pa: stood.pa,
            word: stood.word?,
        }),
        Change::Satp(former) => Some(Former::Satp(former.satp.bits())),
        Change::Fence(_) => None,
    }
}

/// The addresses of an access's page.
fn page(sight: &Sight) -> Range {
    Range {
        start: sight.at.address / PAGE_BYTES * PAGE_BYTES,
        size: PAGE_BYTES,
    }
}

/// The kinds of fences of an access's address: only those without an address, or only those without an ASID.
fn kinds_of(sight: &Sight, is_whole: bool, is_global: bool) -> Kinds {
    Kinds {
        asid: sight.satp.asid() as u16,
        is_whole,
        is_global,
    }
}

/// The weakest fence of these kinds.
fn weakest(sight: &Sight, kinds: Kinds) -> Flush {
    Flush::Entries(Fence {
        asid: if kinds.is_global {
            None
        } else {
            Some(kinds.asid)
        },
        range: if kinds.is_whole {
            None
        } else {
            Some(page(sight))
        },
    })
}
