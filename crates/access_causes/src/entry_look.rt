//! A stale entry, followed through a record: since when the page tables don't give it.
ghost use Rattle.std.specs.Prelude.{◌<◌};

use crate::cause::{Finding, Held, Origin};
use crate::seen::Seen;
use crate::sight::Sight;
use any_tlb::agrees;
use board_core::{Board, Entry};
use sv39::{Satp, walk};

/// A stale entry.
#[derive(Drop)]
pub(crate) struct EntryLook {
    entry: Entry,
    filled: usize,
    /// By the result it gives another physical address or fault than the page tables, else another leaf.
    by_result: bool,
    /// The hart's last satp with the entry's address space.
    satp: Satp,
    /// The place of the event since which the page tables don't give it.
    since: Option<usize>,
}

impl EntryLook {
    /// Before the first event.
    pub(crate) fn new(entry: Entry, filled: usize, by_result: bool) -> EntryLook {
        EntryLook {
            entry,
            filled,
            by_result,
            satp: Satp::bare(),
            since: None,
        }
    }

    /// An event was the board's last. It counts from the fill on, if the memory or the satp changed.
    pub(crate) fn happened(&mut self, sight: &Sight, board: &Board, seen: &Seen)
        requires { sight.now.at.hart < board.now.opening.config.harts }
    {
        let register = board.view().satp_register(sight.at.hart);
        let is_new = self.has_space(register) && register.bits() != self.satp.bits();
        if is_new {
            self.satp = register;
        }
        if seen.place >= self.filled && (is_new || seen.is_write) {
            self.since = since(self.since, self.is_changed(sight, board), seen.place);
        }
    }

    /// Whether a satp translates in the entry's address space.
    fn has_space(&self, satp: Satp) -> bool {
        satp.translates()
            && (self.entry.leaf().global || satp.asid() == u64::from(self.entry.asid()))
    }

    /// Whether a walk by the last satp with the entry's address space gives another result, or another leaf.
    fn is_changed(&self, sight: &Sight, board: &Board) -> bool {
        let walked = walk(board.view().ram(), self.satp, sight.at.address, sight.kind);
        if self.by_result {
            return !agrees(&self.entry, sight.at.address, sight.kind, walked);
        }
        match walked {
            Ok(leaf) => leaf != self.entry.leaf(),
            Err(_) => true,
        }
    }

    /// The entry, as the cause of an access that used it.
    pub(crate) fn finding(&self) -> Option<Finding> {
        Some(Finding {
            held: Held::Entry(self.entry),
            origin: Origin::Filled(self.filled),
            changed: self.since?,
        })
    }
}

/// The place since which something is so, if it is so behind this place.
pub(crate) fn since(before: Option<usize>, is_so: bool, place: usize) -> Option<usize> {
    match before {
        _ if !is_so => None,
        Some(first) => Some(first),
        None => Some(place),
    }
}
