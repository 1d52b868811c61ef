//! Events, as what is followed for accesses sees them.
use board_core::{Board, Entry, Event, Flush, Op};
use tlb_watch::{CacheEffect, effect_of};

/// A word that the memory had.
#[derive(Clone, Copy)]
pub(crate) struct Stood {
    /// Its physical address.
    pub(crate) pa: u64,
    /// The word. None: the RAM has none there.
    pub(crate) word: Option<u64>,
}

/// An event, as what is followed for an access sees it.
#[derive(Clone, Copy)]
pub(crate) struct Seen {
    pub(crate) place: usize,
    /// What it did to caches, whatever they keep.
    pub(crate) effect: CacheEffect,
    /// Whether it may have changed the memory.
    pub(crate) is_write: bool,
    /// The word that it may have written, as it was before.
    written: Option<Stood>,
}

impl Seen {
    /// The event in this place, on the board as it is before it.
    pub(crate) fn of(board: &Board, place: usize, event: &Event) -> Seen {
        let effect = effect_of(board, event);
        Seen {
            place,
            effect,
            is_write: effect == CacheEffect::Reset || is_write(event.op()),
            written: written_by(board, event),
        }
    }

    /// The word that it changed, as it was before, on the board as it is after it.
    pub(crate) fn changed(&self, board: &Board) -> Option<Stood> {
        let stood = self.written?;
        if board.word(stood.pa) == stood.word {
            return None;
        }
        Some(stood)
    }

    /// The fence that it applied at a hart, if it did.
    pub(crate) fn flush_at(&self, hart: u64) -> Option<Flush> {
        match self.effect {
            CacheEffect::Applied(at, flush) if at == hart => Some(flush),
            _ => None,
        }
    }
}

/// The word that an event may write, on the board as it is before it.
fn written_by(board: &Board, event: &Event) -> Option<Stood> {
    let va = match event.op() {
        Op::Store(va, _) => va,
        Op::Amo(at, amo) => amo.word_at(at),
        _ => return None,
    };
    let pa = place_of(va, event.translation());
    let word = board.word(pa);
    Some(Stood { pa, word })
}

/// The physical address of an address by the entry that the access used; without one it is the address itself.
fn place_of(va: u64, used: Option<Entry>) -> u64 {
    match used {
        Some(entry) => entry.pa().wrapping_add(va.wrapping_sub(entry.page())),
        None => va,
    }
}

/// Whether an operation may write the memory.
fn is_write(op: Op) -> bool {
    matches!(op, Op::Store(..) | Op::Amo(..))
}
