//! A fetched word, followed through a record: since when the memory has another, and which it had before.
use crate::cause::{Finding, Held, Origin};
use crate::entry_look::since;
use crate::seen::Seen;
use board_core::{Board, FetchWord, Flush};
use tlb_watch::CacheEffect;

/// A fetched word that the memory no longer has.
#[derive(Clone, Copy)]
pub(crate) struct WordLook {
    word: FetchWord,
    filled: usize,
    /// The place of the event since which the memory has another word.
    since: Option<usize>,
}

impl WordLook {
    /// Before the first event.
    pub(crate) fn new(word: FetchWord, filled: usize) -> WordLook {
        WordLook {
            word,
            filled,
            since: None,
        }
    }

    /// An event was the board's last. It counts from the fill on, if the memory changed.
    pub(crate) fn happened(&mut self, board: &Board, seen: &Seen) {
        if seen.place >= self.filled && seen.is_write {
            let is_other = board.word(self.word.pa) != Some(self.word.word);
            self.since = since(self.since, is_other, seen.place);
        }
    }

    /// The word, as the cause of a fetch that used it.
    pub(crate) fn finding(&self) -> Option<Finding> {
        Some(Finding {
            held: Held::Word(self.word),
            origin: Origin::Filled(self.filled),
            changed: self.since?,
        })
    }
}

/// The words that the instruction cache of a hart may hold for a physical address.
#[derive(Clone, Copy)]
pub(crate) struct WordPast {
    hart: u64,
    pa: u64,
    /// The word behind the last event.
    now: Option<u64>,
    /// The last other word that the memory had since the hart's last FENCE.I, and the place of the event that changed it.
    former: Option<(FetchWord, usize)>,
}

impl WordPast {
    /// On a board before its first event.
    pub(crate) fn new(board: &Board, hart: u64, pa: u64) -> WordPast {
        WordPast {
            hart,
            pa,
            now: board.word(pa),
            former: None,
        }
    }

    /// An event was the board's last.
    pub(crate) fn happened(&mut self, board: &Board, seen: &Seen) {
        if seen.is_write {
            self.see(board.word(self.pa), seen.place);
        }
        if seen.effect == CacheEffect::Reset || seen.flush_at(self.hart) == Some(Flush::Words) {
            self.former = None;
        }
    }

    /// The memory has this word behind this place.
    fn see(&mut self, word: Option<u64>, place: usize) {
        if let Some(before) = self.now
            && word != self.now
        {
            let pa = self.pa;
            self.former = Some((FetchWord { pa, word: before }, place));
        }
        self.now = word;
    }

    /// The former word, as the cause of a fetch that may use it.
    pub(crate) fn finding(&self) -> Option<Finding> {
        let (word, until) = self.former?;
        Some(Finding {
            held: Held::Word(word),
            origin: Origin::Had(until),
            changed: until,
        })
    }
}
