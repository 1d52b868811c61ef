//! The words of a place that walks may still see.
ghost use Rattle.std.specs.Prelude.{◌≡◌, IfOk};
ghost use Rattle.walk_watch.specs.Inside.Sights.{back, behind_fence, behind_word, fenced, first, has_word, is_same_word, shown, unseen, words_seen};

use crate::former::{FormerWord, WalkNote};
use crate::ordering::{Walkers, orders_ends, orders_pointers};
use crate::table_word::is_pointer;
use std::alloc::{AllocError, Global};
use sv39::Level;
use tlb_model::Flush;

/// A place of a page-table word, as these walks read it at this level.
#[derive(Clone, Copy)]
pub(crate) struct Spot {
    pub(crate) walkers: Walkers,
    pub(crate) level: Level,
    /// The physical address.
    pub(crate) at: u64,
}

/// What walks may see of a place, as one looks back from now.
#[derive(Clone, Copy)]
pub(crate) struct Sight {
    /// The word that stood there.
    pub(crate) word: Option<u64>,
    /// Whether walks may still end at what stood there: no fence of the address's page of the level was applied since, or a
    /// pointer stood there before such a fence.
    pub(crate) free: bool,
    /// Whether a fence orders all that stood there.
    pub(crate) over: bool,
    /// Whether walks may see the word, and it didn't stand there at the last look.
    pub(crate) shows: bool,
}

impl Sight {
    /// The word that stands there now.
    fn first(word: Option<u64>) -> Sight
        ensures { result ≡ first word }
    {
        Sight {
            word,
            free: true,
            over: false,
            shows: true,
        }
    }

    /// What walks may see one note further back.
    fn back(self, spot: Spot, note: WalkNote) -> Sight
        ensures { result ≡ back spot self note }
    {
        match note {
            WalkNote::Was(former) => self.behind_word(spot, former),
            WalkNote::Fence(hart, flush) => self.behind_fence(spot, hart, flush),
        }
    }

    /// The same behind a change of a word.
    fn behind_word(self, spot: Spot, former: FormerWord) -> Sight
        ensures { result ≡ behind_word spot self former }
    {
        if former.at != u128::from(spot.at) {
            return self.unseen();
        }
        let free = self.free || is_pointer(self.word, spot.level);
        Sight {
            word: former.word,
            free,
            over: self.over,
            shows: !self.over && (free || is_pointer(former.word, spot.level)),
        }
    }

    /// The same behind a fence of a hart.
    fn behind_fence(self, spot: Spot, hart: u64, flush: Flush) -> Sight
        ensures { result ≡ behind_fence spot self hart flush }
    {
        if hart == spot.walkers.hart {
            self.fenced(spot, flush)
        } else {
            self.unseen()
        }
    }

    /// The same behind a fence of the walks' hart.
    fn fenced(self, spot: Spot, flush: Flush) -> Sight
        ensures { result ≡ fenced spot self flush }
    {
        if orders_pointers(spot.walkers.met, spot.walkers.asid, flush) {
            Sight {
                word: self.word,
                free: self.free,
                over: true,
                shows: false,
            }
        } else if orders_ends(spot.walkers, spot.level, flush) {
            Sight {
                word: self.word,
                free: is_pointer(self.word, spot.level),
                over: self.over,
                shows: false,
            }
        } else {
            self.unseen()
        }
    }

    /// Nothing else stood there.
    fn unseen(self) -> Sight
        ensures { result ≡ unseen self }
    {
        Sight {
            word: self.word,
            free: self.free,
            over: self.over,
            shows: false,
        }
    }
}

/// The words that walks may see at a place, each once, if this one stands there now.
///
/// # Errors
///
/// Out of memory.
pub(crate) fn words_seen(
    alloc: Global,
    notes: &[WalkNote],
    spot: Spot,
    word: Option<u64>,
) -> Result<Vec<Option<u64>>, AllocError>
    ensures { IfOk result (λ words. words.items ≡ words_seen spot notes.now word) }
{
    let mut found = Vec::new(alloc);
    found.push(word)?;
    let mut sight = Sight::first(word);
    for note in notes {
        sight = sight.back(spot, *note);
        show(&mut found, sight)?;
    }
    Ok(found)
}

/// Adds the word of a sight, if it shows, and isn't there yet.
fn show(found: &mut Vec<Option<u64>>, sight: Sight) -> Result<(), AllocError>
    ensures { IfOk result (λ _. found.new.items ≡ shown sight found.old.items) }
{
    if sight.shows && !has_word(found, sight.word) {
        found.push(sight.word)?;
    }
    Ok(())
}

/// Whether a word is among these.
fn has_word(words: &[Option<u64>], word: Option<u64>) -> bool
    ensures { result ≡ has_word words.now word }
{
    let mut found = false;
    for other in words {
        found = found || is_same_word(*other, word);
    }
    found
}

/// Whether two words are the same, or both aren't in the RAM.
fn is_same_word(a: Option<u64>, b: Option<u64>) -> bool
    ensures { result ≡ is_same_word a b }
{
    match (a, b) {
        (Some(a), Some(b)) => a == b,
        (None, None) => true,
        _ => false,
    }
}
