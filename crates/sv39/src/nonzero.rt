//! Finds the words that aren't 0, among many that are.

ghost use Rattle.std.specs.Prelude.{◌≡◌, ◌+◌, ◌*◌, ◌<◌, ◌≤◌, MatchOption, length};
ghost use Rattle.sv39.specs.Nonzero.{IsClear, IsNextSet};
ghost use Rattle.sv39.specs.Inside.Lines.{AreMarked};

use crate::lines::{LINE_WORDS, next_marked};

/// The place of the first word that isn't 0, from this place on.
pub(crate) fn next_set(words: &[u64], marks: &[u64], from: usize) -> Option<usize>
    requires rows { length words.now ≡ 512 * length marks.now }
    requires few { length marks.now ≤ 256 }
    requires kept { AreMarked words.now marks.now }
    ensures { MatchOption result (IsClear words.now from (length words.now)) (IsNextSet words.now from) }
{
    let mut place = from;
    while place < words.len() {
        if words[place] != 0 {
            return Some(place);
        }
        place = next_place(words, marks, place);
    }
    None
}

/// The next place behind this one that is in its line, or in a later line with a mark.
#[inline(always)]
fn next_place(words: &[u64], marks: &[u64], place: usize) -> usize
    requires rows { length words.now ≡ 512 * length marks.now }
    requires few { length marks.now ≤ 256 }
    requires kept { AreMarked words.now marks.now }
    requires within { place < length words.now }
    ensures later { place < result }
    ensures clear { IsClear words.now (place + 1) result }
{
    let next = place + 1;
    if next % LINE_WORDS != 0 {
        return next;
    }
    LINE_WORDS * next_marked(marks, marks, next / LINE_WORDS)
}
