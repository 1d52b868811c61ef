//! Positions in a line: as the number of bytes from there to the end, and as a column.
use crate::text::is_allowed;
use crate::words::next_word;

/// The column, from 1, of the byte from which on `left` bytes are left.
pub fn column(text: &[u8], left: usize) -> u64 {
    (text.len().saturating_sub(left) as u64).saturating_add(1)
}

/// The number of bytes from a word to the end, if these bytes follow the word.
pub fn from_word(word: &[u8], after: &[u8]) -> usize {
    word.len().saturating_add(after.len())
}

/// The number of bytes from the next word to the end; after the last word, that of the rest.
pub fn from_next(text: &[u8]) -> usize {
    match next_word(text) {
        Some((word, after)) => from_word(word, after),
        None => text.len(),
    }
}

/// The number of bytes from the first byte that a script can't have to the end; 0 if all are allowed.
pub fn from_bad_byte(text: &[u8]) -> usize {
    for (i, byte) in text.iter().enumerate() {
        if !is_allowed(*byte) {
            return text.len() - i;
        }
    }
    0
}
