//! The word at a column of a line.
use guest_script::{next_word, without_return};

/// The word that begins at a column of a line, or none.
pub(crate) fn word_at(text: &[u8], line: u64, column: u64) -> &[u8] {
    match next_word(without_return(from_column(text, line, column))) {
        Some((word, _)) => word,
        None => b"",
    }
}

/// The bytes of a line from a column on, its carriage return among them. Lines and columns count from 1.
pub(crate) fn from_column(text: &[u8], line: u64, column: u64) -> &[u8] {
    let before = column.saturating_sub(1) as usize;
    for (i, found) in text.split(|b| *b == b'\n').enumerate() {
        if i as u64 + 1 == line {
            return found.get(before..).unwrap_or(b"");
        }
    }
    b""
}
