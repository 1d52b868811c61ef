//! Bytes, by what they begin.
ghost use Rattle.std.specs.Prelude.{◌≡◌};
ghost use Rattle.asm_tokens.specs.Bytes.{class_of, is_asm_blank, is_inline, is_letter, by_mark};

use crate::marks::{Mark, mark_of_byte};

/// What a byte begins.
#[derive(Clone, Copy, PartialEq, Eq)]
pub(crate) enum ByteClass {
    /// A blank, a tab, or a carriage return: blanks.
    Blank,
    /// A letter, a digit, `_`, `.` or `$`: a word.
    Letter,
    /// A line feed or `;`: the end of a statement.
    End,
    /// `#`: a comment to the end of the line.
    Hash,
    /// `"`: a string.
    Quote,
    /// `/`: a comment, if a `*` follows, or else a mark.
    Slash,
    /// Any other mark.
    Mark(Mark),
    /// Nothing that is read here.
    Other,
}

/// What a byte begins.
pub(crate) fn class_of(byte: u8) -> ByteClass
    ensures { result ≡ class_of byte }
{
    if is_asm_blank(byte) {
        return ByteClass::Blank;
    }
    if is_letter(byte) {
        return ByteClass::Letter;
    }
    match byte {
        b'\n' | b';' => ByteClass::End,
        b'#' => ByteClass::Hash,
        b'"' => ByteClass::Quote,
        b'/' => ByteClass::Slash,
        _ => by_mark(mark_of_byte(byte)),
    }
}

/// The class of a mark, if there is one.
fn by_mark(mark: Option<Mark>) -> ByteClass
    ensures { result ≡ by_mark mark }
{
    match mark {
        Some(mark) => ByteClass::Mark(mark),
        None => ByteClass::Other,
    }
}

/// Whether a byte is a blank, a tab or a carriage return.
pub(crate) fn is_asm_blank(byte: u8) -> bool
    ensures { result ≡ is_asm_blank byte }
{
    matches!(byte, b' ' | b'\t' | b'\r')
}

/// Whether a byte can stand in a word: a letter, a digit, `_`, `.` or `$`.
pub(crate) fn is_letter(byte: u8) -> bool
    ensures { result ≡ is_letter byte }
{
    matches!(byte, b'0'..=b'9' | b'A'..=b'Z' | b'a'..=b'z' | b'_' | b'.' | b'$')
}

/// Whether a byte belongs to its line: any but a line feed.
pub(crate) fn is_inline(byte: u8) -> bool
    ensures { result ≡ is_inline byte }
{
    byte != b'\n'
}
