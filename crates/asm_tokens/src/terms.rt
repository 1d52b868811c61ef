//! Words as numbers and names.
ghost use Rattle.std.specs.Prelude.{◌≡◌, option_map};
ghost use Rattle.asm_tokens.specs.Terms.{begins_number, is_direction, is_local_behind, is_local_label, term_meaning, word_term};

use crate::numbers::asm_number;

/// A word as a value.
#[derive(Clone, Copy)]
pub enum Term<'a> {
    /// A number below 2^64.
    Number(u64),
    /// The value of a symbol, or of a local label as `1b` or `1f`.
    Name(&'a [u8]),
}

/// What a word is as a value: a number, or a name, which begins with a digit only if it is a local label.
pub fn word_term(word: &[u8]) -> Option<Term<'_>>
    ensures { option_map term_meaning result ≡ word_term word.now }
{
    match asm_number(word) {
        Some(n) => Some(Term::Number(n)),
        None if begins_number(word) && !is_local_label(word) => None,
        None => Some(Term::Name(word)),
    }
}

/// Whether a word begins with a decimal digit.
fn begins_number(word: &[u8]) -> bool
    ensures { result ≡ begins_number word.now }
{
    match word.split_first() {
        Some((first, _)) => matches!(*first, b'0'..=b'9'),
        None => false,
    }
}

/// Whether a word refers to a local label: decimal digits, and then `b` or `f`.
pub fn is_local_label(word: &[u8]) -> bool
    ensures { result ≡ is_local_label word.now }
{
    begins_number(word) && is_local_behind(word)
}

/// Whether a word is decimal digits, or none, and then `b` or `f`.
fn is_local_behind(word: &[u8]) -> bool
    ensures { result ≡ is_local_behind word.now }
{
    for (i, byte) in word.iter().enumerate() {
        if !matches!(*byte, b'0'..=b'9') {
            return is_direction(&word[i..]);
        }
    }
    false
}

/// Whether a word is `b` or `f`.
fn is_direction(word: &[u8]) -> bool
    ensures { result ≡ is_direction word.now }
{
    match word {
        [byte] => *byte == b'b' || *byte == b'f',
        _ => false,
    }
}
