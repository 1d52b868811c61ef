//! How far a word, blanks, a string and a comment go.
ghost use Rattle.std.specs.Prelude.{◌≡◌, ◌≤◌, ◌<◌, false, length, IfSome, option_map};
ghost use Rattle.asm_tokens.specs.Runs.{behind_comment, closing_quote, is_in, run_length};

use crate::bytes::{is_asm_blank, is_inline, is_letter};

/// A run of bytes of one kind.
#[derive(Clone, Copy, PartialEq, Eq)]
pub(crate) enum Run {
    /// Blanks.
    Blanks,
    /// A word.
    Word,
    /// A line up to its end.
    Line,
}

/// Whether a byte belongs to such a run.
fn is_in(run: Run, byte: u8) -> bool
    ensures { result ≡ is_in run byte }
{
    match run {
        Run::Blanks => is_asm_blank(byte),
        Run::Word => is_letter(byte),
        Run::Line => is_inline(byte),
    }
}

/// The number of bytes of the run that a text begins with.
pub(crate) fn run_len(run: Run, text: &[u8]) -> usize
    ensures run { result ≡ run_length run text.now }
    ensures within { result ≤ length text.now }
{
    for (i, byte) in text.iter().enumerate() {
        if !is_in(run, *byte) {
            return i;
        }
    }
    text.len()
}

/// The place of the quote that closes a string, whose opening one stands before the text. None: the line ends first.
pub(crate) fn closing_quote(text: &[u8]) -> Option<usize>
    ensures quote { result ≡ closing_quote 0 false text.now }
    ensures within { IfSome result (λ n. n < length text.now) }
{
    let mut escaped = false;
    for (i, byte) in text.iter().enumerate() {
        if *byte == b'\n' {
            return None;
        }
        if *byte == b'"' && !escaped {
            return Some(i);
        }
        escaped = *byte == b'\\' && !escaped;
    }
    None
}

/// The text behind a comment, from behind its `/*`. None: the text ends first.
pub(crate) fn behind_comment(text: &[u8]) -> Option<&[u8]>
    ensures behind { option_map (λ rest. rest.now) result ≡ behind_comment false text.now }
    ensures shorter { IfSome result (λ rest. length rest.now < length text.now) }
{
    let mut star = false;
    for (i, byte) in text.iter().enumerate() {
        if star && *byte == b'/' {
            return Some(&text[i + 1..]);
        }
        star = *byte == b'*';
    }
    None
}
