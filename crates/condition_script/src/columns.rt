//! In which column a word of a line stands.
ghost use Rattle.std.specs.Prelude.{◌≡◌};
ghost use Rattle.condition_script.specs.Grammar.{behind_blanks, from_comment, is_marked};
ghost use Rattle.condition_script.specs.FirstFault.{behind_word, behind_words, column_behind, from_mark, from_next_word};

use line_words::next_word;

/// The column, from 1, of the word behind the first ones of a line's rest; or behind the last one, if none follows.
pub(crate) fn column_behind(line: &[u8], rest: &[u8], many: usize) -> u64
    ensures { result ≡ column_behind line.now rest.now many }
{
    let from = from_next_word(behind_words(rest, many));
    line.len().saturating_sub(from.len()) as u64 + 1
}

/// A text from its next word on; the whole text, if it has none.
fn from_next_word(text: &[u8]) -> &[u8]
    ensures { result.now ≡ from_next_word text.now }
{
    match next_word(text) {
        Some(_) => behind_blanks(text),
        None => from_mark(text),
    }
}

/// A text without words from its `#!` on; the whole text, if it has none.
fn from_mark(text: &[u8]) -> &[u8]
    ensures { result.now ≡ from_mark text.now }
{
    if is_marked(from_comment(text)) {
        behind_blanks(text)
    } else {
        text
    }
}

/// A text from the end of its first words.
fn behind_words(text: &[u8], many: usize) -> &[u8]
    ensures { result.now ≡ behind_words many text.now }
{
    let mut rest = text;
    let mut left = many;
    while left > 0 {
        rest = behind_word(behind_blanks(rest));
        left -= 1;
    }
    rest
}

/// A text from the end of the word that it begins with.
fn behind_word(text: &[u8]) -> &[u8]
    ensures { result.now ≡ behind_word text.now }
{
    for (i, byte) in text.iter().enumerate() {
        if matches!(byte, b' ' | b'\t' | b'#') {
            return &text[i..];
        }
    }
    &text[text.len()..]
}

/// A text from its first byte that isn't blank.
pub(crate) fn behind_blanks(text: &[u8]) -> &[u8]
    ensures { result.now ≡ behind_blanks text.now }
{
    for (i, byte) in text.iter().enumerate() {
        if *byte != b' ' && *byte != b'\t' {
            return &text[i..];
        }
    }
    &text[text.len()..]
}

/// A text from its comment on.
pub(crate) fn from_comment(text: &[u8]) -> &[u8]
    ensures { result.now ≡ from_comment text.now }
{
    for (i, byte) in text.iter().enumerate() {
        if *byte == b'#' {
            return &text[i..];
        }
    }
    &text[text.len()..]
}

/// Whether a text begins with `#!`.
pub(crate) fn is_marked(text: &[u8]) -> bool
    ensures { result ≡ is_marked text.now }
{
    text.starts_with(b"#!")
}
