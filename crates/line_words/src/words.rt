//! Words of a line, and the arrow `->` before a reply.
ghost use Rattle.std.specs.Prelude.{◌≡◌, ◌∷◌, [], ◌<◌, ◌≤◌, IsFalse, MatchOption, IfSome, length};
ghost use Rattle.line_words.specs.Words.{is_blank};
ghost use Rattle.line_words.specs.Values.{after_arrow, has_arrow, is_arrow, words_in, words_until};
ghost use Rattle.line_words.specs.Inside.Scanning.{begins_blank, is_word_end, word_length};

/// The first word of a text, and the text after it. None: there is no word before the comment.
#[tactic(auto, using(crate::proofs::WordsIn::word_length_le, crate::proofs::WordsIn::words_in_word, crate::proofs::WordsIn::words_in_none))]
pub fn next_word(text: &[u8]) -> Option<(&[u8], &[u8])>
    ensures words { MatchOption result (words_in text.now ≡ [])
        (λ found. words_in text.now ≡ found.0.now ∷ words_in found.1.now) }
    ensures shorter { IfSome result (λ found. length found.1.now < length text.now) }
{
    let from = skip_gap(text);
    let n = word_len(from);
    if n == 0 { None } else { Some(from.split_at(n)) }
}

/// The first word of a text, and the text after it. With `until_arrow`, the words end at the first arrow.
pub fn next_word_until(text: &[u8], until_arrow: bool) -> Option<(&[u8], &[u8])>
    ensures words { MatchOption result (words_until until_arrow (words_in text.now) ≡ [])
        (λ found. words_until until_arrow (words_in text.now)
        ≡ found.0.now ∷ words_until until_arrow (words_in found.1.now)) }
    ensures shorter { IfSome result (λ found. length found.1.now < length text.now) }
{
    let (word, after) = next_word(text)?;
    if until_arrow && is_arrow(word) {
        None
    } else {
        Some((word, after))
    }
}

/// Whether one of the words of a text is an arrow.
pub fn has_arrow(text: &[u8]) -> bool
    ensures { result ≡ has_arrow (words_in text.now) }
{
    let mut rest = text;
    while let Some((word, after)) = next_word(rest) {
        if is_arrow(word) {
            return true;
        }
        rest = after;
    }
    false
}

/// The text after the first arrow.
pub fn after_arrow(text: &[u8]) -> &[u8]
    ensures { words_in result.now ≡ after_arrow (words_in text.now) }
{
    let mut rest = text;
    while let Some((word, after)) = next_word(rest) {
        if is_arrow(word) {
            return after;
        }
        rest = after;
    }
    rest
}

/// Whether a word is the arrow before a reply.
fn is_arrow(word: &[u8]) -> bool
    ensures { result ≡ is_arrow word.now }
{
    word == b"->".as_slice()
}

/// Whether a byte separates words: a blank or a tab.
fn is_blank(byte: u8) -> bool
    ensures { result ≡ is_blank byte }
{
    byte == b' ' || byte == b'\t'
}

/// Whether a byte ends a word: a blank, a tab, or the `#` of a comment.
fn is_word_end(byte: u8) -> bool
    ensures { result ≡ is_word_end byte }
{
    is_blank(byte) || byte == b'#'
}

/// The text from its first byte that isn't blank.
#[tactic(auto, using(crate::proofs::WordsIn::words_in_drop_blank))]
fn skip_gap(text: &[u8]) -> &[u8]
    ensures words { words_in result.now ≡ words_in text.now }
    ensures stops { IsFalse (begins_blank result.now) }
    ensures shorter { length result.now ≤ length text.now }
{
    for (i, byte) in text.iter().enumerate() {
        if !is_blank(*byte) {
            return &text[i..];
        }
    }
    &text[text.len()..]
}

/// The number of bytes of the word that a text begins with.
fn word_len(text: &[u8]) -> usize
    ensures { result ≡ word_length text.now }
{
    for (i, byte) in text.iter().enumerate() {
        if is_word_end(*byte) {
            return i;
        }
    }
    text.len()
}
