//! The words of a condition.
ghost use Rattle.std.specs.Prelude.{◌≡◌, ◌+◌, ◌<◌, ◌++◌, IfOk, MatchOption, drop, false, length, take, true};
ghost use Rattle.line_words.specs.Values.{words_in};
ghost use Rattle.condition_script.specs.Grammar.{asked_words, behind, comma_apart, has_mark, up_to, with_commas};
ghost use Rattle.condition_script.specs.Inside.Reading.{texts};

use crate::columns::{from_comment, is_marked};
use line_words::next_word;
use std::alloc::{AllocError, Global};

/// A word.
#[derive(Clone, Copy)]
pub(crate) struct Word<'a> {
    pub(crate) text: &'a [u8],
}

/// These words, and the words of a text behind them.
pub(crate) fn words<'a>(
    alloc: Global,
    front: &[Word<'a>],
    text: &'a [u8],
) -> Result<Vec<Word<'a>>, AllocError>
    ensures { IfOk result (λ found. texts found.items ≡ texts front.now ++ words_in text.now) }
{
    let mut found = Vec::new(alloc);
    found.extend_from_slice(front)?;
    let mut rest = text;
    while let Some((word, after)) = next_word(rest) {
        found.push(Word { text: word })?;
        rest = after;
    }
    Ok(found)
}

/// The words behind a line's `#!`, with a second `#!`.
pub(crate) fn asked_words<'a>(alloc: Global, rest: &'a [u8]) -> Result<Vec<Word<'a>>, AllocError>
    ensures { IfOk result (λ found. texts found.items ≡ asked_words rest.now) }
{
    let mut found = words(alloc, &[], rest)?;
    if is_marked(from_comment(rest)) {
        found.push(Word { text: b"#!" })?;
    }
    Ok(found)
}

/// The place of the first word that is this one.
pub(crate) fn place_of(words: &[Word<'_>], mark: &[u8]) -> Option<usize>
    ensures { MatchOption result (has_mark mark.now (texts words.now) ≡ false)
        (λ k. (k < length words.now) × (has_mark mark.now (texts words.now) ≡ true)
        × (texts (take k words.now) ≡ up_to mark.now (texts words.now))
        × (texts (drop (k + 1) words.now) ≡ behind mark.now (texts words.now))) }
{
    for (k, word) in words.iter().enumerate() {
        if word.text == mark {
            return Some(k);
        }
    }
    None
}

/// The words, with a comma at the end of a word as a word of its own.
pub(crate) fn with_commas<'a>(
    alloc: Global,
    words: &[Word<'a>],
) -> Result<Vec<Word<'a>>, AllocError>
    ensures { IfOk result (λ found. texts found.items ≡ with_commas (texts words.now)) }
{
    let mut found = Vec::new(alloc);
    for word in words {
        push_parts(word, &mut found)?;
    }
    Ok(found)
}

/// Appends a word, and a comma at its end as a word of its own.
fn push_parts<'a>(word: &Word<'a>, found: &mut Vec<Word<'a>>) -> Result<(), AllocError>
    ensures { IfOk result (λ _. texts found.new.items ≡ texts found.old.items ++ comma_apart word.now.text.now) }
{
    if word.text.len() < 2 || !word.text.ends_with(b",") {
        found.push(*word)?;
        return Ok(());
    }
    let (front, comma) = word.text.split_at(word.text.len() - 1);
    found.push(Word { text: front })?;
    found.push(Word { text: comma })?;
    Ok(())
}
