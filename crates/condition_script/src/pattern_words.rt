//! The words of a pattern: an actor, names, and numbers.
ghost use Rattle.std.specs.Prelude.{◌≡◌, ◌∷◌, [], ℕ, IfOk, MatchOption, None, Option, false, true};
ghost use Rattle.condition_script.specs.Grammar.{AreNumberWords, AsksActor, AsksName, AsksNumber, IsMarkName, IsNameOf, IsNameAndNumbers, IsSaidName, IsStepOrAny, IsStepPattern, most_numbers};
ghost use Rattle.condition_script.specs.Inside.Reading.{Gives, Puts, texts};
ghost use Rattle.condition_script.specs.declared.items.Item.{Item as Word};

use crate::faults::Wrong;
use crate::items::Item;
use crate::marks::Mark;
use crate::names::Name;
use crate::words::Word as Placed;
use line_words::{number as unsigned_number, signed_number};
use script_lines::{LAST_HART, OP_NUMBERS, OpName, SAID_NUMBERS, SaidName};
use std::alloc::{AllocError, Global};

/// Reads words as a step: an actor, and its operation.
pub(crate) fn step(alloc: Global, words: &[Placed<'_>]) -> Result<Vec<Option<Item>>, Wrong>
    ensures { Gives (λ found. found.items) (IsStepPattern (texts words.now)) result }
{
    let Some((first, rest)) = words.split_first() else {
        return Err(Wrong::WordCount);
    };
    let Some(item) = actor(first.text) else {
        return Err(no_number(first.text, true));
    };
    let mut found = Vec::new(alloc);
    found.push(item)?;
    if !rest.is_empty() {
        named(rest, false, &mut found)?;
    }
    Ok(found)
}

/// Reads words as a step. No word is any step.
pub(crate) fn step_or_any(alloc: Global, words: &[Placed<'_>]) -> Result<Vec<Option<Item>>, Wrong>
    ensures { Gives (λ found. found.items) (IsStepOrAny (texts words.now)) result }
{
    if words.is_empty() {
        return Ok(any_step(alloc)?);
    }
    step(alloc, words)
}

/// Any step.
///
/// # Errors
///
/// Out of memory.
pub(crate) fn any_step(alloc: Global) -> Result<Vec<Option<Item>>, AllocError>
    ensures { IfOk result (λ found. found.items ≡ None ∷ []) }
{
    let mut found = Vec::new(alloc);
    found.push(None)?;
    Ok(found)
}

/// Reads words as a reply.
pub(crate) fn reply(alloc: Global, words: &[Placed<'_>]) -> Result<Vec<Option<Item>>, Wrong>
    ensures { Gives (λ found. found.items) (IsNameAndNumbers true (texts words.now)) result }
{
    let mut found = Vec::new(alloc);
    named(words, true, &mut found)?;
    Ok(found)
}

/// Appends a name and its numbers.
fn named(words: &[Placed<'_>], is_reply: bool, found: &mut Vec<Option<Item>>) -> Result<(), Wrong>
    ensures { Puts found.old.items found.new.items (IsNameAndNumbers is_reply (texts words.now)) result }
{
    let Some((first, rest)) = words.split_first() else {
        return Err(Wrong::WordCount);
    };
    match name(first.text, is_reply) {
        Some((item, most)) => {
            found.push(item)?;
            numbers(rest, most, found)
        }
        None => Err(no_name(first.text, is_reply)),
    }
}

/// Appends numbers, at most `most`.
fn numbers(words: &[Placed<'_>], most: usize, found: &mut Vec<Option<Item>>) -> Result<(), Wrong>
    ensures { Puts found.old.items found.new.items (AreNumberWords most (texts words.now)) result }
{
    for (k, word) in words.iter().enumerate() {
        match number_within(word.text, k < most) {
            Some(item) => found.push(item)?,
            None => return Err(no_number(word.text, k < most)),
        }
    }
    Ok(())
}

/// An actor, or any.
fn actor(word: &[u8]) -> Option<Option<Item>>
    ensures { MatchOption result ((item : Option Word) → AsksActor word.now item → ⊥) (λ item. AsksActor word.now item) }
{
    match word {
        b"_" => Some(None),
        b"c" => Some(Some(Item::Word(Name::Clock))),
        _ => Some(Some(Item::Number(unsigned_number(word, LAST_HART)?))),
    }
}

/// The name of an operation or of a reply, or any; and how many numbers may follow it.
fn name(word: &[u8], is_reply: bool) -> Option<(Option<Item>, usize)>
    ensures { MatchOption result ((item : Option Word) (most : ℕ) → AsksName is_reply word.now item most → ⊥)
        (λ found. AsksName is_reply word.now found.0 found.1) }
{
    if word == b"_".as_slice() {
        return Some((None, most_numbers(is_reply)));
    }
    if is_reply {
        said_name(word)
    } else {
        op_name(word)
    }
}

/// How many numbers any operation may have, or any reply.
fn most_numbers(is_reply: bool) -> usize
    ensures { result ≡ most_numbers is_reply }
{
    if is_reply { SAID_NUMBERS } else { OP_NUMBERS }
}

/// The name of an operation, and how many numbers may follow it.
fn op_name(word: &[u8]) -> Option<(Option<Item>, usize)>
    ensures { MatchOption result ((item : Word) (most : ℕ) → IsNameOf false word.now item most → ⊥)
        (λ found. AsksName false word.now found.0 found.1) }
{
    match OpName::of(word) {
        Some(name) => Some((Some(Item::Word(Name::Op(name))), name.places().most)),
        None => None,
    }
}

/// The name of a reply, or a mark in its place, and how many numbers may follow it.
fn said_name(word: &[u8]) -> Option<(Option<Item>, usize)>
    ensures { MatchOption result ((item : Word) (most : ℕ) → IsNameOf true word.now item most → ⊥)
        (λ found. AsksName true word.now found.0 found.1) }
{
    if let Some((name, most)) = reply_name(word) {
        return Some((Some(name), most));
    }
    match mark_name(word) {
        Some((name, most)) => Some((Some(name), most)),
        None => None,
    }
}

/// The name of a reply, and how many numbers may follow it.
fn reply_name(word: &[u8]) -> Option<(Item, usize)>
    ensures { MatchOption result ((item : Word) (most : ℕ) → IsSaidName word.now item most → ⊥)
        (λ found. IsSaidName word.now found.0 found.1) }
{
    match SaidName::of(word) {
        None => None,
        Some(SaidName::Refused) => None,
        Some(name) => Some((Item::Word(Name::Said(name)), name.places().most)),
    }
}

/// A mark, which no number follows.
fn mark_name(word: &[u8]) -> Option<(Item, usize)>
    ensures { MatchOption result ((item : Word) (most : ℕ) → IsMarkName word.now item most → ⊥)
        (λ found. IsMarkName word.now found.0 found.1) }
{
    match Mark::of(word) {
        Some(mark) => Some((Item::Word(Name::Mark(mark)), 0)),
        None => None,
    }
}

/// A number, a dash, or any.
fn number(word: &[u8]) -> Option<Option<Item>>
    ensures { MatchOption result ((item : Option Word) → AsksNumber word.now item → ⊥) (λ item. AsksNumber word.now item) }
{
    match word {
        b"_" => Some(None),
        b"-" => Some(Some(Item::Absent)),
        _ => match unsigned_number(word, u64::MAX) {
            Some(n) => Some(Some(Item::Number(n))),
            None => Some(Some(Item::signed(signed_number(word)?))),
        },
    }
}

/// The same, if one more number may follow.
fn number_within(word: &[u8], may_be: bool) -> Option<Option<Item>>
    ensures { MatchOption result (may_be ≡ true → (item : Option Word) → AsksNumber word.now item → ⊥)
        (λ item. (may_be ≡ true) × AsksNumber word.now item) }
{
    if may_be { number(word) } else { None }
}

/// What is wrong with a word that is no number, or is one number too many.
fn no_number(word: &[u8], may_be: bool) -> Wrong {
    if word == b"*".as_slice() {
        Wrong::Star
    } else if may_be {
        Wrong::BadNumber
    } else {
        Wrong::WordCount
    }
}

/// What is wrong with a word that is no name.
fn no_name(word: &[u8], is_reply: bool) -> Wrong {
    match word {
        b"*" => Wrong::Star,
        b"refused" if is_reply => Wrong::Refused,
        _ => Wrong::UnknownWord,
    }
}
