//! Reads the words of a condition.
ghost use Rattle.std.specs.Prelude.{◌≡◌, ◌+◌, ◌<◌, ◌∷◌, [], Bool, IfOk, MatchOption, None, drop, length, take};
ghost use Rattle.condition_script.specs.Grammar.{AreEndings, Never as NeverValue, RuleValue, IsRuleOf, IsAsked, IsPattern, IsRule, IsWithout, Wanted, mark_name, marked, rule_value, wanted};
ghost use Rattle.condition_script.specs.Inside.Reading.{Gives, texts};
ghost use Rattle.condition_script.specs.declared.keywords.Keyword.TheVariants as keywords;
ghost use Rattle.condition_script.specs.declared.marks.Mark.{Mark as Marking};

use crate::faults::Wrong;
use crate::items::Item;
use crate::keywords::Keyword;
use crate::marks::Mark;
use crate::names::Name;
use crate::pattern_words::{any_step, reply, step, step_or_any};
use crate::patterns::Pattern;
use crate::rules::{Ending, Rule};
use crate::words::{Word, place_of, with_commas};
use std::alloc::{AllocError, Global};

/// Reads words as a condition, and whether it begins with `maybe`.
pub(crate) fn asked_rule(alloc: Global, words: &[Word<'_>]) -> Result<(bool, Rule), Wrong>
    ensures { Gives {A = Bool × RuleValue} (λ found. (found.0, rule_value found.1)) (λ read. IsRule (texts words.now) read.0 read.1) result }
{
    let Some((first, rest)) = words.split_first() else {
        return Err(Wrong::WordCount);
    };
    if first.text == b"maybe".as_slice() {
        return Ok((true, rule(alloc, rest)?));
    }
    Ok((false, rule(alloc, words)?))
}

/// Reads words as a condition, without `maybe`.
fn rule(alloc: Global, words: &[Word<'_>]) -> Result<Rule, Wrong>
    ensures { Gives rule_value (IsAsked (texts words.now)) result }
{
    let Some((first, rest)) = words.split_first() else {
        return Err(Wrong::WordCount);
    };
    match Keyword::of(first.text) {
        Some(keyword) => asks(alloc, keyword, rest),
        None => Err(Wrong::UnknownCondition),
    }
}

/// Reads the condition of a keyword, which these words follow.
fn asks(alloc: Global, keyword: Keyword, words: &[Word<'_>]) -> Result<Rule, Wrong>
    ensures { Gives rule_value (IsRuleOf keyword (texts words.now)) result }
{
    match keyword {
        Keyword::Never => never(alloc, words),
        Keyword::Some => some(alloc, words),
        Keyword::Each => each(alloc, words),
        Keyword::End => ends(alloc, words),
        Keyword::Before => ordered(alloc, words),
        Keyword::Can => can_end(alloc, words),
        Keyword::Steady => without(alloc, Mark::Unsteady, words),
        Keyword::Firm => without(alloc, Mark::Unfirm, words),
        Keyword::Lenient => without(alloc, Mark::Unlenient, words),
    }
}

fn never(alloc: Global, words: &[Word<'_>]) -> Result<Rule, Wrong>
    ensures { Gives rule_value (IsRuleOf keywords.Never (texts words.now)) result }
{
    match lone_mark(words) {
        Some(mark) => Ok(never_marked(alloc, mark)?),
        None => never_matched(alloc, words),
    }
}

/// No step has the mark.
///
/// # Errors
///
/// Out of memory.
fn never_marked(alloc: Global, mark: Mark) -> Result<Rule, AllocError>
    ensures { IfOk result (λ rule. rule_value rule ≡ NeverValue (marked mark (None ∷ []))) }
{
    let any = any_step(alloc)?;
    Ok(Rule::Never(marked(alloc, mark, any)?))
}

/// No step is one of a pattern, or of a pattern after one of another.
fn never_matched(alloc: Global, words: &[Word<'_>]) -> Result<Rule, Wrong>
    requires { (mark : Marking) → texts words.now ≡ mark_name mark ∷ [] → ⊥ }
    ensures { Gives rule_value (IsRuleOf keywords.Never (texts words.now)) result }
{
    match place_of(words, b"after") {
        Some(k) => {
            let (p, q) = both(alloc, words, k)?;
            Ok(Rule::NeverAfter(p, q))
        }
        None => Ok(Rule::Never(pattern(alloc, words)?)),
    }
}

/// The mark that these words are, if they are one word.
fn lone_mark(words: &[Word<'_>]) -> Option<Mark>
    ensures { MatchOption result ((mark : Marking) → texts words.now ≡ mark_name mark ∷ [] → ⊥)
        (λ mark. texts words.now ≡ mark_name mark ∷ []) }
{
    let Some((first, rest)) = words.split_first() else {
        return None;
    };
    if rest.is_empty() {
        Mark::of(first.text)
    } else {
        None
    }
}

/// No step of a pattern has the mark.
fn without(alloc: Global, mark: Mark, words: &[Word<'_>]) -> Result<Rule, Wrong>
    ensures { Gives rule_value (IsWithout mark (texts words.now)) result }
{
    let step = step_or_any(alloc, words)?;
    Ok(Rule::Never(marked(alloc, mark, step)?))
}

/// The pattern of a step with this mark in the place of its reply.
///
/// # Errors
///
/// Out of memory.
fn marked(alloc: Global, mark: Mark, step: Vec<Option<Item>>) -> Result<Pattern, AllocError>
    ensures { IfOk result (λ p. wanted p ≡ marked mark step.items) }
{
    let mut reply = Vec::new(alloc);
    reply.push(Some(Item::Word(Name::Mark(mark))))?;
    Ok(Pattern { step, reply })
}

fn some(alloc: Global, words: &[Word<'_>]) -> Result<Rule, Wrong>
    ensures { Gives rule_value (IsRuleOf keywords.Some (texts words.now)) result }
{
    Ok(Rule::OfSome(pattern(alloc, words)?))
}

fn each(alloc: Global, words: &[Word<'_>]) -> Result<Rule, Wrong>
    ensures { Gives rule_value (IsRuleOf keywords.Each (texts words.now)) result }
{
    let p = pattern(alloc, words)?;
    if p.reply.is_empty() {
        return Err(Wrong::WordCount);
    }
    Ok(Rule::Each(p))
}

fn ordered(alloc: Global, words: &[Word<'_>]) -> Result<Rule, Wrong>
    ensures { Gives rule_value (IsRuleOf keywords.Before (texts words.now)) result }
{
    let words = with_commas(alloc, words)?;
    match place_of(&words, b",") {
        Some(k) => {
            let (p, q) = both(alloc, &words, k)?;
            Ok(Rule::Before(p, q))
        }
        None => match pattern(alloc, &words) {
            Ok(_) => Err(Wrong::NoComma),
            Err(wrong) => Err(wrong),
        },
    }
}

fn ends(alloc: Global, words: &[Word<'_>]) -> Result<Rule, Wrong>
    ensures { Gives rule_value (IsRuleOf keywords.End (texts words.now)) result }
{
    if words.is_empty() {
        return Err(Wrong::WordCount);
    }
    Ok(Rule::End(endings(alloc, words)?))
}

/// `end`, and the ends that orders can come to. No limit ends such an order.
fn can_end(alloc: Global, words: &[Word<'_>]) -> Result<Rule, Wrong>
    ensures { Gives rule_value (IsRuleOf keywords.Can (texts words.now)) result }
{
    let Some((first, rest)) = words.split_first() else {
        return Err(Wrong::WordCount);
    };
    if first.text != b"end".as_slice() {
        return Err(Wrong::UnknownWord);
    }
    if place_of(rest, b"history-full").is_some() {
        return Err(Wrong::UnknownWord);
    }
    let mut ends = endings(alloc, rest)?;
    if ends.is_empty() {
        ends.push(Ending::Off)?;
        ends.push(Ending::Quiet)?;
        ends.push(Ending::Stuck)?;
    }
    Ok(Rule::CanEnd(ends))
}

/// The ends that words name.
fn endings(alloc: Global, words: &[Word<'_>]) -> Result<Vec<Ending>, Wrong>
    ensures { Gives (λ ends. ends.items) (AreEndings (texts words.now)) result }
{
    let mut found = Vec::new(alloc);
    for word in words {
        match Ending::of(word.text) {
            Some(ending) => found.push(ending)?,
            None => return Err(Wrong::UnknownWord),
        }
    }
    Ok(found)
}

/// The patterns before and after the word at place k.
fn both(alloc: Global, words: &[Word<'_>], k: usize) -> Result<(Pattern, Pattern), Wrong>
    requires { k < length words.now }
    ensures { Gives {A = Wanted × Wanted} (λ found. (wanted found.0, wanted found.1))
        (λ ps. IsPattern (texts (take k words.now)) ps.0 × IsPattern (texts (drop (k + 1) words.now)) ps.1) result }
{
    let first = pattern(alloc, &words[..k])?;
    let second = pattern(alloc, &words[k + 1..])?;
    Ok((first, second))
}

/// Reads words as a pattern.
fn pattern(alloc: Global, words: &[Word<'_>]) -> Result<Pattern, Wrong>
    ensures { Gives wanted (IsPattern (texts words.now)) result }
{
    match place_of(words, b"->") {
        Some(k) => {
            let step = step(alloc, &words[..k])?;
            let reply = reply(alloc, &words[k + 1..])?;
            Ok(Pattern { step, reply })
        }
        None => {
            let step = step(alloc, words)?;
            Ok(Pattern {
                step,
                reply: Vec::new(alloc),
            })
        }
    }
}
