//! What a condition says of a record, and whether the record meets it.
ghost use Rattle.std.specs.Prelude.{◌↔◌, ◌≡◌, ◌<◌, ◌≤◌, ℕ, MatchOption, Some, length, slice_get, true};
ghost use Rattle.condition_script.specs.declared.rules.Ending.{Ending as HowEnded};
ghost use Rattle.conditions.specs.Rules.{Holds, IsAt, IsFirst, IsFirstFrom, IsFirstUnfit, Names, RepliesFit};

use crate::patterns::{fits_reply, fits_step, matches};
use board_core::Event;
use condition_script::{Ending, Pattern, Rule};

/// Whether a record meets a condition: the accepted steps, oldest first, and, for a program, how the run ended.
pub fn holds(rule: &Rule, events: &[Event], end: Option<Ending>) -> bool
    ensures { (result ≡ true) ↔ Holds rule.now events.now end }
{
    match rule {
        Rule::Never(p) => first_from(p, events, 0).is_none(),
        Rule::NeverAfter(p, q) => no_later(p, q, events),
        Rule::OfSome(p) => first_from(p, events, 0).is_some(),
        Rule::Each(p) => first_other_reply(p, events).is_none(),
        Rule::End(ends) => is_among(ends, end),
        Rule::Before(p, q) => is_before(p, q, events),
        Rule::CanEnd(_) => false,
    }
}

/// Whether a condition names an end: in one of the ways that it names a run may end, or an order can.
pub fn names_end(rule: &Rule, end: Option<Ending>) -> bool
    ensures { (result ≡ true) ↔ Names rule.now end }
{
    match rule {
        Rule::End(ends) => is_among(ends, end),
        Rule::CanEnd(ends) => is_among(ends, end),
        Rule::Never(_)
        | Rule::NeverAfter(_, _)
        | Rule::OfSome(_)
        | Rule::Each(_)
        | Rule::Before(_, _) => false,
    }
}

/// The first step from a place on that a pattern matches, if there is one.
pub fn first_from(p: &Pattern, events: &[Event], from: usize) -> Option<usize>
    ensures { MatchOption result ((k : ℕ) → from ≤ k → ¬ IsAt p.now events.now k) (IsFirstFrom p.now events.now from) }
{
    for k in from..events.len() {
        if matches(p, &events[k]) {
            return Some(k);
        }
    }
    None
}

/// Whether no step that P matches comes later than one that Q matches.
fn no_later(p: &Pattern, q: &Pattern, events: &[Event]) -> bool
    ensures { (result ≡ true) ↔ ((j k : ℕ) → j < k → IsAt q.now events.now j → ¬ IsAt p.now events.now k) }
{
    match first_from(q, events, 0) {
        Some(j) => first_from(p, events, j + 1).is_none(),
        None => true,
    }
}

/// Whether the first step that P matches comes before the first that Q matches, if both come.
fn is_before(p: &Pattern, q: &Pattern, events: &[Event]) -> bool
    ensures { (result ≡ true) ↔ ((j k : ℕ) → IsFirst p.now events.now j → IsFirst q.now events.now k → j < k) }
{
    let Some(j) = first_from(p, events, 0) else {
        return true;
    };
    match first_from(q, events, 0) {
        Some(k) => j < k,
        None => true,
    }
}

/// The first step whose actor and operation fit a pattern, and whose reply doesn't.
pub fn first_other_reply(p: &Pattern, events: &[Event]) -> Option<usize>
    ensures { MatchOption result (RepliesFit p.now events.now)
        (IsFirstUnfit p.now events.now) }
{
    for (k, event) in events.iter().enumerate() {
        if fits_step(p, event) && !fits_reply(p, event) {
            return Some(k);
        }
    }
    None
}

/// Whether a run ended in one of these ways.
fn is_among(ends: &[Ending], end: Option<Ending>) -> bool
    ensures { (result ≡ true) ↔ ((e : HowEnded) × (end ≡ Some e) × ((k : ℕ) × (slice_get ends.now k ≡ Some e))) }
{
    let Some(end) = end else {
        return false;
    };
    for e in ends {
        if *e == end {
            return true;
        }
    }
    false
}
