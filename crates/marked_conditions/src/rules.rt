//! Whether a record with marks meets a condition.
ghost use Rattle.std.specs.Prelude.{◌↔◌, ◌≡◌, ◌<◌, ◌≤◌, ℕ, MatchOption, false, length, true};
ghost use Rattle.conditions.specs.Patterns.{FitsStep};
ghost use Rattle.marked_conditions.specs.Marked.{AnswersFit, FitsMark, HoldsWith, IsAtWith, IsFirstPlace, IsUnfitWith, mark_of};

use crate::patterns::{fits_mark, matches_with};
use access_marks::Marks;
use board_core::Event;
use conditions::{Ending, Pattern, Rule, fits_step, names_end};

/// Whether a record meets a condition: the accepted steps, oldest first, each with its marks, and, for a program, how the run
/// ended.
pub fn holds_with(rule: &Rule, events: &[Event], marks: &[Marks], end: Option<Ending>) -> bool
    requires { length events.now ≡ length marks.now }
    ensures { (result ≡ true) ↔ HoldsWith rule.now events.now marks.now end }
{
    match rule {
        Rule::Never(p) => first_with(p, events, marks, 0).is_none(),
        Rule::NeverAfter(p, q) => no_later(p, q, events, marks),
        Rule::OfSome(p) => first_with(p, events, marks, 0).is_some(),
        Rule::Each(p) => first_unfit(p, events, marks).is_none(),
        Rule::End(_) => names_end(rule, end),
        Rule::Before(p, q) => is_before(p, q, events, marks),
        Rule::CanEnd(_) => false,
    }
}

/// The first step from a place on that a pattern matches with its marks, if there is one.
pub fn first_with(p: &Pattern, events: &[Event], marks: &[Marks], from: usize) -> Option<usize>
    requires { length events.now ≡ length marks.now }
    ensures { MatchOption result ((k : ℕ) → from ≤ k → ¬ IsAtWith p.now events.now marks.now k)
        (IsFirstPlace (IsAtWith p.now events.now marks.now) from) }
{
    for k in from..events.len() {
        if matches_with(p, &events[k], marks[k]) {
            return Some(k);
        }
    }
    None
}

/// Whether no step that P matches comes later than one that Q matches.
fn no_later(p: &Pattern, q: &Pattern, events: &[Event], marks: &[Marks]) -> bool
    requires { length events.now ≡ length marks.now }
    ensures { (result ≡ true)
        ↔ ((j k : ℕ) → j < k → IsAtWith q.now events.now marks.now j → ¬ IsAtWith p.now events.now marks.now k) }
{
    match first_with(q, events, marks, 0) {
        Some(j) => first_with(p, events, marks, j + 1).is_none(),
        None => true,
    }
}

/// Whether the first step that P matches comes before the first that Q matches, if both come.
fn is_before(p: &Pattern, q: &Pattern, events: &[Event], marks: &[Marks]) -> bool
    requires { length events.now ≡ length marks.now }
    ensures { (result ≡ true) ↔ ((j k : ℕ) → IsFirstPlace (IsAtWith p.now events.now marks.now) 0 j
        → IsFirstPlace (IsAtWith q.now events.now marks.now) 0 k → j < k) }
{
    let Some(j) = first_with(p, events, marks, 0) else {
        return true;
    };
    match first_with(q, events, marks, 0) {
        Some(k) => j < k,
        None => true,
    }
}

/// The first step whose actor and operation fit a pattern, and which has another mark, or a reply that doesn't fit.
pub fn first_unfit(p: &Pattern, events: &[Event], marks: &[Marks]) -> Option<usize>
    requires { length events.now ≡ length marks.now }
    ensures { MatchOption result (AnswersFit p.now events.now marks.now)
        (IsFirstPlace (IsUnfitWith p.now events.now marks.now) 0) }
{
    for k in 0..events.len() {
        if !answers(p, &events[k], marks[k]) {
            return Some(k);
        }
    }
    None
}

/// Whether a step has a pattern's mark, or a reply that fits, if its actor and operation fit.
fn answers(p: &Pattern, event: &Event, marks: Marks) -> bool
    ensures fits { result ≡ true → FitsStep p.now event.now → FitsMark (mark_of p.now) p.now event.now marks }
    ensures unfit { result ≡ false
        → FitsStep p.now event.now × ¬ FitsMark (mark_of p.now) p.now event.now marks }
{
    !fits_step(p, event) || fits_mark(p, event, marks)
}
