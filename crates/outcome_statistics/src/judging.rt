//! A record, judged by a condition.
ghost use Rattle.std.specs.Prelude.{◌≡◌, ◌↔◌, ◌∷◌, List, MatchOption, Some, length, true};
ghost use Rattle.conditions.specs.Rule.TheVariants.{NeverAfter};
ghost use Rattle.marked_conditions.specs.Marked.{asks_of_marks};
ghost use Rattle.outcome_statistics.specs.Failing.{IsFailingStep, IsLast};
ghost use Rattle.outcome_statistics.specs.Records.{HoldsOf, IsSo, IsSpared, Meets, Tells, Tried};

use crate::tally::Tally;
use access_marks::Marks;
use board_core::Event;
use conditions::{Ending, Pattern, Rule, first_from, first_other_reply, holds};
use marked_conditions::{asks_of_marks, holds_with};

/// Judges a record of this number by a condition. Its marks count if the condition asks of them.
pub fn judge(
    rule: &Rule,
    tally: &mut Tally,
    number: u64,
    events: &[Event],
    marks: &[Marks],
    end: Option<Ending>,
)
    requires { asks_of_marks rule.now ≡ true → length events.now ≡ length marks.now }
    ensures { (tried : List Tried) (x : Tried) → x.number ≡ number → x.events ≡ events.now → x.marks ≡ marks.now → x.end ≡ end
        → Tells (IsSo (Some rule.now)) tried tally.old → Tells (IsSo (Some rule.now)) (x ∷ tried) tally.new }
{
    let holds = meets(rule, events, marks, end);
    tally.see(number, holds);
}

/// Whether a record meets a condition. Its marks count if the condition asks of them.
pub fn meets(rule: &Rule, events: &[Event], marks: &[Marks], end: Option<Ending>) -> bool
    requires { asks_of_marks rule.now ≡ true → length events.now ≡ length marks.now }
    ensures { (x : Tried) → x.events ≡ events.now → x.marks ≡ marks.now → x.end ≡ end → (result ≡ true) ↔ Meets rule.now x }
{
    is_spared(rule, end) || holds_of(rule, events, marks, end)
}

/// Whether a record meets a condition that says something of it.
fn holds_of(rule: &Rule, events: &[Event], marks: &[Marks], end: Option<Ending>) -> bool
    requires { asks_of_marks rule.now ≡ true → length events.now ≡ length marks.now }
    ensures { (x : Tried) → x.events ≡ events.now → x.marks ≡ marks.now → x.end ≡ end
        → (result ≡ true) ↔ HoldsOf (asks_of_marks rule.now) rule.now x }
{
    if asks_of_marks(rule) {
        holds_with(rule, events, marks, end)
    } else {
        holds(rule, events, end)
    }
}

/// Whether a condition on ends says nothing of a record, since the limit cut it off.
fn is_spared(rule: &Rule, end: Option<Ending>) -> bool
    ensures { (result ≡ true) ↔ IsSpared rule.now end }
{
    match rule {
        Rule::End(_) => end == Some(Ending::HistoryFull),
        Rule::Never(_)
        | Rule::NeverAfter(..)
        | Rule::OfSome(_)
        | Rule::Each(_)
        | Rule::Before(..)
        | Rule::CanEnd(_) => false,
    }
}

/// The place of the first step with which a record fails a condition: for `before` the first that its second pattern matches, for
/// `end` and without a condition the last; for `some` and `can end` there is none.
pub fn failing_step(rule: Option<&Rule>, events: &[Event]) -> Option<usize>
    ensures { MatchOption rule.entry (IsLast events.now result) (λ asked. IsFailingStep asked.now events.now result) }
{
    match rule {
        Some(rule) => failing_step_of(rule, events),
        None => last_place(events),
    }
}

/// The same for a condition.
fn failing_step_of(rule: &Rule, events: &[Event]) -> Option<usize>
    ensures { IsFailingStep rule.now events.now result }
{
    match rule {
        Rule::Never(p) => first_from(p, events, 0),
        Rule::NeverAfter(p, q) => failing_after(p, q, events),
        Rule::Each(p) => first_other_reply(p, events),
        Rule::Before(_, q) => first_from(q, events, 0),
        Rule::OfSome(_) => None,
        Rule::CanEnd(_) => None,
        Rule::End(_) => last_place(events),
    }
}

/// The place of the first step that P matches and that comes later than one that Q matches.
fn failing_after(p: &Pattern, q: &Pattern, events: &[Event]) -> Option<usize>
    ensures { IsFailingStep (NeverAfter p.now q.now) events.now result }
{
    match first_from(q, events, 0) {
        Some(first) => first_from(p, events, first + 1),
        None => None,
    }
}

/// The place of the last step, if there is one.
fn last_place(events: &[Event]) -> Option<usize>
    ensures { IsLast events.now result }
{
    if events.is_empty() {
        None
    } else {
        Some(events.len() - 1)
    }
}
