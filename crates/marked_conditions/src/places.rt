//! Where a record fails a condition that asks of marks.
ghost use Rattle.std.specs.Prelude.{◌≡◌, length};
ghost use Rattle.condition_script.specs.declared.rules.Rule.TheVariants.{NeverAfter};
ghost use Rattle.marked_conditions.specs.Marked.{IsFailingWith, asks, asks_of_marks, asks_of_walks, is_of_walks, mark_of};

use crate::patterns::mark_of;
use crate::rules::{first_unfit, first_with};
use access_marks::Marks;
use board_core::Event;
use conditions::{Mark, Pattern, Rule};

/// Whether a condition asks of marks.
pub fn asks_of_marks(rule: &Rule) -> bool
    ensures { result ≡ asks_of_marks rule.now }
{
    match rule {
        Rule::Never(p) => asks(p),
        Rule::NeverAfter(p, q) => asks(p) || asks(q),
        Rule::OfSome(p) => asks(p),
        Rule::Each(p) => asks(p),
        Rule::Before(p, q) => asks(p) || asks(q),
        Rule::End(_) | Rule::CanEnd(_) => false,
    }
}

fn asks(p: &Pattern) -> bool
    ensures { result ≡ asks p.now }
{
    mark_of(p).is_some()
}

/// Whether a condition asks which accesses aren't firm or lenient.
pub fn asks_of_walks(rule: &Rule) -> bool
    ensures { result ≡ asks_of_walks rule.now }
{
    match rule {
        Rule::Never(p) | Rule::OfSome(p) | Rule::Each(p) => is_of_walks(p),
        Rule::NeverAfter(p, q) | Rule::Before(p, q) => is_of_walks(p) || is_of_walks(q),
        Rule::End(_) | Rule::CanEnd(_) => false,
    }
}

fn is_of_walks(p: &Pattern) -> bool
    ensures { result ≡ is_of_walks (mark_of p.now) }
{
    match mark_of(p) {
        Some(Mark::Unfirm | Mark::Unlenient) => true,
        Some(Mark::Stale | Mark::Missed | Mark::Unsteady) | None => false,
    }
}

/// The place of the first step with which a record fails a condition: for `before` the first that its second pattern matches; for
/// `some` there is none, nor is there for ends.
pub fn failing_step_with(rule: &Rule, events: &[Event], marks: &[Marks]) -> Option<usize>
    requires { length events.now ≡ length marks.now }
    ensures { IsFailingWith rule.now events.now marks.now result }
{
    match rule {
        Rule::Never(p) => first_with(p, events, marks, 0),
        Rule::NeverAfter(p, q) => failing_after(p, q, events, marks),
        Rule::OfSome(_) => None,
        Rule::Each(p) => first_unfit(p, events, marks),
        Rule::End(_) => None,
        Rule::Before(_, q) => first_with(q, events, marks, 0),
        Rule::CanEnd(_) => None,
    }
}

/// The place of the first step that P matches behind the first that Q matches.
fn failing_after(p: &Pattern, q: &Pattern, events: &[Event], marks: &[Marks]) -> Option<usize>
    requires { length events.now ≡ length marks.now }
    ensures { IsFailingWith (NeverAfter p.now q.now) events.now marks.now result }
{
    match first_with(q, events, marks, 0) {
        Some(first) => first_with(p, events, marks, first + 1),
        None => None,
    }
}
