//! Whether a record has steps for the patterns of a condition.
ghost use Rattle.std.specs.Prelude.{◌≡◌, ◌↔◌, ◌⊎◌, List, length, true};
ghost use Rattle.conditions.specs.Vacuity.{HasFitting};
ghost use Rattle.marked_conditions.specs.Marked.{asks_of_marks};
ghost use Rattle.outcome_statistics.specs.Met.{AreNeedsMet, EachIsMet, HasFirst, HasSecond, IsEachFitting};
ghost use Rattle.outcome_statistics.specs.Records.{Tried};

use access_marks::Marks;
use board_core::Event;
use conditions::{NeedsMet, Pattern, Rule, has_fitting};
use marked_conditions::{asks_of_marks, see_needed};

/// Whether each pattern of a condition has a step in a record, whatever its reply.
pub fn is_met(rule: &Rule, events: &[Event]) -> bool
    ensures { (result ≡ true) ↔ IsEachFitting rule.now events.now }
{
    match rule {
        Rule::Never(p) => has_fitting(p, events),
        Rule::NeverAfter(p, q) => have_fitting(p, q, events),
        Rule::OfSome(p) => has_fitting(p, events),
        Rule::Each(p) => has_fitting(p, events),
        Rule::End(_) => true,
        Rule::Before(p, q) => have_fitting(p, q, events),
        Rule::CanEnd(_) => true,
    }
}

/// Whether each of two patterns has a step in a record, whatever its reply.
fn have_fitting(p: &Pattern, q: &Pattern, events: &[Event]) -> bool
    ensures { (result ≡ true) ↔ (HasFitting p.now events.now × HasFitting q.now events.now) }
{
    has_fitting(p, events) && has_fitting(q, events)
}

/// Adds the steps of a record that a condition needs. Its marks count if the condition asks of them.
pub(crate) fn see_needs(met: &mut NeedsMet, rule: &Rule, events: &[Event], marks: &[Marks])
    requires { asks_of_marks rule.now ≡ true → length events.now ≡ length marks.now }
    ensures first { (x : Tried) → x.events ≡ events.now → x.marks ≡ marks.now
        → (met.new.first ≡ true) ↔ ((met.old.first ≡ true) ⊎ HasFirst rule.now x) }
    ensures second { (x : Tried) → x.events ≡ events.now → x.marks ≡ marks.now
        → (met.new.second ≡ true) ↔ ((met.old.second ≡ true) ⊎ HasSecond rule.now x) }
{
    if asks_of_marks(rule) {
        see_needed(met, rule, events, marks);
    } else {
        met.see(rule, events);
    }
}

/// Whether each pattern of a condition has met its step, even if the condition doesn't need one.
pub fn is_each_met(rule: &Rule, met: NeedsMet) -> bool
    ensures { (tried : List Tried) → AreNeedsMet rule.now tried met → (result ≡ true) ↔ EachIsMet rule.now tried }
{
    match rule {
        Rule::Never(_) => met.first,
        Rule::NeverAfter(..) => are_both(met),
        Rule::OfSome(_) => met.first,
        Rule::Each(_) => met.first,
        Rule::End(_) => true,
        Rule::Before(..) => are_both(met),
        Rule::CanEnd(_) => true,
    }
}

/// Whether both patterns have met their steps.
fn are_both(met: NeedsMet) -> bool
    ensures { (result ≡ true) ↔ ((met.first ≡ true) × (met.second ≡ true)) }
{
    met.first && met.second
}
