//! Whether a condition is vacuous: whether some record has the steps that it needs.
ghost use Rattle.std.specs.Prelude.{◌≡◌, ◌≢◌, ◌↔◌, ◌⊎◌, ℕ, [], List, Option, Some, slice_get, true, false};
ghost use Rattle.board_core.specs.History.{Event as Step};
ghost use Rattle.condition_script.specs.declared.rules.Ending.{Ending as HowEnded};
ghost use Rattle.condition_script.specs.declared.rules.Rule.{Rule as RuleValue};
ghost use Rattle.conditions.specs.Vacuity.{HasFitting, HasMatching, IsOfCall, IsVacuous, MeetsFirst, MeetsSecond, NeedsFirst, NeedsSecond, SaysNothing};

use crate::patterns::fits_step;
use crate::rules::first_from;
use board_core::Event;
use condition_script::{Item, Name, Pattern, Rule};
use script_lines::OpName;

/// Which of the steps that a condition needs were met in some record.
#[derive(Clone, Copy, PartialEq, Eq)]
pub struct NeedsMet {
    /// The step of its first pattern.
    pub first: bool,
    /// The step of its second pattern.
    pub second: bool,
}

impl NeedsMet {
    /// Before any record.
    pub fn none() -> NeedsMet
        ensures first { result.first ≡ false }
        ensures second { result.second ≡ false }
    {
        NeedsMet {
            first: false,
            second: false,
        }
    }

    /// Adds the steps of a record.
    pub fn see(&mut self, rule: &Rule, events: &[Event])
        ensures first { (self.new.first ≡ true) ↔ ((self.old.first ≡ true) ⊎ MeetsFirst rule.now events.now) }
        ensures second { (self.new.second ≡ true) ↔ ((self.old.second ≡ true) ⊎ MeetsSecond rule.now events.now) }
    {
        self.first = self.first || meets_first(rule, events);
        self.second = self.second || meets_second(rule, events);
    }

    /// Adds what other records met.
    pub fn add(&mut self, other: NeedsMet)
        ensures first { (self.new.first ≡ true) ↔ ((self.old.first ≡ true) ⊎ (other.first ≡ true)) }
        ensures second { (self.new.second ≡ true) ↔ ((self.old.second ≡ true) ⊎ (other.second ≡ true)) }
    {
        self.first = self.first || other.first;
        self.second = self.second || other.second;
    }

    /// Whether the condition's first pattern needs a step that no record has.
    pub fn lacks_first(self, rule: &Rule) -> bool
        ensures { (result ≡ true) ↔ (NeedsFirst rule.now × (self.first ≡ false)) }
    {
        !self.first && needs_first(rule)
    }

    /// Whether its second pattern does.
    pub fn lacks_second(self, rule: &Rule) -> bool
        ensures { (result ≡ true) ↔ (NeedsSecond rule.now × (self.second ≡ false)) }
    {
        !self.second && needs_second(rule)
    }
}

/// A vacuous condition says nothing: each of these records meets it, and none meets `some`. A law: there is nothing to run.
pub fn vacuous_conditions_say_nothing()
    ensures { (rule : RuleValue) (records : List (List Step)) → IsVacuous rule records
        → (k : ℕ) (events : List Step) (end : Option HowEnded) → slice_get records k ≡ Some events
        → SaysNothing rule events end }
{}

/// Whether a record has the step that the first pattern needs.
fn meets_first(rule: &Rule, events: &[Event]) -> bool
    ensures { (result ≡ true) ↔ MeetsFirst rule.now events.now }
{
    match rule {
        Rule::Never(p) => has_fitting(p, events),
        Rule::NeverAfter(p, _) => has_fitting(p, events),
        Rule::OfSome(p) => has_fitting(p, events),
        Rule::Each(p) => has_fitting(p, events),
        Rule::Before(p, _) => has_fitting(p, events),
        Rule::End(_) | Rule::CanEnd(_) => false,
    }
}

/// Whether it has the step that the second one needs.
fn meets_second(rule: &Rule, events: &[Event]) -> bool
    ensures { (result ≡ true) ↔ MeetsSecond rule.now events.now }
{
    match rule {
        Rule::NeverAfter(_, q) => has_matching(q, events),
        Rule::Before(_, q) => has_fitting(q, events),
        Rule::Never(_) | Rule::OfSome(_) | Rule::Each(_) | Rule::End(_) | Rule::CanEnd(_) => false,
    }
}

/// Whether some step has an actor and an operation that fit, whatever its reply.
pub fn has_fitting(p: &Pattern, events: &[Event]) -> bool
    ensures { (result ≡ true) ↔ HasFitting p.now events.now }
{
    for event in events {
        if fits_step(p, event) {
            return true;
        }
    }
    false
}

/// Whether a pattern matches some step.
fn has_matching(q: &Pattern, events: &[Event]) -> bool
    ensures { (result ≡ true) ↔ HasMatching q.now events.now }
{
    first_from(q, events, 0).is_some()
}

/// Whether a condition needs a step for its first pattern.
fn needs_first(rule: &Rule) -> bool
    ensures { (result ≡ true) ↔ NeedsFirst rule.now }
{
    match rule {
        Rule::Never(p) => has_reply(p) && !is_of_call(p),
        Rule::NeverAfter(p, _) => has_reply(p) && !is_of_call(p),
        Rule::OfSome(p) => has_reply(p),
        Rule::Each(_) | Rule::Before(_, _) => true,
        Rule::End(_) | Rule::CanEnd(_) => false,
    }
}

/// Whether it needs one for its second pattern.
fn needs_second(rule: &Rule) -> bool
    ensures { (result ≡ true) ↔ NeedsSecond rule.now }
{
    match rule {
        Rule::NeverAfter(_, _) | Rule::Before(_, _) => true,
        Rule::Never(_) | Rule::OfSome(_) | Rule::Each(_) | Rule::End(_) | Rule::CanEnd(_) => false,
    }
}

/// Whether a pattern has a reply.
fn has_reply(p: &Pattern) -> bool
    ensures { (result ≡ true) ↔ (p.now.reply.items ≢ []) }
{
    !p.reply.is_empty()
}

/// Whether a pattern's operation is a call.
fn is_of_call(p: &Pattern) -> bool
    ensures { (result ≡ true) ↔ IsOfCall p.now }
{
    p.step.get(1) == Some(&Some(Item::Word(Name::Op(OpName::Ecall))))
}
