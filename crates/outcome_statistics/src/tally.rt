//! How many records meet a condition.
ghost use Rattle.std.specs.Prelude.{◌≡◌, ◌↔◌, ◌∷◌, ◌++◌, ◌-◌, ◌^◌, List, Option, Some, length, min, true, []};
ghost use Rattle.conditions.specs.Rule.{Rule as Asked};
ghost use Rattle.outcome_statistics.specs.Records.{AllMeet, EachIs, IsSo, SomeIs, Tells, Tried};

use conditions::Rule;

/// How many of the tried records pass.
#[derive(Clone, Copy, PartialEq, Eq)]
pub struct Tally {
    /// How many pass.
    pub holding: u64,
    /// How many fail.
    pub failing: u64,
    /// The number of the first that fails.
    pub first: Option<u64>,
}

impl Tally {
    /// Before any record was tried.
    pub fn new() -> Tally
        ensures { (asked : Option Asked) → Tells (IsSo asked) [] result }
    {
        Tally {
            holding: 0,
            failing: 0,
            first: None,
        }
    }

    /// Adds the record of this number.
    pub fn see(&mut self, number: u64, holds: bool)
        ensures { (asked : Option Asked) (tried : List Tried) (x : Tried) → x.number ≡ number
            → (holds ≡ true) ↔ IsSo asked x
            → Tells (IsSo asked) tried self.old → Tells (IsSo asked) (x ∷ tried) self.new }
    {
        if holds {
            self.holding = self.holding.saturating_add(1);
            return;
        }
        self.failing = self.failing.saturating_add(1);
        if self.first.is_none() {
            self.first = Some(number);
        }
    }

    /// Adds the tally of later records.
    pub fn add(&mut self, later: Tally)
        ensures { (asked : Option Asked) (tried more : List Tried) → Tells (IsSo asked) tried self.old
            → Tells (IsSo asked) more later
            → Tells (IsSo asked) (more ++ tried) self.new }
    {
        self.holding = self.holding.saturating_add(later.holding);
        self.failing = self.failing.saturating_add(later.failing);
        if self.first.is_none() {
            self.first = later.first;
        }
    }

    /// How many records were tried, counted up to 2^64-1.
    pub fn tried(&self) -> u64
        ensures { (asked : Option Asked) (tried : List Tried) → Tells (IsSo asked) tried self.now
            → result ≡ min (length tried) (2 ^ 64 - 1) }
    {
        self.holding.saturating_add(self.failing)
    }

    /// Whether each record passes.
    pub fn is_each(&self) -> bool
        ensures { (asked : Option Asked) (tried : List Tried) → Tells (IsSo asked) tried self.now
            → (result ≡ true) ↔ EachIs (IsSo asked) tried }
    {
        self.failing == 0
    }

    /// Whether some record passes.
    pub fn is_some(&self) -> bool
        ensures { (asked : Option Asked) (tried : List Tried) → Tells (IsSo asked) tried self.now
            → (result ≡ true) ↔ SomeIs (IsSo asked) tried }
    {
        self.holding > 0
    }

    /// Whether a condition holds of all records together: for `some` one meets it, otherwise each does.
    pub fn all_meet(&self, rule: &Rule) -> bool
        ensures { (tried : List Tried) → Tells (IsSo (Some rule.now)) tried self.now
            → (result ≡ true) ↔ AllMeet rule.now tried }
    {
        match rule {
            Rule::OfSome(_) => self.is_some(),
            Rule::Never(_) => self.is_each(),
            Rule::NeverAfter(..) => self.is_each(),
            Rule::Each(_) => self.is_each(),
            Rule::End(_) => self.is_each(),
            Rule::Before(..) => self.is_each(),
            Rule::CanEnd(_) => self.is_each(),
        }
    }
}
