//! How many orders ended in which way.
ghost use Rattle.std.specs.Prelude.{◌≡◌, ◌↔◌, ◌∷◌, ◌++◌, List, Some, true, false, []};
ghost use Rattle.conditions.specs.Ending.{Ending as HowEnded};
ghost use Rattle.conditions.specs.Endings.{ending};
ghost use Rattle.outcome_statistics.specs.Records.{Tried};
ghost use Rattle.outcome_statistics.specs.Findings.{AreEnded, HaveEnded, HaveSomeEnd};
ghost use Rattle.outcome_statistics.specs.Judgements.{NoneEnded};

use guest_programs::End;

/// How many orders ended in which way.
#[derive(Clone, Copy, PartialEq, Eq)]
pub struct Ends {
    /// The power was off.
    pub off: u64,
    /// The limit cut them off.
    pub full: u64,
    /// Each hart was done.
    pub quiet: u64,
    /// Some hart wasn't, and none went on.
    pub stuck: u64,
}

impl Ends {
    /// Before any order was tried.
    pub fn new() -> Ends
        ensures { AreEnded [] result }
    {
        Ends {
            off: 0,
            full: 0,
            quiet: 0,
            stuck: 0,
        }
    }

    /// Adds an order with this end.
    pub fn see(&mut self, end: End)
        ensures { (tried : List Tried) (x : Tried) → x.end ≡ ending end → AreEnded tried self.old
            → AreEnded (x ∷ tried) self.new }
    {
        self.off = counted(self.off, is(end, End::Off));
        self.full = counted(self.full, is(end, End::HistoryFull));
        self.quiet = counted(self.quiet, is(end, End::Quiet));
        self.stuck = counted(self.stuck, is(end, End::Stuck));
    }

    /// Adds the ends of other orders.
    pub fn add(&mut self, later: Ends)
        ensures { (tried more : List Tried) → AreEnded tried self.old → AreEnded more later
            → AreEnded (more ++ tried) self.new }
    {
        self.off = self.off.saturating_add(later.off);
        self.full = self.full.saturating_add(later.full);
        self.quiet = self.quiet.saturating_add(later.quiet);
        self.stuck = self.stuck.saturating_add(later.stuck);
    }

    /// Whether some order ended without being cut off by the limit.
    pub fn some_ended(&self) -> bool
        ensures { result ≡ false → NoneEnded self.now }
    {
        self.off > 0 || self.quiet > 0 || self.stuck > 0
    }

    /// How many orders were tried, counted up to 2^64-1.
    pub fn orders(&self) -> u64
        ensures { (tried : List Tried) → AreEnded tried self.now → HaveSomeEnd tried result }
    {
        self.off
            .saturating_add(self.full)
            .saturating_add(self.quiet)
            .saturating_add(self.stuck)
    }
}

/// A count, one higher if the test holds.
fn counted(count: u64, is_such: bool) -> u64
    ensures { (ended : HowEnded) (x : Tried) (xs : List Tried) → (is_such ≡ true) ↔ (x.end ≡ Some ended)
        → HaveEnded ended xs count → HaveEnded ended (x ∷ xs) result }
{
    if is_such {
        count.saturating_add(1)
    } else {
        count
    }
}

/// Whether an end is this one.
pub(crate) fn is(end: End, named: End) -> bool
    ensures { (result ≡ true) ↔ (end ≡ named) }
{
    end == named
}
