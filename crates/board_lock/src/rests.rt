//! Rests: which seats rest, and until when.
ghost use Rattle.std.specs.Prelude.{◌≡◌, ◌↔◌, ℕ, ◌<◌, ◌≤◌, [], IsTrue, false};
ghost use Rattle.board_terms.specs.declared.op.Actor.TheVariants.{Hart};
ghost use Rattle.hart_mask.specs.Ids.{IsIdSet};
ghost use Rattle.board_lock.specs.Inside.Rests.{AllRest, IsRests, awake, for_firmware, for_wake, is_any, less, none_rest, resting};

use board_core::{Actor, HartSet};

/// Why a rest ended.
#[derive(Clone, Copy, Debug, PartialEq, Eq)]
pub enum Rest {
    /// The number of events isn't the one that the seat had seen; or, for a seat that waits for something, that has
    /// come.
    Changed,
    /// Every seat rested, or an end was asked for. From then on every rest ends so.
    AllRest,
}

/// What a resting seat waits for, besides the end of all rests.
#[derive(Clone, Copy, Debug, PartialEq, Eq)]
pub enum Awaits {
    /// The firmware of its hart has something to do: to serve a fence, to end a fence call, or to advance the hart.
    Firmware,
    /// The same, or wake, if its hart's guest is at a WFI.
    Wake,
    /// Nothing.
    End,
}

/// What ends a seat's rest, besides the end of all rests.
#[derive(Clone, Copy, Debug)]
pub(crate) enum Until {
    /// Any event.
    Event,
    /// What it waits for has come to its hart.
    For(Awaits),
}

impl Until {
    /// Whether any event ends the rest.
    fn is_any(self) -> bool
        ensures { result ≡ is_any self }
    {
        matches!(self, Until::Event)
    }

    /// Whether work for its hart's firmware ends the rest.
    fn is_firmware(self) -> bool
        ensures { result ≡ for_firmware self }
    {
        matches!(self, Until::For(Awaits::Firmware | Awaits::Wake))
    }

    /// Whether its hart's wake ends the rest too.
    fn is_wake(self) -> bool
        ensures { result ≡ for_wake self }
    {
        matches!(self, Until::For(Awaits::Wake))
    }
}

/// The seats that rest, and what ends their rests.
#[derive(Clone, Copy, Debug)]
pub(crate) struct Rests {
    /// The harts whose seats rest.
    pub(crate) harts: HartSet,
    /// Among them, those whose rest any event ends.
    pub(crate) events: HartSet,
    /// Among them, those whose rest work for their hart's firmware ends.
    pub(crate) firmware: HartSet,
    /// Among the latter, those whose rest wake ends too.
    pub(crate) wakes: HartSet,
    /// Whether the clock's seat rests.
    pub(crate) clock: bool,
    /// Whether any event ends the clock's rest.
    pub(crate) clock_events: bool,
}

/// Seats that are woken: their rest is over.
#[derive(Clone, Copy, Debug)]
pub(crate) struct Woken {
    /// The harts.
    pub(crate) harts: HartSet,
    /// Whether the clock's seat is woken too.
    pub(crate) clock: bool,
}

impl Rests {
    /// No seat rests.
    pub(crate) fn new() -> Rests
        ensures { result ≡ none_rest }
    {
        Rests {
            harts: HartSet::new(),
            events: HartSet::new(),
            firmware: HartSet::new(),
            wakes: HartSet::new(),
            clock: false,
            clock_events: false,
        }
    }

    /// The actor's seat rests.
    pub(crate) fn insert(&mut self, actor: Actor, until: Until)
        requires { (h : ℕ) → actor ≡ Hart h → h < 128 }
        ensures { self.new ≡ resting self.old actor until }
    {
        match actor {
            Actor::Hart(h) => {
                self.harts.insert(h);
                self.events.set(h, until.is_any());
                self.firmware.set(h, until.is_firmware());
                self.wakes.set(h, until.is_wake());
            }
            Actor::Clock => {
                self.clock = true;
                self.clock_events = until.is_any();
            }
        }
    }

    /// These seats no longer rest.
    pub(crate) fn end(&mut self, woken: Woken)
        requires { IsIdSet self.old.harts }
        ensures { self.new ≡ awake self.old woken }
    {
        self.harts = less(self.harts, woken.harts);
        self.clock = self.clock && !woken.clock;
    }

    /// Whether no seat rests.
    pub(crate) fn is_none(&self) -> bool
        ensures { IsTrue result ↔ (self.now.harts ≡ []) × (self.now.clock ≡ false) }
    {
        self.harts.is_empty() && !self.clock
    }

    /// Whether all of so many harts rest, and the clock.
    pub(crate) fn is_all(&self, harts: u64) -> bool
        requires small { harts ≤ 128 }
        requires rests { IsRests harts self.now }
        ensures { IsTrue result ↔ AllRest harts self.now }
    {
        self.clock && self.harts == HartSet::below(harts)
    }
}

/// The harts of a set that aren't in another.
fn less(harts: HartSet, others: HartSet) -> HartSet
    requires { IsIdSet harts }
    ensures { result ≡ less harts others }
{
    let mut kept = harts;
    let mut left = others;
    while let Some(h) = left.pop_first() {
        kept.remove(h);
    }
    kept
}
