//! The harts that a fence call waits for.

ghost use Rattle.std.specs.Prelude.{◌≡◌, ◌<◌, ◌==◌, length, not};
ghost use Rattle.hart_mask.specs.Ids.{without_id};

use hart_mask::HartSet;
use std::marker::Model;

/// The harts that a fence call waits for, and their number.
#[derive(Clone, Copy)]
pub struct Awaited {
    harts: HartSet,
    count: u64,
}

impl Model for Awaited {
    ghost use Rattle.std.specs.Prelude.{◌≡◌, List, ℕ, length};
    ghost use Rattle.std.proofs.Common.{sym};

    ghost Value = { List ℕ };

    ghost view = { λ awaited. awaited.harts };

    ghost invariant = { λ awaited. awaited.count ≡ length awaited.harts };

    ghost inverse = { λ ids. record { harts = ids; count = length ids } };

    ghost inverse_ok = { λ awaited counted i. record { harts = awaited.harts; count = sym counted i } };
}

impl Awaited {
    /// A call that waits for these harts.
    pub fn new(harts: HartSet) -> Awaited
        ensures { result ≡ harts }
    {
        let count = harts.len();
        Awaited { harts, count }
    }

    /// The harts as a set.
    pub fn harts(&self) -> HartSet
        ensures { result ≡ self.now }
    {
        self.harts
    }

    /// Whether the call waits for some hart.
    pub fn is_some(&self) -> bool
        ensures { result ≡ not (length self.now == 0) }
    {
        self.count != 0
    }

    /// The call no longer waits for hart `t`.
    pub fn remove(&mut self, t: u64)
        requires { t < 128 }
        ensures { self.new ≡ without_id self.old t }
    {
        let is_there = self.harts.contains(t);
        self.harts.remove(t);
        self.count -= u64::from(is_there);
    }
}
