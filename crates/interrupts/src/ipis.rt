//! The harts with a pending software interrupt.

ghost use Rattle.std.specs.Prelude.{◌≡◌, ◌<◌, [], Ok};
ghost use Rattle.hart_mask.specs.Ids.{IsIdSet, has, union_of, without_id};

use hart_mask::HartSet;
use std::alloc::AllocError;
use std::marker::Model;

/// The harts with SSIP = 1: at each a supervisor software interrupt is pending (Privileged 4.1.3, SBI 7).
#[derive(Clone, Copy, Debug)]
pub struct Ipis {
    harts: HartSet,
}

impl Model for Ipis {
    ghost use Rattle.std.specs.Prelude.{List, ℕ};

    ghost Value = { List ℕ };

    ghost view = { λ ipis. ipis.harts };

    ghost inverse = { λ ids. record { harts = ids } };
}

impl Ipis {
    /// SSIP is 0 at every hart.
    pub fn new() -> Ipis
        ensures { result ≡ [] }
    {
        Ipis {
            harts: HartSet::new(),
        }
    }

    /// A copy. It allocates nothing, and never fails.
    pub fn try_copy(&self) -> Result<Ipis, AllocError>
        ensures { result ≡ Ok self.now }
    {
        Ok(*self)
    }

    /// SSIP becomes 1 at each target, and stays what it is at the other harts (SBI 7.1).
    pub fn send(&mut self, targets: HartSet)
        ensures { self.new ≡ union_of self.old targets }
    {
        self.harts = self.harts.union(targets);
    }

    /// SSIP of hart `h` becomes 0 (Privileged 4.1.3).
    pub fn clear(&mut self, h: u64)
        requires { h < 128 }
        ensures { self.new ≡ without_id self.old h }
    {
        self.harts.remove(h);
    }

    /// SSIP of hart `h`.
    pub fn pending(&self, h: u64) -> bool
        requires { h < 128 }
        ensures answer { result ≡ has self.now h }
        ensures whole { IsIdSet self.now }
    {
        self.harts.contains(h)
    }

    /// The harts at which SSIP is 1.
    pub fn harts(&self) -> HartSet
        ensures { result ≡ self.now }
    {
        self.harts
    }

    /// SSIP becomes 0 at every hart, as at a reset of the board (profile).
    pub fn reset(&mut self)
        ensures { self.new ≡ [] }
    {
        *self = Ipis::new();
    }
}
