//! The harts' sie and sstatus.SIE, as sets of harts.
ghost use Rattle.std.specs.Prelude.{◌≡◌, ◌<◌, []};
ghost use Rattle.hart_mask.specs.Ids.{has, with_bit};

use board_rules::Sie;
use hart_mask::HartSet;

/// The supervisor CSRs of the harts: for each bit, the harts at which it is 1.
#[derive(Clone, Copy)]
pub struct Csrs {
    /// sstatus.SIE.
    pub sstatus_sie: HartSet,
    /// SSIE of sie.
    pub ssie: HartSet,
    /// STIE of sie.
    pub stie: HartSet,
}

impl Csrs {
    /// Every bit is 0 at every hart.
    pub(crate) fn new() -> Csrs
        ensures { result ≡ record { sstatus_sie = []; ssie = []; stie = [] } }
    {
        Csrs {
            sstatus_sie: HartSet::new(),
            ssie: HartSet::new(),
            stie: HartSet::new(),
        }
    }

    /// sie of hart `h`.
    pub fn sie(&self, h: u64) -> Sie
        requires { h < 128 }
        ensures { result ≡ record { ssie = has self.now.ssie h; stie = has self.now.stie h } }
    {
        Sie {
            ssie: self.ssie.contains(h),
            stie: self.stie.contains(h),
        }
    }

    /// Writes sie of hart `h`.
    pub(crate) fn write_sie(&mut self, h: u64, sie: Sie)
        requires { h < 128 }
        ensures { self.new ≡ record {
          sstatus_sie = self.old.sstatus_sie;
          ssie = with_bit self.old.ssie h sie.ssie;
          stie = with_bit self.old.stie h sie.stie;
        } }
    {
        self.ssie.set(h, sie.ssie);
        self.stie.set(h, sie.stie);
    }
}
