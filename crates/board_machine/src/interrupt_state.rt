//! Interrupts of harts: pending and enabled ones, and wake.
ghost use Rattle.std.specs.Prelude.{◌≡◌, ◌<◌, [], IfOk, None, false, length};
ghost use Rattle.hart_mask.specs.Ids.{has, with_bit, without_id};
ghost use Rattle.interrupts.specs.Timing.{is_timer_pending, with_deadline, without_deadlines};
ghost use Rattle.board_rules.specs.Csrs.{enables, interrupt_bits};

use crate::csrs::Csrs;
use board_rules::{Sie, interrupt_bits};
use interrupts::{Ipis, Timers};
use std::alloc::{AllocError, Global};

/// The interrupt state of all harts: sstatus.SIE and sie, SSIP, and the time with the deadlines.
#[derive(Drop)]
pub struct Interrupts {
    pub csrs: Csrs,
    pub ipis: Ipis,
    pub timers: Timers,
}

impl Interrupts {
    /// A copy.
    ///
    /// # Errors
    ///
    /// Out of memory.
    pub(crate) fn try_copy(&self, alloc: Global) -> Result<Interrupts, AllocError>
        ensures { IfOk result (λ copy. copy ≡ self.now) }
    {
        let timers = self.timers.try_copy(alloc)?;
        Ok(Interrupts {
            csrs: self.csrs,
            ipis: self.ipis,
            timers,
        })
    }

    /// Becomes a copy of the interrupt state of as many harts. It allocates nothing.
    pub fn copy_from(&mut self, from: &Interrupts)
        requires { length self.old.timers.deadlines ≡ length from.now.timers.deadlines }
        ensures { self.new ≡ from.now }
    {
        self.csrs = from.csrs;
        self.ipis = from.ipis;
        self.timers.copy_from(&from.timers);
    }

    /// sip of hart `h`: SSIP in bit 1, and STIP in bit 5.
    pub(crate) fn sip(&self, h: u64) -> u64
        requires in_range { h < length self.now.timers.deadlines }
        requires most { h < 128 }
        ensures { result ≡ interrupt_bits (has self.now.ipis h) (is_timer_pending self.now.timers h) }
    {
        interrupt_bits(self.ipis.pending(h), self.timers.pending(h))
    }

    /// Whether a pending interrupt of hart `h` is enabled in its sie (Privileged 3.3.3, WFI).
    pub fn wake(&self, h: u64) -> bool
        requires in_range { h < length self.now.timers.deadlines }
        requires most { h < 128 }
        ensures { result ≡ enables (record { ssie = has self.now.csrs.ssie h; stie = has self.now.csrs.stie h })
            (has self.now.ipis h) (is_timer_pending self.now.timers h) }
    {
        let sie = self.csrs.sie(h);
        sie.enables(self.ipis.pending(h), self.timers.pending(h))
    }

    /// A reset: all interrupts are disabled, none is pending, no hart has a deadline, and the time stays (profile).
    pub(crate) fn reset(&mut self)
        ensures { self.new ≡ record {
          csrs = record { sstatus_sie = []; ssie = []; stie = [] };
          ipis = [];
          timers = without_deadlines self.old.timers;
        } }
    {
        self.csrs = Csrs::new();
        self.ipis.reset();
        self.timers.reset();
    }

    /// The entry of a start of hart `h`: sstatus.SIE becomes 0 (SBI 9.1), and so do sie and SSIP, and the deadline is
    /// removed (profile).
    pub(crate) fn enter(&mut self, h: u64)
        requires in_range { h < length self.old.timers.deadlines }
        requires most { h < 128 }
        ensures { self.new ≡ record {
          csrs = record {
            sstatus_sie = with_bit self.old.csrs.sstatus_sie h false;
            ssie = with_bit self.old.csrs.ssie h false;
            stie = with_bit self.old.csrs.stie h false;
          };
          ipis = without_id self.old.ipis h;
          timers = with_deadline self.old.timers h None;
        } }
    {
        self.csrs.sstatus_sie.set(h, false);
        self.csrs.write_sie(h, Sie::of(0));
        self.ipis.clear(h);
        self.timers.forget(h);
    }
}
