//! The states of all harts of a board: what each call and the firmware's own step do to them.

ghost use Rattle.std.specs.Prelude.{◌≡◌, ◌<◌, ◌≤◌, IfOk, count_by, length, option_map, is_ok, is_some, false, slice_set};
ghost use Rattle.hsm.specs.Transitions.{advanced, changed, hart_at, hart_at_opening, opening, reset_to, started, stopped, suspended};
ghost use Rattle.hsm.specs.States.{goes_on, is_in_suspend, is_start_pending};
ghost use Rattle.hsm.specs.Interruptible.{interruptible_ids};
ghost use Rattle.hsm.specs.Inside.Phases.{hart_of};

use crate::hart::{AlreadyAvailable, EntryPoint, HartState, Moved};
use crate::phase::{Phase, kept_by};
use hart_mask::HartSet;
use sbi_abi::SuspendKind;
use std::alloc::{AllocError, Global};
use std::marker::Model;

/// The states of a board's harts, by their ids.
#[derive(Debug, Drop)]
pub struct Hsm {
    phases: Vec<Phase>,
    interruptible: HartSet,
}

impl Model for Hsm {
    ghost use Rattle.std.specs.Prelude.{◌≡◌, List, map, vec_capacity, vec_len};
    ghost use Rattle.hsm.specs.Harts.{Hart};

    ghost Value = { List Hart };

    ghost use Rattle.hsm.specs.Inside.Phases.{AreKept, hart_of};

    ghost view = { λ m. map hart_of m.phases.items };

    ghost invariant = { λ m. AreKept (map hart_of m.phases.items) m.interruptible
        × (vec_capacity m.phases ≡ vec_len m.phases) };
}

impl Hsm {
    /// The boot hart's start is pending, and the other harts are STOPPED (profile).
    ///
    /// # Errors
    ///
    /// Out of memory.
    pub fn new(
        alloc: Global,
        harts: u64,
        boot_hart: u64,
        boot: EntryPoint,
    ) -> Result<Hsm, AllocError>
        requires limit { harts ≤ 128 }
        requires boot_hart { boot_hart < harts }
        ensures { IfOk result (λ hsm. hsm ≡ opening harts boot_hart boot) }
    {
        let mut phases = Vec::with_capacity(alloc, harts as usize)?;
        for h in 0..harts {
            phases.push_reserved(opening_phase(boot_hart, boot, h));
        }
        Ok(Hsm {
            phases,
            interruptible: HartSet::new(),
        })
    }

    /// A copy of these states.
    ///
    /// # Errors
    ///
    /// Out of memory.
    pub fn try_copy(&self, alloc: Global) -> Result<Hsm, AllocError>
        ensures { IfOk result (λ copy. copy ≡ self.now) }
    {
        let mut phases = Vec::with_capacity(alloc, self.phases.len())?;
        for phase in &self.phases {
            phases.push_reserved(*phase);
        }
        Ok(Hsm {
            phases,
            interruptible: self.interruptible,
        })
    }

    /// Becomes a copy of the states of as many harts. It allocates nothing.
    pub fn copy_from(&mut self, from: &Hsm)
        requires { length self.old ≡ length from.now }
        ensures { self.new ≡ from.now }
    {
        self.phases.copy_from_slice(&from.phases);
        self.interruptible = from.interruptible;
    }

    /// Starts hart `t`: it will begin at `addr` with `opaque` in a1 (SBI 9.1).
    ///
    /// # Errors
    ///
    /// The hart isn't STOPPED. Nothing changes.
    pub fn start(&mut self, t: u64, addr: u64, opaque: u64) -> Result<(), AlreadyAvailable>
        requires { t < length self.old }
        ensures answer { is_ok result
            ≡ is_some (started (record { addr = addr; opaque = opaque }) (hart_at self.old t)) }
        ensures after { self.new
            ≡ changed self.old t (started (record { addr = addr; opaque = opaque }) (hart_at self.old t)) }
    {
        match self.phases[t as usize] {
            Phase::Stopped => {
                self.put(t, Phase::StartPending(EntryPoint { addr, opaque }));
                Ok(())
            }
            _ => Err(AlreadyAvailable),
        }
    }

    /// Stops hart `h`, which is STARTED: its stop is pending (SBI 9.2).
    pub fn stop(&mut self, h: u64)
        requires in_range { h < length self.old }
        requires running { (hart_at self.old h).state ≡ HartState.Started }
        ensures { self.new ≡ slice_set self.old h stopped }
    {
        self.put(h, Phase::StopPending);
    }

    /// Suspends hart `h`, which is STARTED: its suspend is pending (SBI 9.4). A non-retentive suspend keeps `addr` and
    /// `opaque` until the hart is STARTED again; a retentive suspend keeps nothing.
    pub fn suspend(&mut self, h: u64, kind: SuspendKind, addr: u64, opaque: u64)
        requires in_range { h < length self.old }
        requires running { (hart_at self.old h).state ≡ HartState.Started }
        ensures { self.new ≡ slice_set self.old h (suspended kind (record { addr = addr; opaque = opaque })) }
    {
        let kept = kept_by(kind, EntryPoint { addr, opaque });
        self.put(h, Phase::SuspendPending(kept));
    }

    /// Advances hart `h` by one state, if its state is pending, or if it is SUSPENDED and `wake` is true: an enabled
    /// interrupt is pending (SBI 9, HSM states). Otherwise it returns None, and nothing changes.
    pub fn advance(&mut self, h: u64, wake: bool) -> Option<Moved>
        requires { h < length self.old }
        ensures answer { result ≡ option_map (λ step. step.moved) (advanced wake (hart_at self.old h)) }
        ensures some { is_some result ≡ goes_on wake (hart_at self.old h).state }
        ensures after { self.new
            ≡ changed self.old h (option_map (λ step. step.hart) (advanced wake (hart_at self.old h))) }
    {
        let (phase, moved) = self.phases[h as usize].advanced(wake)?;
        self.put(h, phase);
        Some(moved)
    }

    /// Every hart becomes STOPPED. Then the boot hart's start is pending if `boot` is given (SBI 10; profile).
    pub fn reset(&mut self, boot_hart: u64, boot: Option<EntryPoint>)
        requires { boot_hart < length self.old }
        ensures { self.new ≡ reset_to (length self.old) boot_hart boot }
    {
        self.phases.fill(Phase::Stopped);
        self.interruptible = HartSet::new();
        if let Some(boot) = boot {
            self.put(boot_hart, Phase::StartPending(boot));
        }
    }

    /// Sets the phase of hart `h`.
    fn put(&mut self, h: u64, phase: Phase)
        requires { h < length self.old }
        ensures { self.new ≡ slice_set self.old h (hart_of phase) }
    {
        self.phases[h as usize] = phase;
        if phase.state().is_interruptible() {
            self.interruptible.insert(h);
        } else {
            self.interruptible.remove(h);
        }
    }

    /// The state of hart `t` (SBI 9.3).
    pub fn status(&self, t: u64) -> HartState
        requires { t < length self.now }
        ensures { result ≡ (hart_at self.now t).state }
    {
        self.phases[t as usize].state()
    }

    /// The entry point of hart `t`: of its pending start, or of the non-retentive suspend that it is in.
    pub fn kept(&self, t: u64) -> Option<EntryPoint>
        requires { t < length self.now }
        ensures kept { result ≡ (hart_at self.now t).kept }
        ensures pending { is_in_suspend (hart_at self.now t).state ≡ false
            → is_some result ≡ is_start_pending (hart_at self.now t).state }
    {
        self.phases[t as usize].kept()
    }

    /// The harts in an interruptible state: STARTED, or in a suspend (profile).
    pub fn interruptible(&self) -> HartSet
        ensures { result ≡ interruptible_ids self.now }
    {
        self.interruptible
    }

    /// The number of harts, at most 128 (profile).
    pub fn len(&self) -> u64
        ensures count { result ≡ length self.now }
        ensures limit { length self.now ≤ 128 }
    {
        self.phases.len() as u64
    }

    /// The number of pending starts.
    pub fn pending_starts(&self) -> u64
        ensures { result ≡ count_by (λ hart. is_start_pending hart.state) self.now }
    {
        self.phases
            .iter()
            .filter(|phase| phase.state() == HartState::StartPending)
            .count() as u64
    }
}

/// The phase of hart `h` at the opening.
fn opening_phase(boot_hart: u64, boot: EntryPoint, h: u64) -> Phase
    ensures { hart_of result ≡ hart_at_opening boot_hart boot h }
{
    if h == boot_hart {
        Phase::StartPending(boot)
    } else {
        Phase::Stopped
    }
}
