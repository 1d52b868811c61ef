//! Views of boards, for look-ups: of a board with its history, or of an opening.
ghost use Rattle.std.specs.Prelude.{◌≡◌, ◌-◌, ◌*◌, ◌<◌, ◌≤◌, List, ◌++◌, false, length, reverse};
ghost use Rattle.interrupts.specs.Timing.{last_time};
ghost use Rattle.sv39.specs.Maps.{maps};
ghost use Rattle.sv39.specs.Memory.{word_in};
ghost use Rattle.board_terms.specs.declared.op.Actor.TheVariants.{Hart, Clock};
ghost use Rattle.board_core.specs.Csrs.{sie, sstatus_sie};
ghost use Rattle.board_core.specs.Fences.{outstanding, phase, waiting};
ghost use Rattle.board_core.specs.Refusals.{first_refusal};
ghost use Rattle.board_core.specs.History.{Event};
ghost use Rattle.board_core.specs.Interrupts.{deadline, ssip, stip, time, wake};
ghost use Rattle.board_core.specs.Memory.{caches_of, memory, satp};
ghost use Rattle.board_core.specs.Need.{need, total_need};
ghost use Rattle.board_core.specs.Refusals.{is_full};
ghost use Rattle.board_core.specs.Resets.{is_off, last_reset};
ghost use Rattle.board_core.specs.Serves.{CanEnd, GoesOn, HaveServed, IsLeft};
ghost use Rattle.board_core.specs.Starts.{kept, StartsAreEntered};
ghost use Rattle.board_core.specs.States.{state};
ghost use Rattle.board_core.specs.Totals.{totals};

use crate::opening::Opening;
use board_machine::{Machine, is_shutdown};
use board_rules::{Event, Phase, Sie, Totals};
use board_terms::{Actor, Config, Op, Refusal};
use hart_mask::HartSet;
use hsm::{EntryPoint, HartState};
use rfence::Waiting;
use sbi_abi::Reset;
use std::marker::Model;
use sv39::{Cause, Kind, Leaf, Ram, Satp, walk};
use tlb_model::{Entry, FetchWord, Flush, Live};

/// A view of a board: its opening and its history, with all look-ups. It borrows the board or the opening.
#[derive(Drop)]
pub struct View<'a> {
    pub(crate) config: &'a Config,
    // (the number of events accepted before these, and the opening that a cut left, if there was a cut)
    pub(crate) places: u64,
    pub(crate) opened: Option<&'a Opening>,
    pub(crate) events: &'a [Event],
    pub(crate) machine: &'a Machine,
}

impl<'a> Model for View<'a> {
    ghost use Rattle.std.specs.Prelude.{option_copied, reverse};
    ghost use Rattle.board_core.specs.Course.{Course};
    ghost use Rattle.board_core.specs.Inside.Opened.{opened_by};
    ghost use Rattle.board_core.specs.Inside.Stands.{IsKept, StandsFor};

    ghost Value = { Course };

    ghost view = { λ v. record {
      opening = opened_by v.config.now v.places (option_copied v.opened);
      past = reverse v.events.now;
    } };

    ghost invariant = { λ v. IsKept (opened_by v.config.now v.places (option_copied v.opened)) (reverse v.events.now)
        × StandsFor (opened_by v.config.now v.places (option_copied v.opened)) (reverse v.events.now) v.machine.now };
}

impl<'a> View<'a> {
    /// The refusal of a step of one actor: the first that applies (profile). None: the step would be accepted.
    #[inline(always)]
    pub fn refusal(&self, actor: Actor, op: Op) -> Option<Refusal>
        ensures { result ≡ first_refusal self.now.opening self.now.past actor op }
    {
        if self.is_off() {
            return Some(Refusal::Off);
        }
        let is_full = self.events.len() as u64 == self.config.limit;
        match (actor, op) {
            (Actor::Hart(h), _) if h < self.config.harts => self.machine.refusal(h, op, is_full),
            (Actor::Clock, Op::Tick(_)) if is_full => Some(Refusal::HistoryFull),
            (Actor::Clock, Op::Tick(n)) if n < u64::MAX - self.time() => None,
            (Actor::Clock, Op::Tick(_)) => Some(Refusal::TimeFull),
            _ => Some(Refusal::WrongPhase),
        }
    }

    /// The state of hart `h` (SBI 9).
    pub fn state(&self, h: u64) -> HartState
        requires { h < self.now.opening.config.harts }
        ensures { result ≡ state self.now.opening self.now.past h }
    {
        self.machine.hsm.status(h)
    }

    /// The entry point of hart `h`: of its pending start, or of the non-retentive suspend that it is in (SBI 9.1, 9.4).
    pub fn kept(&self, h: u64) -> Option<EntryPoint>
        requires { h < self.now.opening.config.harts }
        ensures { result ≡ kept self.now.opening self.now.past h }
    {
        self.machine.hsm.kept(h)
    }

    /// Whether sstatus.SIE of hart `h` is 1 (Privileged 4.1.1).
    pub fn sstatus_sie(&self, h: u64) -> bool
        requires { h < self.now.opening.config.harts }
        ensures { result ≡ sstatus_sie self.now.opening self.now.past h }
    {
        self.machine.interrupts.csrs.sstatus_sie.contains(h)
    }

    /// The interrupts that sie of hart `h` enables (Privileged 4.1.3).
    pub fn sie(&self, h: u64) -> Sie
        requires { h < self.now.opening.config.harts }
        ensures { result ≡ sie self.now.opening self.now.past h }
    {
        self.machine.interrupts.csrs.sie(h)
    }

    /// Whether SSIP of hart `h` is 1: a software interrupt is pending (Privileged 4.1.3, SBI 7).
    pub fn ssip(&self, h: u64) -> bool
        requires { h < self.now.opening.config.harts }
        ensures { result ≡ ssip self.now.opening self.now.past h }
    {
        self.machine.interrupts.ipis.pending(h)
    }

    /// Whether STIP of hart `h` is 1: its deadline is due (Privileged 4.1.3, SBI 6).
    pub fn stip(&self, h: u64) -> bool
        requires { h < self.now.opening.config.harts }
        ensures { result ≡ stip self.now.opening self.now.past h }
    {
        self.machine.interrupts.timers.pending(h)
    }

    /// Whether a pending interrupt of hart `h` is enabled in its sie (Privileged 3.3.3, WFI).
    pub fn wake(&self, h: u64) -> bool
        requires { h < self.now.opening.config.harts }
        ensures { result ≡ wake self.now.opening self.now.past h }
    {
        self.machine.interrupts.wake(h)
    }

    /// satp of hart `h` (Privileged 4.1.11).
    pub fn satp(&self, h: u64) -> u64
        requires { h < self.now.opening.config.harts }
        ensures { result ≡ satp self.now.opening self.now.past h }
    {
        self.machine.memory.satp(h).bits()
    }

    /// The word of the RAM at a physical address. None: the address is outside the RAM, or isn't aligned to 8.
    pub fn word(&self, at: u64) -> Option<u64>
        ensures { result ≡ memory self.now.opening self.now.past at }
    {
        let ram = &self.machine.memory.ram;
        if ram.holds(at) {
            Some(ram.load(at))
        } else {
            None
        }
    }

    /// satp of hart `h`, as walks take it (Privileged 4.1.11).
    pub fn satp_register(&self, h: u64) -> Satp
        requires { h < self.now.opening.config.harts }
        ensures { result ≡ satp self.now.opening self.now.past h }
    {
        self.machine.memory.satp(h)
    }

    /// The RAM, as walks take it.
    pub fn ram(&self) -> &'a Ram
        ensures { word_in result.now ≡ memory self.now.opening self.now.past }
    {
        &self.machine.memory.ram
    }

    /// The result of a page table walk by the satp of hart `h`, whatever its TLB holds: the leaf that maps the address
    /// and allows an access of this kind, or why the access fails (Privileged 4.3.2). It has no meaning if satp's MODE
    /// is Bare.
    pub fn walk(&self, h: u64, va: u64, kind: Kind) -> Result<Leaf, Cause>
        requires { h < self.now.opening.config.harts }
        ensures { result ≡ maps (memory self.now.opening self.now.past)
            (satp self.now.opening self.now.past h) va kind }
    {
        let memory = &self.machine.memory;
        walk(&memory.ram, memory.satp(h), va, kind)
    }

    /// The live entries of the TLB of hart `h`, oldest first.
    pub fn tlb(&self, h: u64) -> Live<'a, Entry>
        requires { h < self.now.opening.config.harts }
        ensures { reverse result ≡ (caches_of self.now.opening self.now.past h).tlb.live }
    {
        self.machine.memory.caches[h as usize].tlb.live()
    }

    /// The live words of the instruction cache of hart `h`, oldest first.
    pub fn fetched(&self, h: u64) -> Live<'a, FetchWord>
        requires { h < self.now.opening.config.harts }
        ensures { reverse result ≡ (caches_of self.now.opening self.now.past h).words.live }
    {
        self.machine.memory.caches[h as usize].words.live()
    }

    /// The fences that wait at hart `h`, in the order in which it serves them.
    pub fn waiting(&self, h: u64) -> Waiting<'a, Flush>
        requires { h < self.now.opening.config.harts }
        ensures { result ≡ waiting self.now.opening self.now.past h }
    {
        self.machine.fences.iter(h)
    }

    /// The number of fences that wait at hart `h`, fewer than there are harts.
    pub fn waiting_len(&self, h: u64) -> u64
        requires { h < self.now.opening.config.harts }
        ensures count { result ≡ length (waiting self.now.opening self.now.past h) }
        ensures limit { result < self.now.opening.config.harts }
    {
        self.machine.fences.len(h)
    }

    /// Whether hart `h` is inside a fence call (SBI 8; that a call waits: profile).
    pub fn phase(&self, h: u64) -> Phase
        requires { h < self.now.opening.config.harts }
        ensures { result ≡ phase self.now.opening self.now.past h }
    {
        match self.outstanding(h) {
            None => Phase::Outside,
            Some(_) => Phase::Inside,
        }
    }

    /// The harts that the fence call of hart `h` waits for. None: the hart is in no fence call.
    pub fn outstanding(&self, h: u64) -> Option<HartSet>
        requires { h < self.now.opening.config.harts }
        ensures { result ≡ outstanding self.now.opening self.now.past h }
    {
        self.machine.fences.outstanding(h)
    }

    /// The number of serves by hart `t` that the fence call of hart `caller` still needs (profile), as `Board::need`
    /// explains.
    pub fn need(&self, caller: u64, t: u64) -> u64
        ensures need { result ≡ need self.now.opening self.now.past caller t }
        ensures limit { result < self.now.opening.config.harts }
        ensures total { total_need self.now.opening self.now.past caller
            ≤ (self.now.opening.config.harts - 1) * (self.now.opening.config.harts - 1) }
        ensures no_caller { self.now.opening.config.harts ≤ caller → result ≡ 0 }
        ensures no_target { self.now.opening.config.harts ≤ t → result ≡ 0 }
        ensures left { (newer : List Event) → GoesOn self.now.opening newer self.now.past caller
            → IsLeft self.now.opening newer self.now.past caller t }
        ensures ends { (newer : List Event) → GoesOn self.now.opening newer self.now.past caller
            → length (newer ++ self.now.past) < self.now.opening.config.limit
            → HaveServed self.now.opening newer self.now.past caller
            → CanEnd self.now.opening (newer ++ self.now.past) caller }
    {
        self.machine.fences.need(caller, t)
    }

    /// The last system reset, if there was one (SBI 10).
    pub fn last_reset(&self) -> Option<Reset>
        ensures { result ≡ last_reset self.now.opening self.now.past }
    {
        self.machine.last_reset
    }

    /// Whether the power is off: the last reset is a shutdown (SBI 10.1).
    pub fn is_off(&self) -> bool
        ensures { result ≡ is_off self.now.opening self.now.past }
    {
        is_shutdown(self.machine.last_reset)
    }

    /// The deadline of hart `h`, in ticks, if it has one (SBI 6.1).
    pub fn deadline(&self, h: u64) -> Option<u64>
        requires { h < self.now.opening.config.harts }
        ensures { result ≡ deadline self.now.opening self.now.past h }
    {
        self.machine.interrupts.timers.deadline(h)
    }

    /// The time, in ticks since the first opening: at most 2^64-2 (profile).
    pub fn time(&self) -> u64
        ensures time { result ≡ time self.now.opening self.now.past }
        ensures within { result ≤ last_time }
    {
        self.machine.interrupts.timers.time()
    }

    /// The counts of the board's table (profile). Each hart's starts are its entries, and then its pending start.
    pub fn totals(&self) -> Totals
        ensures counts { result ≡ totals self.now.opening self.now.past }
        ensures starts { StartsAreEntered self.now.opening self.now.past }
    {
        Totals {
            starts: self.machine.counts.starts,
            entries: self.machine.counts.entries,
            pending: self.machine.hsm.pending_starts(),
            asked: self.machine.fences.asked(),
            applied: self.machine.fences.applied(),
            waiting: self.machine.fences.waiting(),
        }
    }
}
