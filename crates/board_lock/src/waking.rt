//! The seats that an event wakes.

ghost use Rattle.std.specs.Prelude.{◌≡◌, ℕ, ◌<◌, ◌≤◌, ◌&&◌, true};
ghost use Rattle.hart_mask.specs.Ids.{has, ids_where};
ghost use Rattle.board_lock.specs.Inside.Rests.{awake, held, none_woken};
ghost use Rattle.board_lock.specs.Coming.{has_come, has_turn, has_wake};
ghost use Rattle.board_lock.specs.Inside.Waking.{alone, comes_to, concerned, concerned_by, named, named_by, woken};

use crate::desk::Desk;
use crate::rests::{Awaits, Woken};
use crate::rooms::Room;
use crate::views::HartNow;
use board_core::{HartSet, Op};
use hart_mask::targets;
use sbi_abi::call::{HsmCall, IpiCall, RfenceCall};
use sbi_abi::{Call, decode};

impl<K: Room> Desk<K> {
    /// After an event of this operation: ends the rests that the event ends, and returns those seats. No event happens.
    pub(crate) fn wake(&mut self, op: &Op) -> Woken
        ensures answer { result ≡ woken self.old op.now }
        ensures left { self.new ≡ held self.old.board (awake self.old.rests result) self.old.ended }
        ensures below { (h : ℕ) → has result.harts h ≡ true → h < K.opening.config.harts }
    {
        if self.rests.is_none() {
            return Woken::none();
        }
        let rests = self.rests;
        let firmware = rests.harts.intersection(rests.firmware);
        let concerned = concerned(op, self.board.config().harts);
        let come = self.come_to(firmware.intersection(concerned));
        let woken = Woken {
            harts: rests.harts.intersection(rests.events).union(come),
            clock: rests.clock && rests.clock_events,
        };
        self.rests.end(woken);
        woken
    }

    /// The harts of a set whose seats have what they wait for.
    fn come_to(&self, harts: HartSet) -> HartSet
        requires { (h : ℕ) → has harts h ≡ true → h < K.opening.config.harts }
        ensures { result ≡ ids_where (λ h. has harts h && comes_to self.now h) }
    {
        let mut left = harts;
        let mut come = HartSet::new();
        while let Some(h) = left.pop_first() {
            if self.comes_to(h) {
                come.insert(h);
            }
        }
        come
    }

    /// Whether what hart `h`'s seat waits for has come. The seat waits for work for its firmware.
    fn comes_to(&self, h: u64) -> bool
        requires { h < K.opening.config.harts }
        ensures { result ≡ comes_to self.now h }
    {
        let awaits = if self.rests.wakes.contains(h) {
            Awaits::Wake
        } else {
            Awaits::Firmware
        };
        has_come(awaits, &self.hart_now(h))
    }
}

impl Woken {
    /// No seat is woken.
    fn none() -> Woken
        ensures { result ≡ none_woken }
    {
        Woken {
            harts: HartSet::new(),
            clock: false,
        }
    }
}

/// Whether what a hart's seat waits for has come.
pub(crate) fn has_come(awaits: Awaits, now: &HartNow) -> bool
    ensures { result ≡ has_come awaits now.now }
{
    match awaits {
        Awaits::Firmware => has_turn(now),
        Awaits::Wake => has_turn(now) || has_wake(now),
        Awaits::End => false,
    }
}

/// Whether a hart's firmware has something to do.
fn has_turn(now: &HartNow) -> bool
    ensures { result ≡ has_turn now.now }
{
    now.firmware_choice().is_some()
}

/// Whether a hart's guest can continue after a WFI.
fn has_wake(now: &HartNow) -> bool
    ensures { result ≡ has_wake now.now }
{
    now.outstanding.is_none() && now.state.is_started() && now.wake
}

/// The harts, of so many, whose seats an operation may concern, besides its actor's.
fn concerned(op: &Op, harts: u64) -> HartSet
    requires { harts ≤ 128 }
    ensures { result ≡ concerned harts op.now }
{
    match op {
        Op::Ecall(regs) => concerned_by(decode(regs), harts),
        Op::Serve | Op::Tick(_) => HartSet::below(harts),
        _ => HartSet::new(),
    }
}

/// The harts whose seats a call may concern, besides its caller's.
fn concerned_by(call: Call, harts: u64) -> HartSet
    requires { harts ≤ 128 }
    ensures { result ≡ concerned_by harts call }
{
    match call {
        Call::Ipi(IpiCall::SendIpi { mask, base }) => named(mask, base, harts),
        Call::Rfence(fence) => named_by(fence, harts),
        Call::Hsm(HsmCall::HartStart { hart, .. }) => alone(hart, harts),
        Call::Hsm(HsmCall::HartStop) | Call::Srst(_) => HartSet::below(harts),
        _ => HartSet::new(),
    }
}

/// The harts that a remote fence names.
fn named_by(fence: RfenceCall, harts: u64) -> HartSet
    requires { harts ≤ 128 }
    ensures { result ≡ named_by harts fence }
{
    match fence {
        RfenceCall::RemoteFenceI { mask, base }
        | RfenceCall::RemoteSfenceVma { mask, base, .. }
        | RfenceCall::RemoteSfenceVmaAsid { mask, base, .. } => named(mask, base, harts),
    }
}

/// The harts that a hart list names; none if it is invalid.
fn named(mask: u64, base: u64, harts: u64) -> HartSet
    requires { harts ≤ 128 }
    ensures { result ≡ named harts mask base }
{
    match targets(mask, base, harts) {
        Ok(set) => set,
        Err(_) => HartSet::new(),
    }
}

/// The set of only this hart; empty if there is no such hart.
fn alone(hart: u64, harts: u64) -> HartSet
    requires { harts ≤ 128 }
    ensures { result ≡ alone harts hart }
{
    let mut set = HartSet::new();
    if hart < harts {
        set.insert(hart);
    }
    set
}
