//! What a hart has before its step that decides what the step does to caches.
ghost use Rattle.std.specs.Prelude.{◌≡◌, ◌<◌, ◌≤◌, ℕ, List, Some};
ghost use Rattle.rfence.specs.Turns.{Ask, Serve};
ghost use Rattle.board_terms.specs.Limits.{IsGood};
ghost use Rattle.board_terms.specs.declared.reply.Reply.TheVariants.{Waiting};
ghost use Rattle.board_core.specs.Calls.Rfence.{flush_of_range, remote_by_rfence};
ghost use Rattle.board_core.specs.Calls.Srst.{turn_by_srst};
ghost use Rattle.board_core.specs.Fences.{is_asked_by, turn_by, turn_by_call, turn_by_remote, waiting};
ghost use Rattle.board_core.specs.History.{Event};
ghost use Rattle.board_core.specs.Opening.{Opening, on};
ghost use Rattle.tlb_watch.specs.Effects.{IsReady, effect_on, first_flush, turn_effect};

use crate::effect::CacheEffect;
use board_core::{Board, Config, Op, Reply, View};
use hart_mask::targets;
use sbi_abi::call::{RfenceCall, SrstCall};
use sbi_abi::{Call, SbiError, decode};
use sv39::Spaces;
use tlb_model::{Fence, Flush, is_wrong_range};

/// What a hart has before its step that decides, with the operation and the reply, what the step does to caches.
#[derive(Clone, Copy, PartialEq, Eq)]
pub struct Ready {
    /// The hart.
    pub hart: u64,
    /// What the first fence that waits at the hart drops. None: no fence waits there.
    pub first: Option<Flush>,
    /// Whether a remote fence reaches the hart: its state is interruptible (profile).
    pub is_reached: bool,
}

impl Ready {
    /// What this hart of the board has.
    pub fn of(board: &Board, hart: u64) -> Ready
        requires { hart < board.now.opening.config.harts }
        ensures hart { result.hart ≡ hart }
        ensures ready { IsReady board.now.opening board.now.past result }
    {
        Ready::seen(&board.view(), hart)
    }

    /// The same of a board that is viewed.
    pub fn seen(view: &View<'_>, hart: u64) -> Ready
        requires { hart < view.now.opening.config.harts }
        ensures hart { result.hart ≡ hart }
        ensures ready { IsReady view.now.opening view.now.past result }
    {
        Ready {
            hart,
            first: first_waiting(view, hart),
            is_reached: view.state(hart).is_interruptible(),
        }
    }

    /// What an accepted step of the hart does to caches.
    pub fn effect(self, config: &Config, op: Op, reply: Reply) -> CacheEffect
        requires good { IsGood config.now }
        requires in_range { self.hart < config.now.harts }
        ensures { (o : Opening) (past : List Event) (h : ℕ) → IsReady (on config.now o) past self
            → effect_on result h ≡ turn_effect (on config.now o) past (turn_by (on config.now o) past self.hart op reply) h }
    {
        match op {
            Op::Ecall(regs) => self.call_effect(config, decode(&regs), reply),
            Op::Sfence(va, asid) => {
                let fence = Fence::of_address(config.spaces(), va, asid);
                CacheEffect::Applied(self.hart, Flush::Entries(fence))
            }
            Op::FenceI => CacheEffect::Applied(self.hart, Flush::Words),
            Op::Serve => self.serve_effect(),
            Op::Load(_)
            | Op::Store(..)
            | Op::Fetch(_)
            | Op::Amo(..)
            | Op::WriteSatp(_)
            | Op::WriteSie(_)
            | Op::WriteSstatusSie(_)
            | Op::ReadSip
            | Op::ClearSsip
            | Op::Wfi
            | Op::Poll
            | Op::Advance
            | Op::Tick(_) => CacheEffect::Nothing,
        }
    }

    /// What a serve does: it applies the first fence that waits.
    fn serve_effect(self) -> CacheEffect
        ensures { (o : Opening) (past : List Event) (h : ℕ) → IsReady o past self
            → effect_on result h ≡ turn_effect o past (Serve self.hart) h }
    {
        match self.first {
            Some(flush) => CacheEffect::Applied(self.hart, flush),
            None => CacheEffect::Nothing,
        }
    }

    /// What a call does: a remote fence is applied at once at its caller, if it asks it too, and a reset empties all.
    fn call_effect(self, config: &Config, call: Call, reply: Reply) -> CacheEffect
        requires good { IsGood config.now }
        requires in_range { self.hart < config.now.harts }
        ensures { (o : Opening) (past : List Event) (h : ℕ) → IsReady (on config.now o) past self
            → effect_on result h
            ≡ turn_effect (on config.now o) past (turn_by_call (on config.now o) past self.hart call reply) h }
    {
        match call {
            Call::Rfence(call) => match reply {
                Reply::Waiting => self.fence_effect(config, call),
                _ => CacheEffect::Nothing,
            },
            Call::Srst(call) => reset_effect(call, reply),
            Call::Base(_) | Call::Time(_) | Call::Ipi(_) | Call::Hsm(_) | Call::Unsupported => {
                CacheEffect::Nothing
            }
        }
    }

    /// What a remote fence that waits does.
    fn fence_effect(self, config: &Config, call: RfenceCall) -> CacheEffect
        requires good { IsGood config.now }
        requires in_range { self.hart < config.now.harts }
        ensures { (o : Opening) (past : List Event) (h : ℕ) → IsReady (on config.now o) past self
            → effect_on result h
            ≡ turn_effect (on config.now o) past (turn_by_remote (on config.now o) past self.hart
            (Some (remote_by_rfence config.now call)) Waiting) h }
    {
        let (mask, base, flush) = remote(config, call);
        match flush {
            Ok(flush) => self.asked_effect(config, mask, base, flush),
            Err(_) => CacheEffect::Nothing,
        }
    }

    /// What a remote fence of the harts of a hart list does.
    fn asked_effect(self, config: &Config, mask: u64, base: u64, flush: Flush) -> CacheEffect
        requires good { IsGood config.now }
        requires in_range { self.hart < config.now.harts }
        ensures { (o : Opening) (past : List Event) (h : ℕ) → IsReady (on config.now o) past self
            → effect_on result h
            ≡ turn_effect (on config.now o) past (Ask self.hart (is_asked_by (on config.now o) past mask base) flush) h }
    {
        if self.is_asked(config, mask, base) {
            CacheEffect::Applied(self.hart, flush)
        } else {
            CacheEffect::Nothing
        }
    }

    /// Whether a remote fence of the harts of a hart list asks the hart itself.
    fn is_asked(self, config: &Config, mask: u64, base: u64) -> bool
        requires good { IsGood config.now }
        requires in_range { self.hart < config.now.harts }
        ensures { (o : Opening) (past : List Event) → IsReady (on config.now o) past self
            → result ≡ is_asked_by (on config.now o) past mask base self.hart }
    {
        match targets(mask, base, config.harts) {
            Ok(harts) => harts.contains(self.hart) && self.is_reached,
            Err(_) => false,
        }
    }
}

/// What the first fence that waits at the hart drops.
fn first_waiting(view: &View<'_>, hart: u64) -> Option<Flush>
    requires { hart < view.now.opening.config.harts }
    ensures { result ≡ first_flush (waiting view.now.opening view.now.past hart) }
{
    let mut waiting = view.waiting(hart);
    let request = waiting.next()?;
    Some(request.flush)
}

/// What a system reset does, if it is one.
fn reset_effect(call: SrstCall, reply: Reply) -> CacheEffect
    ensures { (o : Opening) (past : List Event) (h : ℕ) → effect_on result h ≡ turn_effect o past (turn_by_srst call reply) h }
{
    match call {
        SrstCall::SystemReset(Ok(_)) => match reply {
            Reply::Gone => CacheEffect::Reset,
            _ => CacheEffect::Nothing,
        },
        SrstCall::SystemReset(Err(_)) => CacheEffect::Nothing,
    }
}

/// The hart list of a remote fence, and what it drops, or the error for its range (SBI 8).
fn remote(config: &Config, call: RfenceCall) -> (u64, u64, Result<Flush, SbiError>)
    requires { IsGood config.now }
    ensures { remote_by_rfence config.now call ≡ record { mask = result.0; base = result.1; flush = result.2 } }
{
    let spaces = config.spaces();
    match call {
        RfenceCall::RemoteFenceI { mask, base } => (mask, base, Ok(Flush::Words)),
        RfenceCall::RemoteSfenceVma {
            mask,
            base,
            start,
            size,
        } => (mask, base, flush_of_range(spaces, start, size, None)),
        RfenceCall::RemoteSfenceVmaAsid {
            mask,
            base,
            start,
            size,
            asid,
        } => (mask, base, flush_of_range(spaces, start, size, Some(asid))),
    }
}

/// What a remote SFENCE.VMA of a range drops, or the error for its range (SBI 8).
fn flush_of_range(
    spaces: Spaces,
    start: u64,
    size: u64,
    asid: Option<u64>,
) -> Result<Flush, SbiError>
    requires { spaces.asid_len ≤ 16 }
    ensures { result ≡ flush_of_range spaces start size asid }
{
    if is_wrong_range(start, size) {
        return Err(SbiError::InvalidAddress);
    }
    Ok(Flush::Entries(Fence::of_range(spaces, start, size, asid)))
}
