//! The Hart State Management extension (SBI 9).

ghost use Rattle.std.specs.Prelude.{◌≡◌, ℕ, ◌<◌, List, ◌∷◌, length, Result};
ghost use Rattle.sbi_abi.specs.declared.call.Call.TheVariants.{Hsm};
ghost use Rattle.sbi_abi.specs.declared.call.hsm.HsmCall.TheVariants as calls;
ghost use Rattle.sbi_abi.specs.declared.call.Regs.{Regs};
ghost use Rattle.sbi_abi.specs.Calls.{call_of};
ghost use Rattle.hsm.specs.declared.hart.HartState.TheVariants as states;
ghost use Rattle.hsm.specs.Transitions.{hart_at};
ghost use Rattle.board_rules.specs.History.{Event, by_hart};
ghost use Rattle.board_terms.specs.declared.op.Op.TheVariants.{Ecall};
ghost use Rattle.board_terms.specs.Limits.{IsGood};
ghost use Rattle.board_rules.specs.Opening.{Opening, on};
ghost use Rattle.board_rules.specs.Replies.{call_reply};
ghost use Rattle.board_machine.specs.Stands.{HasRoom, IsSized, IsStanding, StandsFor};

use super::{failure, success};
use crate::machine::Machine;
use board_terms::{Config, Reply, is_start_address};
use sbi_abi::call::HsmCall;
use sbi_abi::{SbiError, SuspendKind};

impl Machine {
    /// Performs a call of the Hart State Management extension by hart `h`, which is STARTED (SBI 9).
    pub(crate) fn hsm_call(&mut self, config: &Config, h: u64, call: HsmCall) -> Reply
        requires good { IsGood config.now }
        requires sized { IsSized config.now self.old }
        requires in_range { h < config.now.harts }
        requires standing { IsStanding config.now self.old }
        requires started { (hart_at self.old.hsm h).state ≡ states.Started }
        ensures answered { (o : Opening) (past : List Event) → StandsFor (on config.now o) past self.old
            → result ≡ call_reply (on config.now o) past h (Hsm call) }
        ensures after { (o : Opening) (past : List Event) (regs : Regs) → Hsm call ≡ call_of regs
            → StandsFor (on config.now o) past self.old →
            StandsFor (on config.now o) (by_hart h (Ecall regs) result ∷ past) self.new }
    {
        match call {
            HsmCall::HartStart { hart, addr, opaque } => self.hart_start(
                config, hart, addr, opaque,
            ),
            HsmCall::HartStop => self.hart_stop(config, h),
            HsmCall::HartGetStatus(hart) => self.hart_get_status(config, hart),
            HsmCall::HartSuspend { kind, addr, opaque } => {
                self.hart_suspend(config, h, kind, addr, opaque)
            }
        }
    }

    /// Starts hart `t` (SBI 9.1).
    fn hart_start(&mut self, config: &Config, t: u64, addr: u64, opaque: u64) -> Reply
        requires good { IsGood config.now }
        requires sized { IsSized config.now self.old }
        requires room { HasRoom self.old.counts }
        ensures answered { (x : ℕ) (o : Opening) (past : List Event) → StandsFor (on config.now o) past self.old →
            result ≡ call_reply (on config.now o) past x (Hsm (calls.HartStart t addr opaque)) }
        ensures after { (x : ℕ) (o : Opening) (past : List Event) (regs : Regs)
            → Hsm (calls.HartStart t addr opaque) ≡ call_of regs → StandsFor (on config.now o) past self.old →
            StandsFor (on config.now o) (by_hart x (Ecall regs) result ∷ past) self.new }
    {
        if t >= config.harts {
            return failure(SbiError::InvalidParam);
        }
        if !is_start_address(config.pages, addr) {
            return failure(SbiError::InvalidAddress);
        }
        match self.hsm.start(t, addr, opaque) {
            Ok(()) => {
                self.counts.starts += 1;
                success(0)
            }
            Err(refused) => failure(refused.into()),
        }
    }

    /// Stops the calling hart `h` (SBI 9.2). Its deadline is removed, the fences that wait there count as applied, and
    /// its caches are emptied (profile).
    fn hart_stop(&mut self, config: &Config, h: u64) -> Reply
        requires good { IsGood config.now }
        requires sized { IsSized config.now self.old }
        requires in_range { h < config.now.harts }
        requires standing { IsStanding config.now self.old }
        requires running { (hart_at self.old.hsm h).state ≡ states.Started }
        ensures answered { (o : Opening) (past : List Event) → StandsFor (on config.now o) past self.old
            → result ≡ call_reply (on config.now o) past h (Hsm calls.HartStop) }
        ensures after { (o : Opening) (past : List Event) (regs : Regs) → Hsm calls.HartStop ≡ call_of regs
            → StandsFor (on config.now o) past self.old →
            StandsFor (on config.now o) (by_hart h (Ecall regs) result ∷ past) self.new }
    {
        if self.interrupts.csrs.sstatus_sie.contains(h) {
            return failure(SbiError::Failed);
        }
        self.interrupts.timers.forget(h);
        self.fences.discharge_all(&mut self.memory.caches, h);
        self.hsm.stop(h);
        Reply::Gone
    }

    /// Suspends the calling hart `h` (SBI 9.4).
    fn hart_suspend(
        &mut self,
        config: &Config,
        h: u64,
        kind: Result<SuspendKind, SbiError>,
        addr: u64,
        opaque: u64,
    ) -> Reply
        requires good { IsGood config.now }
        requires in_range { h < length self.old.hsm }
        requires running { (hart_at self.old.hsm h).state ≡ states.Started }
        ensures answered { (o : Opening) (past : List Event)
            → result ≡ call_reply (on config.now o) past h (Hsm (calls.HartSuspend kind addr opaque)) }
        ensures after { (o : Opening) (past : List Event) (regs : Regs)
            → Hsm (calls.HartSuspend kind addr opaque) ≡ call_of regs → StandsFor (on config.now o) past self.old →
            StandsFor (on config.now o) (by_hart h (Ecall regs) result ∷ past) self.new }
    {
        match kind {
            Err(error) => failure(error),
            Ok(SuspendKind::Retentive) => {
                self.hsm.suspend(h, SuspendKind::Retentive, addr, opaque);
                Reply::Waiting
            }
            Ok(SuspendKind::NonRetentive) => {
                if !is_start_address(config.pages, addr) {
                    return failure(SbiError::InvalidAddress);
                }
                self.hsm.suspend(h, SuspendKind::NonRetentive, addr, opaque);
                Reply::Gone
            }
        }
    }

    /// Returns the state of hart `t` (SBI 9.3).
    fn hart_get_status(&self, config: &Config, t: u64) -> Reply
        requires { IsSized config.now self.now }
        ensures { (x : ℕ) (o : Opening) (past : List Event) → StandsFor (on config.now o) past self.now →
            result ≡ call_reply (on config.now o) past x (Hsm (calls.HartGetStatus t)) }
    {
        if t >= config.harts {
            return failure(SbiError::InvalidParam);
        }
        success(self.hsm.status(t).number())
    }
}
