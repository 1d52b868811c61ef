//! The s-mode IPI extension (SBI 7).

ghost use Rattle.std.specs.Prelude.{◌≡◌, ℕ, ◌≤◌, List, ◌∷◌};
ghost use Rattle.sbi_abi.specs.declared.call.Call.TheVariants as calls;
ghost use Rattle.sbi_abi.specs.declared.call.Regs.{Regs};
ghost use Rattle.sbi_abi.specs.Calls.{call_of};
ghost use Rattle.board_rules.specs.History.{Event, by_hart};
ghost use Rattle.board_terms.specs.declared.op.Op.TheVariants.{Ecall};
ghost use Rattle.board_rules.specs.Calls.Ipi.{ipi_reply};
ghost use Rattle.board_rules.specs.Returns.{as_reply};
ghost use Rattle.board_rules.specs.Opening.{Opening, on};
ghost use Rattle.board_machine.specs.Stands.{IsSized, StandsFor};

use super::{failure, success};
use crate::machine::Machine;
use board_terms::{Config, Reply};
use hart_mask::targets;
use sbi_abi::call::IpiCall;

impl Machine {
    /// Performs a call of the IPI extension: sends an IPI to the harts of a hart list (SBI 7.1), and skips those that
    /// aren't in an interruptible state (profile).
    pub(crate) fn ipi_call(&mut self, config: &Config, call: IpiCall) -> Reply
        requires sized { IsSized config.now self.old }
        requires most { config.now.harts ≤ 128 }
        ensures answered { result ≡ as_reply (ipi_reply config.now call) }
        ensures after { (x : ℕ) (o : Opening) (past : List Event) (regs : Regs) → calls.Ipi call ≡ call_of regs
            → StandsFor (on config.now o) past self.old →
            StandsFor (on config.now o) (by_hart x (Ecall regs) result ∷ past) self.new }
    {
        let IpiCall::SendIpi { mask, base } = call;
        match targets(mask, base, config.harts) {
            Ok(harts) => {
                let reached = harts.intersection(self.hsm.interruptible());
                self.interrupts.ipis.send(reached);
                success(0)
            }
            Err(refused) => failure(refused.into()),
        }
    }
}
