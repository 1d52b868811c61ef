//! The Timer extension (SBI 6).

ghost use Rattle.std.specs.Prelude.{◌≡◌, ◌<◌, List, ◌∷◌, length};
ghost use Rattle.sbi_abi.specs.declared.call.Call.TheVariants as calls;
ghost use Rattle.sbi_abi.specs.declared.call.Regs.{Regs};
ghost use Rattle.sbi_abi.specs.Calls.{call_of};
ghost use Rattle.board_rules.specs.History.{Event, by_hart};
ghost use Rattle.board_terms.specs.declared.op.Op.TheVariants.{Ecall};
ghost use Rattle.board_rules.specs.Calls.Time.{time_reply};
ghost use Rattle.board_rules.specs.Returns.{as_reply};
ghost use Rattle.board_rules.specs.Opening.{Opening};
ghost use Rattle.board_machine.specs.Stands.{StandsFor};

use super::success;
use crate::machine::Machine;
use board_terms::Reply;
use sbi_abi::call::TimeCall;

impl Machine {
    /// Performs a call of the Timer extension by hart `h`: sets its deadline (SBI 6.1).
    pub(crate) fn time_call(&mut self, h: u64, call: TimeCall) -> Reply
        requires { h < length self.old.interrupts.timers.deadlines }
        ensures answered { result ≡ as_reply (time_reply call) }
        ensures after { (o : Opening) (past : List Event) (regs : Regs) → calls.Time call ≡ call_of regs
            → StandsFor o past self.old →
            StandsFor o (by_hart h (Ecall regs) result ∷ past) self.new }
    {
        let TimeCall::SetTimer(deadline) = call;
        self.interrupts.timers.set(h, deadline);
        success(0)
    }
}
