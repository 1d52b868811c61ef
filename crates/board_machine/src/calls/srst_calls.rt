//! The System Reset extension (SBI 10).

ghost use Rattle.std.specs.Prelude.{◌≡◌, ℕ, ◌<◌, List, ◌∷◌, Option, if◌then◌else◌, Some, None};
ghost use Rattle.sbi_abi.specs.declared.call.Call.TheVariants as calls;
ghost use Rattle.sbi_abi.specs.declared.call.Regs.{Regs};
ghost use Rattle.sbi_abi.specs.Calls.{call_of};
ghost use Rattle.board_rules.specs.History.{Event, by_hart};
ghost use Rattle.board_terms.specs.declared.op.Op.TheVariants.{Ecall};
ghost use Rattle.board_terms.specs.Limits.{IsGood};
ghost use Rattle.board_rules.specs.Opening.{Opening, on};
ghost use Rattle.board_rules.specs.Calls.Srst.{srst_reply};
ghost use Rattle.board_rules.specs.Returns.{as_reply};
ghost use Rattle.board_rules.specs.Resets.{begins_anew, is_cold, is_shutdown};
ghost use Rattle.board_machine.specs.Stands.{IsSized, IsStanding, StandsFor};

use super::failure;
use crate::counts::Counts;
use crate::machine::Machine;
use board_terms::{Config, Reply};
use hsm::EntryPoint;
use sbi_abi::call::SrstCall;
use sbi_abi::{Reset, ResetKind};

impl Machine {
    /// Performs a call of the System Reset extension, and resets the board (SBI 10.1). Every hart becomes STOPPED,
    /// every waiting fence counts as applied, every call is dropped, all caches are emptied, and the harts' CSRs become
    /// 0. A reboot starts the boot hart again, and a cold one clears the memory. After a shutdown the power is off
    /// (profile).
    pub(crate) fn srst_call(&mut self, config: &Config, call: SrstCall) -> Reply
        requires good { IsGood config.now }
        requires sized { IsSized config.now self.old }
        requires standing { IsStanding config.now self.old }
        ensures answered { result ≡ as_reply (srst_reply call) }
        ensures after { (h : ℕ) (o : Opening) (past : List Event) (regs : Regs) → calls.Srst call ≡ call_of regs
            → StandsFor (on config.now o) past self.old →
            StandsFor (on config.now o) (by_hart h (Ecall regs) result ∷ past) self.new }
    {
        let SrstCall::SystemReset(asked) = call;
        let reset = match asked {
            Ok(reset) => reset,
            Err(error) => return failure(error),
        };
        let anew = begins_anew(reset.kind);
        self.hsm.reset(config.boot_hart, boot(config, anew));
        self.interrupts.reset();
        self.memory.reset(is_cold(reset.kind));
        self.fences.reset(&mut self.memory.caches);
        self.counts = Counts::new(anew);
        self.last_reset = Some(reset);
        Reply::Gone
    }
}

/// Whether the firmware starts the boot hart again after a reset.
fn begins_anew(kind: ResetKind) -> bool
    ensures { result ≡ begins_anew kind }
{
    !matches!(kind, ResetKind::Shutdown)
}

/// Whether a reset clears the memory.
fn is_cold(kind: ResetKind) -> bool
    ensures { result ≡ is_cold kind }
{
    matches!(kind, ResetKind::ColdReboot)
}

/// The boot hart's entry point, if it is started again.
fn boot(config: &Config, begins: bool) -> Option<EntryPoint>
    ensures { result ≡ (if begins then Some
        (record { addr = config.now.boot_addr; opaque = config.now.boot_opaque }) else None) }
{
    begins.then_some(EntryPoint {
        addr: config.boot_addr,
        opaque: config.boot_opaque,
    })
}

/// Whether the power is off: the last reset is a shutdown (SBI 10.1).
pub fn is_shutdown(last: Option<Reset>) -> bool
    ensures { result ≡ is_shutdown last }
{
    match last {
        Some(reset) => !begins_anew(reset.kind),
        None => false,
    }
}
