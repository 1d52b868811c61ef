//! Calls of the firmware, one file for each extension.

ghost use Rattle.std.specs.Prelude.{◌≡◌, ◌<◌, List, ◌∷◌, None};
ghost use Rattle.sbi_abi.specs.declared.call.Regs.{Regs};
ghost use Rattle.sbi_abi.specs.Calls.{call_of};
ghost use Rattle.hsm.specs.declared.hart.HartState.TheVariants as states;
ghost use Rattle.hsm.specs.Transitions.{hart_at};
ghost use Rattle.board_rules.specs.History.{Event, by_hart};
ghost use Rattle.board_terms.specs.declared.op.Op.TheVariants.{Ecall};
ghost use Rattle.board_terms.specs.declared.reply.Reply.TheVariants.{Ret};
ghost use Rattle.board_terms.specs.Limits.{IsGood};
ghost use Rattle.board_rules.specs.Opening.{Opening, on, place_after};
ghost use Rattle.board_rules.specs.Replies.{call_reply, failure, success};
ghost use Rattle.board_machine.specs.Stands.{IsSized, IsStandingAt, StandsFor};
ghost use Rattle.rfence.specs.State.{call_at};

mod base_calls;
mod hsm_calls;
mod ipi_calls;
mod rfence_calls;
mod srst_calls;
mod time_calls;

use self::base_calls::base_reply;
pub use self::srst_calls::is_shutdown;
use crate::machine::Machine;
use board_terms::{Config, Reply};
use sbi_abi::{Call, SbiError, Sbiret};

impl Machine {
    /// Performs a call by hart `h`, which is STARTED, as the event at this place, and returns the reply.
    pub(crate) fn call(&mut self, config: &Config, place: u64, h: u64, call: Call) -> Reply
        requires good { IsGood config.now }
        requires sized { IsSized config.now self.old }
        requires in_range { h < config.now.harts }
        requires standing { IsStandingAt config.now place self.old }
        requires started { (hart_at self.old.hsm h).state ≡ states.Started }
        requires outside { call_at self.old.fences h ≡ None }
        ensures answered { (o : Opening) (past : List Event) → StandsFor (on config.now o) past self.old
            → result ≡ call_reply (on config.now o) past h call }
        ensures after { (o : Opening) (past : List Event) (regs : Regs) → place ≡ place_after o past
            → call ≡ call_of regs → StandsFor (on config.now o) past self.old →
            StandsFor (on config.now o) (by_hart h (Ecall regs) result ∷ past) self.new }
    {
        match call {
            Call::Base(call) => base_reply(call),
            Call::Time(call) => self.time_call(h, call),
            Call::Ipi(call) => self.ipi_call(config, call),
            Call::Rfence(call) => self.rfence_call(config, place, h, call),
            Call::Hsm(call) => self.hsm_call(config, h, call),
            Call::Srst(call) => self.srst_call(config, call),
            Call::Unsupported => failure(SbiError::NotSupported),
        }
    }
}

/// The reply of a call that succeeded.
fn success(value: u64) -> Reply
    ensures { result ≡ Ret (success value) }
{
    Reply::Ret(Sbiret { error: 0, value })
}

/// The reply of a call that failed; its value is 0 (profile).
fn failure(error: SbiError) -> Reply
    ensures { result ≡ Ret (failure error) }
{
    Reply::Ret(Sbiret {
        error: error.number(),
        value: 0,
    })
}
