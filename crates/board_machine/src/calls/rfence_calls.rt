//! The RFENCE extension (SBI 8).

ghost use Rattle.std.specs.Prelude.{◌≡◌, ℕ, ◌<◌, ◌≤◌, List, ◌∷◌, None, Option, Result};
ghost use Rattle.sbi_abi.specs.declared.answer.SbiError.{SbiError};
ghost use Rattle.sbi_abi.specs.declared.call.Call.TheVariants as calls;
ghost use Rattle.sbi_abi.specs.declared.call.rfence.RfenceCall.{RfenceCall};
ghost use Rattle.sbi_abi.specs.declared.call.Regs.{Regs};
ghost use Rattle.sbi_abi.specs.Calls.{call_of};
ghost use Rattle.rfence.specs.State.{call_at};
ghost use Rattle.board_rules.specs.Calls.Rfence.{fence_reply, flush_of_range, remote_by_rfence, rfence_reply};
ghost use Rattle.board_rules.specs.Returns.{as_reply};
ghost use Rattle.board_rules.specs.History.{Event, by_hart};
ghost use Rattle.board_terms.specs.declared.op.Op.TheVariants.{Ecall};
ghost use Rattle.board_terms.specs.Limits.{IsGood};
ghost use Rattle.board_rules.specs.Opening.{Opening, on, place_after};
ghost use Rattle.board_machine.specs.Stands.{IsSized, IsStandingAt, StandsFor};

use super::failure;
use crate::machine::Machine;
use board_terms::{Config, Reply};
use hart_mask::targets;
use sbi_abi::SbiError;
use sbi_abi::call::RfenceCall;
use sv39::Spaces;
use tlb_model::{Fence, Flush, is_wrong_range};

impl Machine {
    /// Performs a call of the RFENCE extension by hart `h`, as the event at this place: asks the harts of its hart list
    /// for its fence (SBI 8).
    pub(crate) fn rfence_call(
        &mut self,
        config: &Config,
        place: u64,
        h: u64,
        call: RfenceCall,
    ) -> Reply
        requires good { IsGood config.now }
        requires sized { IsSized config.now self.old }
        requires in_range { h < config.now.harts }
        requires standing { IsStandingAt config.now place self.old }
        requires outside { call_at self.old.fences h ≡ None }
        ensures answered { result ≡ as_reply (rfence_reply config.now call) }
        ensures after { (o : Opening) (past : List Event) (regs : Regs) → place ≡ place_after o past
            → calls.Rfence call ≡ call_of regs → StandsFor (on config.now o) past self.old →
            StandsFor (on config.now o) (by_hart h (Ecall regs) result ∷ past) self.new }
    {
        match call {
            RfenceCall::RemoteFenceI { mask, base } => {
                self.remote_fence(config, place, h, mask, base, Ok(Flush::Words))
            }
            RfenceCall::RemoteSfenceVma {
                mask,
                base,
                start,
                size,
            } => self.remote_fence(
                config,
                place,
                h,
                mask,
                base,
                flush_of_range(config.spaces(), start, size, None),
            ),
            RfenceCall::RemoteSfenceVmaAsid {
                mask,
                base,
                start,
                size,
                asid,
            } => {
                let flush = flush_of_range(config.spaces(), start, size, Some(asid));
                self.remote_fence(config, place, h, mask, base, flush)
            }
        }
    }

    /// Asks the harts of a hart list for a fence, on behalf of the calling hart `h` (SBI 8). It skips harts that aren't
    /// in an interruptible state (profile).
    #[inline(always)]
    fn remote_fence(
        &mut self,
        config: &Config,
        place: u64,
        h: u64,
        mask: u64,
        base: u64,
        flush: Result<Flush, SbiError>,
    ) -> Reply
        requires good { IsGood config.now }
        requires sized { IsSized config.now self.old }
        requires in_range { h < config.now.harts }
        requires standing { IsStandingAt config.now place self.old }
        requires outside { call_at self.old.fences h ≡ None }
        ensures answered { result
            ≡ as_reply (fence_reply config.now (record { mask = mask; base = base; flush = flush })) }
        ensures after { (o : Opening) (past : List Event) (regs : Regs) (call : RfenceCall)
            → place ≡ place_after o past
            → remote_by_rfence config.now call ≡ record { mask = mask; base = base; flush = flush } →
            calls.Rfence call ≡ call_of regs → StandsFor (on config.now o) past self.old →
            StandsFor (on config.now o) (by_hart h (Ecall regs) result ∷ past) self.new }
    {
        let harts = match targets(mask, base, config.harts) {
            Ok(harts) => harts,
            Err(refused) => return failure(refused.into()),
        };
        match flush {
            Ok(flush) => {
                let asked = harts.intersection(self.hsm.interruptible());
                self.fences
                    .ask(&mut self.memory.caches, place, h, asked, flush);
                Reply::Waiting
            }
            Err(error) => failure(error),
        }
    }
}

/// What a remote SFENCE.VMA of a range drops, or the error for its range (SBI 8; which ranges are invalid: profile).
fn flush_of_range(
    spaces: Spaces,
    start: u64,
    size: u64,
    asid: Option<u64>,
) -> Result<Flush, SbiError>
    requires { spaces.asid_len ≤ 16 }
    ensures { result ≡ flush_of_range spaces start size asid }
{
    if is_wrong_range(start, size) {
        return Err(SbiError::InvalidAddress);
    }
    Ok(Flush::Entries(Fence::of_range(spaces, start, size, asid)))
}
