//! What events are for remote fence calls.
ghost use Rattle.std.specs.Prelude.{◌≡◌, ◌≤◌};
ghost use Rattle.board_terms.specs.Limits.{IsGood};
ghost use Rattle.access_marks.specs.Inside.Calls.{asked_by, asked_by_flush, reset_step, step_by_call, step_of};
ghost use Rattle.board_rules.specs.Calls.Rfence.{flush_of_range, remote_by_rfence};
ghost use Rattle.board_rules.specs.Calls.Srst.{reset_by_srst};

use board_core::{Actor, Config, Event, Op, Reply};
use sbi_abi::call::{RfenceCall, SrstCall};
use sbi_abi::{Call, SbiError, decode};
use sv39::Spaces;
use tlb_model::{Fence, Flush, is_wrong_range};

/// What an event is for remote fence calls (SBI 8).
#[derive(Clone, Copy, PartialEq, Eq)]
pub(crate) enum CallStep {
    /// The hart asked for this fence of translations, by a call that waits.
    Asked(u64, Fence),
    /// The hart polled: its call, if it is inside one, succeeded.
    Polled(u64),
    /// A system reset dropped all calls (SBI 10; profile).
    Dropped,
    /// None of these.
    Other,
}

impl CallStep {
    /// What an event of a board with these numbers is.
    pub(crate) fn of(config: &Config, event: &Event) -> CallStep
        requires { IsGood config.now }
        ensures { result ≡ step_of config.now event.now.actor event.now.op event.now.reply }
    {
        match event.op() {
            Op::Ecall(regs) => CallStep::by_call(
                config,
                event.actor(),
                decode(&regs),
                event.reply(),
            ),
            Op::Poll => match event.actor() {
                Actor::Hart(hart) => CallStep::Polled(hart),
                Actor::Clock => CallStep::Other,
            },
            _ => CallStep::Other,
        }
    }

    /// What a call is.
    fn by_call(config: &Config, actor: Actor, call: Call, reply: Reply) -> CallStep
        requires { IsGood config.now }
        ensures { result ≡ step_by_call config.now actor call reply }
    {
        match call {
            Call::Rfence(call) => CallStep::by_fence(config, actor, call, reply),
            Call::Srst(call) => CallStep::by_reset(call, reply),
            _ => CallStep::Other,
        }
    }

    /// What a remote fence call is: if it waits, its hart asked for a fence.
    fn by_fence(config: &Config, actor: Actor, call: RfenceCall, reply: Reply) -> CallStep
        requires { IsGood config.now }
        ensures { result ≡ asked_by config.now actor call reply }
    {
        match actor {
            Actor::Hart(hart) => match reply {
                Reply::Waiting => CallStep::by_flush(hart, remote_flush(config, call)),
                _ => CallStep::Other,
            },
            Actor::Clock => CallStep::Other,
        }
    }

    /// What a hart asked for that is inside a remote fence call which drops this.
    fn by_flush(hart: u64, flush: Result<Flush, SbiError>) -> CallStep
        ensures { result ≡ asked_by_flush hart flush }
    {
        match flush {
            Ok(Flush::Entries(fence)) => CallStep::Asked(hart, fence),
            _ => CallStep::Other,
        }
    }

    /// What a system reset call is: if it doesn't return, it drops all calls.
    fn by_reset(call: SrstCall, reply: Reply) -> CallStep
        ensures { result ≡ reset_step (reset_by_srst call reply) }
    {
        match call {
            SrstCall::SystemReset(Ok(_)) => match reply {
                Reply::Gone => CallStep::Dropped,
                _ => CallStep::Other,
            },
            SrstCall::SystemReset(Err(_)) => CallStep::Other,
        }
    }
}

/// What a remote fence drops, or the error for its range (SBI 8).
fn remote_flush(config: &Config, call: RfenceCall) -> Result<Flush, SbiError>
    requires { IsGood config.now }
    ensures { result ≡ (remote_by_rfence config.now call).flush }
{
    let spaces = config.spaces();
    match call {
        RfenceCall::RemoteFenceI { .. } => Ok(Flush::Words),
        RfenceCall::RemoteSfenceVma { start, size, .. } => {
            range_flush(spaces, start, size, None)
        }
        RfenceCall::RemoteSfenceVmaAsid {
            start,
            size,
            asid,
            ..
        } => range_flush(spaces, start, size, Some(asid)),
    }
}

/// What a remote SFENCE.VMA of a range drops, or the error for its range (SBI 8).
fn range_flush(spaces: Spaces, start: u64, size: u64, asid: Option<u64>) -> Result<Flush, SbiError>
    requires { spaces.asid_len ≤ 16 }
    ensures { result ≡ flush_of_range spaces start size asid }
{
    if is_wrong_range(start, size) {
        return Err(SbiError::InvalidAddress);
    }
    Ok(Flush::Entries(Fence::of_range(spaces, start, size, asid)))
}
