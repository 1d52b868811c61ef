//! The Timer extension (SBI 6): its id and its function.

ghost use Rattle.std.specs.Prelude.{◌≡◌};
ghost use Rattle.sbi_abi.specs.declared.call.Call.TheVariants.{Unsupported};
ghost use Rattle.sbi_abi.specs.Calls.{named};
ghost use Rattle.sbi_abi.specs.Calls.Time.{time_listing};

use super::{Call, Regs};

/// The extension's id, "TIME".
pub const TIME: u64 = 0x5449_4D45;

/// A call of the Timer extension (SBI 6).
#[derive(Clone, Copy, Debug, PartialEq, Eq)]
pub enum TimeCall {
    /// Sets the calling hart's deadline to this time, in ticks (SBI 6.1).
    SetTimer(u64),
}

/// The function of this extension that the registers name.
pub fn time_call(regs: &Regs) -> Call
    ensures { result ≡ named regs.now.fid Unsupported (time_listing regs.now) }
{
    Call::Time(match regs.fid {
        0 => TimeCall::SetTimer(regs.a[0]),
        _ => return Call::Unsupported,
    })
}
