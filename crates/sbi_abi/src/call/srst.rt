//! The System Reset extension (SBI 10): its id and its function.

ghost use Rattle.std.specs.Prelude.{◌≡◌};
ghost use Rattle.sbi_abi.specs.declared.call.Call.TheVariants.{Unsupported};
ghost use Rattle.sbi_abi.specs.Calls.{named};
ghost use Rattle.sbi_abi.specs.Calls.Srst.{srst_listing};

use super::{Call, Regs};
use crate::answer::SbiError;
use crate::reset::{Reset, system_reset};

/// The extension's id, "SRST".
pub const SRST: u64 = 0x5352_5354;

/// A call of the System Reset extension (SBI 10).
#[derive(Clone, Copy, Debug, PartialEq, Eq)]
pub enum SrstCall {
    /// Resets the board (SBI 10.1): the reset, or the error for its type or reason.
    SystemReset(Result<Reset, SbiError>),
}

/// The function of this extension that the registers name.
pub fn srst_call(regs: &Regs) -> Call
    ensures { result ≡ named regs.now.fid Unsupported (srst_listing regs.now) }
{
    Call::Srst(match regs.fid {
        0 => SrstCall::SystemReset(system_reset(regs.a[0], regs.a[1])),
        _ => return Call::Unsupported,
    })
}
