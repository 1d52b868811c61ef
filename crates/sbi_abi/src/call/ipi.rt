//! The s-mode IPI extension (SBI 7): its id and its function.

ghost use Rattle.std.specs.Prelude.{◌≡◌};
ghost use Rattle.sbi_abi.specs.declared.call.Call.TheVariants.{Unsupported};
ghost use Rattle.sbi_abi.specs.Calls.{named};
ghost use Rattle.sbi_abi.specs.Calls.Ipi.{ipi_listing};

use super::{Call, Regs};

/// The extension's id, "sPI".
pub const IPI: u64 = 0x73_5049;

/// A call of the IPI extension (SBI 7).
#[derive(Clone, Copy, Debug, PartialEq, Eq)]
pub enum IpiCall {
    /// Makes a software interrupt pending at the harts of a list (SBI 7.1).
    SendIpi {
        /// Bit i names hart `base + i`.
        mask: u64,
        /// The hart id of bit 0; 2^64-1 names all harts, whatever the mask (SBI 3).
        base: u64,
    },
}

/// The function of this extension that the registers name.
pub fn ipi_call(regs: &Regs) -> Call
    ensures { result ≡ named regs.now.fid Unsupported (ipi_listing regs.now) }
{
    let [mask, base, ..] = regs.a;
    Call::Ipi(match regs.fid {
        0 => IpiCall::SendIpi { mask, base },
        _ => return Call::Unsupported,
    })
}
