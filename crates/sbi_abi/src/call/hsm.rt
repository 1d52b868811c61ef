//! The Hart State Management extension (SBI 9): its id and its functions.

ghost use Rattle.std.specs.Prelude.{◌≡◌};
ghost use Rattle.sbi_abi.specs.declared.call.Call.TheVariants.{Unsupported};
ghost use Rattle.sbi_abi.specs.Calls.{named};
ghost use Rattle.sbi_abi.specs.Calls.Hsm.{hsm_listing};

use super::{Call, Regs};
use crate::answer::SbiError;
use crate::suspend::{SuspendKind, suspend_kind};

/// The extension's id, "HSM".
pub const HSM: u64 = 0x48_534D;

/// A call of the Hart State Management extension (SBI 9).
#[derive(Clone, Copy, Debug, PartialEq, Eq)]
pub enum HsmCall {
    /// Starts a hart (SBI 9.1).
    HartStart {
        /// The hart's id.
        hart: u64,
        /// The address at which the hart begins.
        addr: u64,
        /// The value that the hart finds in a1.
        opaque: u64,
    },
    /// Stops the calling hart (SBI 9.2).
    HartStop,
    /// The state of the hart of this id (SBI 9.3).
    HartGetStatus(u64),
    /// Suspends the calling hart (SBI 9.4).
    HartSuspend {
        /// The kind of suspend, or the error for its type.
        kind: Result<SuspendKind, SbiError>,
        /// The address at which the hart begins after a non-retentive suspend.
        addr: u64,
        /// The value that the hart then finds in a1.
        opaque: u64,
    },
}

/// The function of this extension that the registers name.
#[inline(always)]
pub fn hsm_call(regs: &Regs) -> Call
    ensures { result ≡ named regs.now.fid Unsupported (hsm_listing regs.now) }
{
    let [first, second, third, ..] = regs.a;
    Call::Hsm(match regs.fid {
        0 => HsmCall::HartStart {
            hart: first,
            addr: second,
            opaque: third,
        },
        1 => HsmCall::HartStop,
        2 => HsmCall::HartGetStatus(first),
        3 => HsmCall::HartSuspend {
            kind: suspend_kind(first),
            addr: second,
            opaque: third,
        },
        _ => return Call::Unsupported,
    })
}
