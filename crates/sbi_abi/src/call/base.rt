//! The Base extension (SBI 4): its id and its functions.

ghost use Rattle.std.specs.Prelude.{◌≡◌};
ghost use Rattle.sbi_abi.specs.declared.call.Call.TheVariants.{Unsupported};
ghost use Rattle.sbi_abi.specs.Calls.{named};
ghost use Rattle.sbi_abi.specs.Calls.Base.{base_listing};

use super::{Call, Regs};

/// The extension's id.
pub const BASE: u64 = 0x10;

/// A call of the Base extension (SBI 4).
#[derive(Clone, Copy, Debug, PartialEq, Eq)]
pub enum BaseCall {
    /// The version of the specification that is implemented (SBI 4.1).
    GetSpecVersion,
    /// The id of the implementation (SBI 4.2).
    GetImplId,
    /// The version of the implementation (SBI 4.3).
    GetImplVersion,
    /// Whether the extension of this id is implemented (SBI 4.4).
    ProbeExtension(u64),
    /// The CSR mvendorid (SBI 4.5).
    GetMvendorid,
    /// The CSR marchid (SBI 4.6).
    GetMarchid,
    /// The CSR mimpid (SBI 4.7).
    GetMimpid,
}

/// The function of this extension that the registers name.
pub fn base_call(regs: &Regs) -> Call
    ensures { result ≡ named regs.now.fid Unsupported (base_listing regs.now) }
{
    Call::Base(match regs.fid {
        0 => BaseCall::GetSpecVersion,
        1 => BaseCall::GetImplId,
        2 => BaseCall::GetImplVersion,
        3 => BaseCall::ProbeExtension(regs.a[0]),
        4 => BaseCall::GetMvendorid,
        5 => BaseCall::GetMarchid,
        6 => BaseCall::GetMimpid,
        _ => return Call::Unsupported,
    })
}
