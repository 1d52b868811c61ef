//! Calls by their numbers, one file for each extension.

ghost use Rattle.std.specs.Prelude.{◌≡◌};
ghost use Rattle.sbi_abi.specs.Calls.{call_of, is_extension_id};

mod base;
mod hsm;
mod ipi;
mod rfence;
mod srst;
mod time;

pub use self::base::BaseCall;
use self::base::{BASE, base_call};
pub use self::hsm::HsmCall;
use self::hsm::{HSM, hsm_call};
pub use self::ipi::IpiCall;
use self::ipi::{IPI, ipi_call};
pub use self::rfence::RfenceCall;
use self::rfence::{RFENCE, rfence_call};
pub use self::srst::SrstCall;
use self::srst::{SRST, srst_call};
pub use self::time::TimeCall;
use self::time::{TIME, time_call};

/// The registers of an ECALL from a supervisor (SBI 3, Binary Encoding).
#[derive(Clone, Copy, Debug, PartialEq, Eq)]
pub struct Regs {
    /// The extension id, a7; compared whole (profile).
    pub eid: u64,
    /// The function id, a6; compared whole (profile).
    pub fid: u64,
    /// The arguments, a0 to a5.
    pub a: [u64; 6],
}

/// The function of an extension that an ECALL names.
#[derive(Clone, Copy, Debug, PartialEq, Eq)]
pub enum Call {
    /// A function of the Base extension (SBI 4).
    Base(BaseCall),
    /// A function of the Timer extension (SBI 6).
    Time(TimeCall),
    /// A function of the s-mode IPI extension (SBI 7).
    Ipi(IpiCall),
    /// A function of the RFENCE extension (SBI 8).
    Rfence(RfenceCall),
    /// A function of the Hart State Management extension (SBI 9).
    Hsm(HsmCall),
    /// A function of the System Reset extension (SBI 10).
    Srst(SrstCall),
    /// An extension or a function that isn't implemented (SBI 3).
    Unsupported,
}

/// The call that the registers name (SBI 3).
#[tactic(auto, unfolding(crate::specs::Calls::call_of))]
#[inline(always)]
pub fn decode(regs: &Regs) -> Call
    ensures { result ≡ call_of regs.now }
{
    match regs.eid {
        BASE => base_call(regs),
        TIME => time_call(regs),
        IPI => ipi_call(regs),
        RFENCE => rfence_call(regs),
        HSM => hsm_call(regs),
        SRST => srst_call(regs),
        _ => Call::Unsupported,
    }
}

/// Whether the board implements the extension `eid` (SBI 4.4).
pub fn is_extension(eid: u64) -> bool
    ensures { result ≡ is_extension_id eid }
{
    matches!(eid, BASE | TIME | IPI | RFENCE | HSM | SRST)
}
