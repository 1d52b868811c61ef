//! The RFENCE extension (SBI 8): its id and its functions.

ghost use Rattle.std.specs.Prelude.{◌≡◌};
ghost use Rattle.sbi_abi.specs.declared.call.Call.TheVariants.{Unsupported};
ghost use Rattle.sbi_abi.specs.Calls.{named};
ghost use Rattle.sbi_abi.specs.Calls.Rfence.{rfence_listing};

use super::{Call, Regs};

/// The extension's id, "RFNC".
pub const RFENCE: u64 = 0x5246_4E43;

/// A call of the RFENCE extension (SBI 8).
#[derive(Clone, Copy, Debug, PartialEq, Eq)]
pub enum RfenceCall {
    /// Asks the harts of a list for a FENCE.I (SBI 8.1).
    RemoteFenceI {
        /// Bit i names hart `base + i`.
        mask: u64,
        /// The hart id of bit 0; 2^64-1 names all harts, whatever the mask (SBI 3).
        base: u64,
    },
    /// Asks the harts of a list for an SFENCE.VMA of a range of virtual addresses (SBI 8.2).
    RemoteSfenceVma {
        /// Bit i names hart `base + i`.
        mask: u64,
        /// The hart id of bit 0; 2^64-1 names all harts, whatever the mask (SBI 3).
        base: u64,
        /// The first virtual address.
        start: u64,
        /// The number of bytes. The range is all addresses if this and `start` are 0, or if this is 2^64-1 (SBI 8).
        size: u64,
    },
    /// Asks the harts of a list for an SFENCE.VMA of a range of virtual addresses in one address space (SBI 8.3).
    RemoteSfenceVmaAsid {
        /// Bit i names hart `base + i`.
        mask: u64,
        /// The hart id of bit 0; 2^64-1 names all harts, whatever the mask (SBI 3).
        base: u64,
        /// The first virtual address.
        start: u64,
        /// The number of bytes. The range is all addresses if this and `start` are 0, or if this is 2^64-1 (SBI 8).
        size: u64,
        /// The ASID, in the low 16 bits; the upper bits are ignored (profile).
        asid: u64,
    },
}

/// The function of this extension that the registers name.
pub fn rfence_call(regs: &Regs) -> Call
    ensures { result ≡ named regs.now.fid Unsupported (rfence_listing regs.now) }
{
    let [mask, base, start, size, asid, _] = regs.a;
    Call::Rfence(match regs.fid {
        0 => RfenceCall::RemoteFenceI { mask, base },
        1 => RfenceCall::RemoteSfenceVma {
            mask,
            base,
            start,
            size,
        },
        2 => RfenceCall::RemoteSfenceVmaAsid {
            mask,
            base,
            start,
            size,
            asid,
        },
        _ => return Call::Unsupported,
    })
}
