//! Kinds of system reset, and the one that a type and a reason name.

ghost use Rattle.std.specs.Prelude.{◌≡◌};
ghost use Rattle.sbi_abi.specs.ResetTypes.{is_reason, reset_kind_number, reset_kind_of, reset_of};

use crate::answer::SbiError;

/// The kinds of system reset (SBI 10.1).
#[derive(Clone, Copy, Debug, PartialEq, Eq)]
pub enum ResetKind {
    /// The board is powered off.
    Shutdown,
    /// The board starts again, with its memory cleared (that it is: profile).
    ColdReboot,
    /// The board starts again, and keeps its memory (profile).
    WarmReboot,
}

impl ResetKind {
    /// The reset type (SBI 10.1).
    pub fn number(self) -> u32
        ensures { result ≡ reset_kind_number self }
    {
        match self {
            ResetKind::Shutdown => 0,
            ResetKind::ColdReboot => 1,
            ResetKind::WarmReboot => 2,
        }
    }
}

/// What a call for a system reset asks for (SBI 10.1).
#[derive(Clone, Copy, Debug, PartialEq, Eq)]
pub struct Reset {
    /// The kind of reset.
    pub kind: ResetKind,
    /// The reset reason, its low 32 bits.
    pub reason: u32,
}

/// The reset that a type and a reason name, each by its low 32 bits; the upper bits are ignored (profile).
///
/// # Errors
///
/// `InvalidParam` for a reserved type, `NotSupported` for a vendor's; after these, `InvalidParam` for a reserved reason
/// (SBI 10.1; that the type is checked first: profile).
pub fn system_reset(reset_type: u64, reason: u64) -> Result<Reset, SbiError>
    ensures { result ≡ reset_of reset_type reason }
{
    let kind = reset_kind(reset_type)?;
    let reason = (reason % (1 << 32)) as u32;
    if !is_reason(reason) {
        return Err(SbiError::InvalidParam);
    }
    Ok(Reset { kind, reason })
}

/// The kind of reset that the low 32 bits of a type name, or the error for the type (SBI 10.1).
#[tactic(auto, unfolding(crate::specs::ResetTypes::reset_kind_of))]
fn reset_kind(reset_type: u64) -> Result<ResetKind, SbiError>
    ensures { result ≡ reset_kind_of reset_type }
{
    match reset_type % (1 << 32) {
        0 => Ok(ResetKind::Shutdown),
        1 => Ok(ResetKind::ColdReboot),
        2 => Ok(ResetKind::WarmReboot),
        0x3..=0xEFFF_FFFF => Err(SbiError::InvalidParam),
        _ => Err(SbiError::NotSupported),
    }
}

/// Whether a reason isn't reserved: no reason, system failure, or one of the SBI implementation, a vendor or a platform
/// (SBI 10.1).
fn is_reason(reason: u32) -> bool
    ensures { result ≡ is_reason reason }
{
    reason <= 1 || reason >= 0xE000_0000
}
