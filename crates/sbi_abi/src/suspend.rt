//! Kinds of suspend, and the one that a type names.

ghost use Rattle.std.specs.Prelude.{◌≡◌};
ghost use Rattle.sbi_abi.specs.SuspendTypes.{suspend_kind_of};

use crate::answer::SbiError;

/// The kinds of suspend that the board implements (SBI 9.4).
#[derive(Clone, Copy, Debug, PartialEq, Eq)]
pub enum SuspendKind {
    /// The hart keeps its registers. When it resumes, its call returns.
    Retentive,
    /// The hart loses its registers. When it resumes, it begins at the call's address.
    NonRetentive,
}

/// The kind of suspend that a type names by its low 32 bits; the upper bits are ignored (profile).
///
/// # Errors
///
/// `InvalidParam` for a reserved type, `NotSupported` for a platform's (SBI 9.4; that the board has none: profile).
#[tactic(auto, unfolding(crate::specs::SuspendTypes::suspend_kind_of))]
pub fn suspend_kind(suspend_type: u64) -> Result<SuspendKind, SbiError>
    ensures { result ≡ suspend_kind_of suspend_type }
{
    match suspend_type % (1 << 32) {
        0 => Ok(SuspendKind::Retentive),
        0x1..=0x0FFF_FFFF => Err(SbiError::InvalidParam),
        0x1000_0000..=0x7FFF_FFFF => Err(SbiError::NotSupported),
        0x8000_0000 => Ok(SuspendKind::NonRetentive),
        0x8000_0001..=0x8FFF_FFFF => Err(SbiError::InvalidParam),
        _ => Err(SbiError::NotSupported),
    }
}
