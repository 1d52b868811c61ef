//! Hart lists: which harts a mask and a base name.

ghost use Rattle.std.specs.Prelude.{◌≡◌, ℕ, ◌<◌, ◌≤◌, true, IfOk, MatchResult};
ghost use Rattle.hart_mask.specs.HartList.{names_stray, targets_of};
ghost use Rattle.hart_mask.specs.Ids.{has};

use crate::hart_set::HartSet;
use sbi_abi::SbiError;
use thiserror::Error;

/// Why a hart list is invalid: its base or its mask names a hart that doesn't exist (SBI 3, Hart list parameter).
#[derive(Clone, Copy, Debug, PartialEq, Eq, Error)]
#[error("invalid parameter")]
pub struct InvalidParam;

impl From<InvalidParam> for SbiError {
    ghost use Rattle.sbi_abi.specs.declared.answer.SbiError.TheVariants.{InvalidParam as Invalid};

    ghost from_gives = { λ _ error. error ≡ Invalid };

    fn from(_refused: InvalidParam) -> SbiError {
        SbiError::InvalidParam
    }
}

/// The harts that a hart list names among the harts below `n`: hart `base + i` for each bit i that is set in `mask`, or
/// all of them if `base` is `u64::MAX` (SBI 3, Hart list parameter).
///
/// # Errors
///
/// `base` is another number that isn't below `n` (even if `mask` is 0: profile), or the mask names a hart that isn't
/// below `n`.
pub fn targets(mask: u64, base: u64, n: u64) -> Result<HartSet, InvalidParam>
    requires { n ≤ 128 }
    ensures answer { MatchResult result (λ set. targets_of mask base n ≡ Some set)
        (λ _. targets_of mask base n ≡ None) }
    ensures below { IfOk result (λ set. (id : ℕ) → has set id ≡ true → id < n) }
{
    if base == u64::MAX {
        return Ok(HartSet::below(n));
    }
    if base >= n || has_stray(mask, base, n) {
        return Err(InvalidParam);
    }
    Ok(HartSet::named_by(mask, base))
}

/// Whether a bit that is set in `mask` names a hart that isn't below `n`.
fn has_stray(mask: u64, base: u64, n: u64) -> bool
    requires { base < n }
    ensures { result ≡ names_stray mask base n }
{
    let room = n - base;
    room < 64 && mask >> room != 0
}
