//! What a call returns: a pair of values, or an error by its number.

ghost use Rattle.std.specs.Prelude.{◌≡◌};
ghost use Rattle.sbi_abi.specs.Errors.{error_number};

use thiserror::Error;

/// What a call returns: `error` in a0 and `value` in a1 (SBI 3, Binary Encoding).
#[derive(Clone, Copy, Debug, PartialEq, Eq)]
pub struct Sbiret {
    /// 0 for success, else the number of an `SbiError` (SBI 3).
    pub error: i64,
    /// The value of a successful call; 0 with every error (profile).
    pub value: u64,
}

/// Why a call failed (SBI 3, Standard SBI Errors).
#[derive(Clone, Copy, Debug, PartialEq, Eq, Error)]
pub enum SbiError {
    /// Failed, -1.
    #[error("failed")]
    Failed,
    /// Not supported, -2.
    #[error("not supported")]
    NotSupported,
    /// Invalid parameter(s), -3.
    #[error("invalid parameter")]
    InvalidParam,
    /// Denied or not allowed, -4.
    #[error("denied")]
    Denied,
    /// Invalid address(es), -5.
    #[error("invalid address")]
    InvalidAddress,
    /// Already available, -6.
    #[error("already available")]
    AlreadyAvailable,
    /// Already started, -7.
    #[error("already started")]
    AlreadyStarted,
    /// Already stopped, -8.
    #[error("already stopped")]
    AlreadyStopped,
}

impl SbiError {
    /// The error's number, as a0 holds it (SBI 3).
    pub fn number(self) -> i64
        ensures { result ≡ error_number self }
    {
        match self {
            SbiError::Failed => -1,
            SbiError::NotSupported => -2,
            SbiError::InvalidParam => -3,
            SbiError::Denied => -4,
            SbiError::InvalidAddress => -5,
            SbiError::AlreadyAvailable => -6,
            SbiError::AlreadyStarted => -7,
            SbiError::AlreadyStopped => -8,
        }
    }
}
