//! The states of a hart, and what a start or a suspend keeps.

ghost use Rattle.std.specs.Prelude.{◌≡◌};
ghost use Rattle.hsm.specs.States.{goes_on, is_interruptible, is_started, state_number};

use sbi_abi::SbiError;
use thiserror::Error;

/// The state of a hart (SBI 9, HSM states).
#[derive(Clone, Copy, Debug, PartialEq, Eq)]
pub enum HartState {
    /// The hart runs its guest.
    Started,
    /// The hart is at rest until another hart starts it.
    Stopped,
    /// A call asked to start the hart, and it hasn't begun yet.
    StartPending,
    /// The hart asked to stop itself, and isn't at rest yet.
    StopPending,
    /// The hart is suspended until an enabled interrupt is pending.
    Suspended,
    /// The hart asked to suspend itself, and isn't suspended yet.
    SuspendPending,
    /// An interrupt woke the hart, and it hasn't resumed yet.
    ResumePending,
}

impl HartState {
    /// The state's number, as hart_get_status returns it (SBI 9, HSM states).
    pub fn number(self) -> u64
        ensures { result ≡ state_number self }
    {
        match self {
            HartState::Started => 0,
            HartState::Stopped => 1,
            HartState::StartPending => 2,
            HartState::StopPending => 3,
            HartState::Suspended => 4,
            HartState::SuspendPending => 5,
            HartState::ResumePending => 6,
        }
    }

    /// Whether the hart runs its guest.
    pub fn is_started(self) -> bool
        ensures { result ≡ is_started self }
    {
        self == HartState::Started
    }

    /// Whether the firmware can advance a hart in this state. A SUSPENDED hart needs `wake`: an enabled interrupt is
    /// pending (SBI 9.4; that a step does it: profile).
    pub fn goes_on(self, wake: bool) -> bool
        ensures { result ≡ goes_on wake self }
    {
        match self {
            HartState::Started | HartState::Stopped => false,
            HartState::Suspended => wake,
            HartState::StartPending
            | HartState::StopPending
            | HartState::SuspendPending
            | HartState::ResumePending => true,
        }
    }

    /// Whether an interrupt or a remote fence reaches a hart in this state (profile).
    pub fn is_interruptible(self) -> bool
        ensures { result ≡ is_interruptible self }
    {
        match self {
            HartState::Started
            | HartState::Suspended
            | HartState::SuspendPending
            | HartState::ResumePending => true,
            HartState::Stopped | HartState::StartPending | HartState::StopPending => false,
        }
    }
}

/// What a start keeps until the hart begins, and a non-retentive suspend until it resumes (SBI 9.1, 9.4).
#[derive(Clone, Copy, Debug, PartialEq, Eq)]
pub struct EntryPoint {
    /// The address at which the hart begins.
    pub addr: u64,
    /// The value that the hart finds in a1.
    pub opaque: u64,
}

/// What the firmware's step did to a hart.
#[derive(Clone, Copy, Debug, PartialEq, Eq)]
pub enum Moved {
    /// The hart is STARTED, and begins as its start asked.
    Entered(EntryPoint),
    /// The hart is STARTED, and begins as its non-retentive suspend asked.
    Resumed(EntryPoint),
    /// The hart is STARTED, and returns from the call of its retentive suspend.
    Returned,
    /// The hart is now in this state.
    To(HartState),
}

/// Why a start fails: the hart isn't STOPPED (SBI 9.1).
#[derive(Clone, Copy, Debug, PartialEq, Eq, Error)]
#[error("already available")]
pub struct AlreadyAvailable;

impl From<AlreadyAvailable> for SbiError {
    ghost use Rattle.sbi_abi.specs.declared.answer.SbiError.TheVariants.{AlreadyAvailable as Already};

    ghost from_gives = { λ _ error. error ≡ Already };

    fn from(_refused: AlreadyAvailable) -> SbiError {
        SbiError::AlreadyAvailable
    }
}
