//! Replies and refusals of steps.
ghost use Rattle.std.specs.Prelude.{◌≡◌};
ghost use Rattle.board_terms.specs.Refusals.{refusal_number};

use hsm::HartState;
use sbi_abi::Sbiret;
use sv39::Cause;
use thiserror::Error;

/// The reply of an accepted step.
#[derive(Clone, Copy, Debug, PartialEq, Eq)]
pub enum Reply {
    /// The call returns these values (SBI 3).
    Ret(Sbiret),
    /// The hart waits inside its call: a remote fence, or a retentive suspend (profile).
    Waiting,
    /// The call doesn't return: a stop, a non-retentive suspend or a reset (SBI 9.2, 9.4, 10.1).
    Gone,
    /// The hart begins at `addr`, with its id in a0 and `opaque` in a1 (SBI 9.1, 9.4).
    Entry {
        /// The address at which the hart begins.
        addr: u64,
        /// The hart's id, in a0.
        hart: u64,
        /// The opaque value of its start or its suspend, in a1.
        opaque: u64,
    },
    /// The value that was read.
    Value(u64),
    /// The access failed, for this cause (Privileged 4.1.8).
    Fault(Cause),
    /// A remote fence was applied (profile).
    Served,
    /// The hart is now in this state (SBI 9).
    Moved(HartState),
    /// The step is done, and has no value.
    Done,
}

/// Why a step is refused. Nothing changes.
#[derive(Clone, Copy, Debug, PartialEq, Eq, Error)]
pub enum Refusal {
    /// The power is off.
    #[error("the power is off")]
    Off,
    /// The operation isn't this kind of actor's, the hart doesn't exist, or its state doesn't allow the operation.
    #[error("not in this state, not by this actor, or no such hart")]
    WrongPhase,
    /// There is nothing to do.
    #[error("nothing to do")]
    Nothing,
    /// The history is full: it has as many events as its limit.
    #[error("history full")]
    HistoryFull,
    /// The time would exceed 2^64-2 ticks.
    #[error("the time would go past its end")]
    TimeFull,
}

impl Refusal {
    /// The refusal's number (profile).
    pub fn number(self) -> u64
        ensures { result ≡ refusal_number self }
    {
        match self {
            Refusal::Off => 1,
            Refusal::WrongPhase => 2,
            Refusal::Nothing => 3,
            Refusal::HistoryFull => 4,
            Refusal::TimeFull => 5,
        }
    }
}
