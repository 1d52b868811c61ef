//! The phase of one hart: its state, with its entry point.

ghost use Rattle.std.specs.Prelude.{◌≡◌, option_map};
ghost use Rattle.hsm.specs.Inside.Phases.{hart_of};
ghost use Rattle.hsm.specs.Transitions.{advanced, kept_by};

use crate::hart::{EntryPoint, HartState, Moved};
use sbi_abi::SuspendKind;

/// A hart's state, with the entry point that the state keeps.
#[derive(Clone, Copy, Debug, PartialEq, Eq)]
pub enum Phase {
    Started,
    Stopped,
    StartPending(EntryPoint),
    StopPending,
    SuspendPending(Option<EntryPoint>),
    Suspended(Option<EntryPoint>),
    ResumePending(Option<EntryPoint>),
}

impl Phase {
    /// The hart's state.
    pub fn state(self) -> HartState
        ensures { result ≡ (hart_of self).state }
    {
        match self {
            Phase::Started => HartState::Started,
            Phase::Stopped => HartState::Stopped,
            Phase::StartPending(_) => HartState::StartPending,
            Phase::StopPending => HartState::StopPending,
            Phase::SuspendPending(_) => HartState::SuspendPending,
            Phase::Suspended(_) => HartState::Suspended,
            Phase::ResumePending(_) => HartState::ResumePending,
        }
    }

    /// The entry point that its pending start or its suspend keeps.
    pub fn kept(self) -> Option<EntryPoint>
        ensures { result ≡ (hart_of self).kept }
    {
        match self {
            Phase::StartPending(kept) => Some(kept),
            Phase::SuspendPending(kept) | Phase::Suspended(kept) | Phase::ResumePending(kept) => {
                kept
            }
            Phase::Started | Phase::Stopped | Phase::StopPending => None,
        }
    }

    /// The phase after the firmware's own step, and what the step did. None: the hart can't advance.
    pub fn advanced(self, wake: bool) -> Option<(Phase, Moved)>
        ensures { option_map (λ step. record { hart = hart_of step.0; moved = step.1 }) result
            ≡ advanced wake (hart_of self) }
    {
        match self {
            Phase::StartPending(kept) => Some((Phase::Started, Moved::Entered(kept))),
            Phase::StopPending => Some((Phase::Stopped, Moved::To(HartState::Stopped))),
            Phase::SuspendPending(kept) => {
                Some((Phase::Suspended(kept), Moved::To(HartState::Suspended)))
            }
            Phase::Suspended(kept) if wake => Some((
                Phase::ResumePending(kept),
                Moved::To(HartState::ResumePending),
            )),
            Phase::ResumePending(Some(kept)) => Some((Phase::Started, Moved::Resumed(kept))),
            Phase::ResumePending(None) => Some((Phase::Started, Moved::Returned)),
            Phase::Suspended(_) | Phase::Started | Phase::Stopped => None,
        }
    }
}

/// The entry point that a suspend of this kind keeps: a retentive suspend keeps none.
pub fn kept_by(kind: SuspendKind, kept: EntryPoint) -> Option<EntryPoint>
    ensures { result ≡ kept_by kind kept }
{
    match kind {
        SuspendKind::Retentive => None,
        SuspendKind::NonRetentive => Some(kept),
    }
}
