//! What stopped the actors of a run.
ghost use Rattle.std.specs.Prelude.{◌≡◌};
ghost use Rattle.guest_programs.specs.Met.{met_by_both, met_by_refusal};

use board_core::Refusal;

/// What stopped an actor, if anything.
#[derive(Clone, Copy, Debug, PartialEq, Eq)]
pub enum Met {
    /// Nothing.
    Nothing,
    /// An operation was refused because the history was full.
    FullHistory,
    /// The gate answered false.
    ClosedGate,
}

impl Met {
    /// What an actor met by this refusal. Only a full history stops an actor.
    pub fn by_refusal(refusal: Refusal) -> Met
        ensures { result ≡ met_by_refusal refusal }
    {
        match refusal {
            Refusal::HistoryFull => Met::FullHistory,
            _ => Met::Nothing,
        }
    }

    /// What two actors met together: a closed gate comes first.
    pub fn and(self, other: Met) -> Met
        ensures { result ≡ met_by_both self other }
    {
        match (self, other) {
            (Met::ClosedGate, _) | (_, Met::ClosedGate) => Met::ClosedGate,
            (Met::FullHistory, _) | (_, Met::FullHistory) => Met::FullHistory,
            (Met::Nothing, Met::Nothing) => Met::Nothing,
        }
    }
}
