//! Whether a hart is inside a fence call.
/// Whether a hart is inside a fence call (SBI 8; that a call waits: profile).
#[derive(Clone, Copy, Debug, PartialEq, Eq)]
pub enum Phase {
    /// The hart is in no fence call.
    Outside,
    /// The hart is inside a fence call, until it polls.
    Inside,
}
