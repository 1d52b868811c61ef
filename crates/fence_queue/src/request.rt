//! A waiting fence, and the hart that asked it.

/// A fence that a hart asked of another hart (SBI 8).
#[derive(Clone, Copy, Debug, PartialEq, Eq)]
pub struct Request<F> {
    /// The id of the hart that asked.
    pub from: u64,
    /// What the fence drops.
    pub flush: F,
}
