//! The counts of the board's table.
/// The counts of the board's table (profile). Starts and entries count since the last reset, fences since the first
/// opening.
#[derive(Clone, Copy, Debug, PartialEq, Eq)]
pub struct Totals {
    /// Starts of harts, including the boot start.
    pub starts: u64,
    /// Entries of starts.
    pub entries: u64,
    /// Harts in START_PENDING.
    pub pending: u64,
    /// Fences asked: pairs of an accepted remote fence call and a hart that it asks.
    pub asked: u64,
    /// Fences asked that were applied.
    pub applied: u64,
    /// Fences that wait at harts.
    pub waiting: u64,
}
