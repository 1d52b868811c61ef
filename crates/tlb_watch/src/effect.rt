//! What an event does to the caches of the harts.

use tlb_model::Flush;

/// What an event does to the caches of the harts, whatever they keep.
#[derive(Clone, Copy, PartialEq, Eq)]
pub enum CacheEffect {
    /// Nothing.
    Nothing,
    /// A fence is applied at this hart (Privileged 4.2.1; SBI 8).
    Applied(u64, Flush),
    /// A reset empties the caches of each hart (profile).
    Reset,
}
