//! Addresses at harts.

/// An address at a hart: a virtual one, or a physical one.
#[derive(Clone, Copy, PartialEq, Eq)]
pub struct HartAddress {
    /// The hart.
    pub hart: u64,
    /// The address.
    pub address: u64,
}
