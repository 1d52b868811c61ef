//! What stood before: words of the memory, and harts' satps.

use sv39::Satp;
use tlb_model::Flush;

/// A word that the memory had before it changed.
#[derive(Clone, Copy, PartialEq, Eq)]
pub struct FormerWord {
    /// Its physical address.
    pub at: u128,
    /// The word. None: the RAM has none there.
    pub word: Option<u64>,
}

/// A satp that a hart had before it changed.
#[derive(Clone, Copy)]
pub struct FormerSatp {
    /// The hart.
    pub hart: u64,
    /// The satp.
    pub satp: Satp,
}

/// What happened to the words that walks of page tables read.
#[derive(Clone, Copy)]
pub enum WalkNote {
    /// This word changed.
    Was(FormerWord),
    /// This fence of translations was applied at this hart.
    Fence(u64, Flush),
}
