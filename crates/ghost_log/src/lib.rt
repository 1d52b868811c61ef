//! A list that only grows, for proofs only: what one holder knows about it stays true for all others. It doesn't exist
//! at run time.
#![tactic(auto)]

mod tokens;

pub use tokens::{ClosedLog, Log, Prefix};
