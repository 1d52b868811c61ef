//! Seeded orders of a program's steps: a generator picks each step, instead of threads.
#![tactic(auto)]

mod kept;
mod orders;
mod pickers;
mod ranks;

pub use kept::{choices, choices_tell_records};
pub use orders::{try_order, try_order_on};
