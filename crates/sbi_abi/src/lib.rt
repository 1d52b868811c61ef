//! The binary interface between a supervisor and its SBI implementation: the calls by their numbers, and the pair of
//! values that a call returns (SBI 1.0.0).
#![tactic(auto)]

mod answer;
pub mod call;
mod reset;
mod suspend;

pub use answer::{SbiError, Sbiret};
pub use call::{Call, Regs, decode, is_extension};
pub use reset::{Reset, ResetKind};
pub use suspend::SuspendKind;
