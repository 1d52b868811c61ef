//! The states of a board's harts, and how calls and the firmware's own steps change them (SBI 9, HSM states).
#![tactic(auto)]

mod hart;
mod harts;
mod phase;

pub use hart::{AlreadyAvailable, EntryPoint, HartState, Moved};
pub use harts::Hsm;
