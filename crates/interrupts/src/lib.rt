//! Pending interrupts of a board's harts: software interrupts (SBI 7), and timer interrupts by their deadlines (SBI 6).
#![tactic(auto)]

mod ahead;
mod ipis;
mod timers;

pub use ipis::Ipis;
pub use timers::{TimeFull, Timers};
