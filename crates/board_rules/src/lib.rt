//! The rules of a board's firmware, its answers and their effects, as definitions on an opening and a history, with
//! their laws.
//!
//! An `Event` is a step as a history stores it. This crate has no machine and no board.
#![tactic(auto)]

mod event;
mod keeping;
mod laws;
mod phase;
mod recording;
mod sie;
mod totals;

pub use event::{Event, access_of};
pub use laws::{cuts_are_not_seen, cuts_open_boards, errors_change_nothing, starts_are_entered};
pub use phase::Phase;
pub use recording::{record, record_access};
pub use sie::{Sie, interrupt_bits};
pub use totals::Totals;
