//! Prints a board's table, and the line of an event (profile).
#![tactic(auto)]

mod events;
mod table;

pub use events::print_event;
pub use printed_lines::{Failed, Page, Sink, print_head, print_line, print_reply, write_all};
pub use table::print;
