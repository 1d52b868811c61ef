//! Guests of instructions: what each does next on a board, and what a reply makes of it (unprivileged ISA 20191213; Privileged
//! 20211203).
#![tactic(auto)]

mod csrs;
mod guest;
mod local;
mod operations;
mod replies;
mod state;
mod unknowns;
mod words;

pub use csrs::GuestCsrs;
pub use guest::{AsmGuest, Code, Lost, at_entry, guest_after, next_operation};
pub use state::{GuestState, RegisterContent};
pub use unknowns::{unknown_after, unknown_at_entry};
pub use words::{put_guest_words, words_tell};
