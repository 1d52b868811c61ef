//! Guests' programs, for threads and for exploration: what each hart's guest did and does next, which steps can be taken, and
//! how a run ended.
#![tactic(auto)]

mod block_guests;
mod blocks;
mod boards;
mod ends;
mod found_end;
mod guests;
mod met;
mod places;
mod programs;
mod steps;

pub use block_guests::BlockPlace;
pub use blocks::Program;
pub use boards::new_board;
pub use ends::{End, RunEnd, RunFault};
pub use found_end::end_of;
pub use guests::{Guests, guest_place_after, is_guest};
pub use met::Met;
pub use places::Places;
pub use programs::{blocks_in_order, program_in};
pub use steps::{Step, steps_are_all};
