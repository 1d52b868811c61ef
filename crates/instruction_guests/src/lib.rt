//! Guests of instructions as guests of a board, for threads and explorations.
#![tactic(auto)]

mod asm_places;

pub use asm_places::InstructionGuests;
