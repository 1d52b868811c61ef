//! Messages about a script's faults, and where its text has conditions and operations of blocks.
#![tactic(auto)]

mod case;
mod columns;
mod untested;

pub use case::{Case, Walk, number_in, said};
pub use untested::{bad_board, bad_condition, faulty};
