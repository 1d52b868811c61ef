//! Runs guests' programs on threads behind one lock: one thread for each hart of a board, and one for its clock.
#![tactic(auto)]

mod choosing;
mod clock;
mod gate;
mod harts;
mod histories;
mod plans;
mod program_run;
mod starting;
mod work;

pub use gate::{Gate, Open};
pub use guest_programs::{End, RunEnd, RunFault};
pub use histories::runs_are_histories;
pub use program_run::run;
