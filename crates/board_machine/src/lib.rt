//! The machine of a board: its components, and the effects of operations on them.
//!
//! For every opening and history that a machine stands for, an operation gets the reply that the definitions of
//! `board_rules` give. Then the machine stands for the history with the operation's event.
#![tactic(auto)]

mod calls;
mod counts;
mod csrs;
mod interrupt_state;
mod machine;
mod memory;
mod taking;

pub use calls::is_shutdown;
pub use counts::Counts;
pub use csrs::Csrs;
pub use interrupt_state::Interrupts;
pub use machine::Machine;
pub use memory::Memory;
