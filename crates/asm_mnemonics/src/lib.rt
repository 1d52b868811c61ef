//! The mnemonics of instructions and pseudo-instructions, and the form of their operands (unprivileged ISA 20191213, 2, 5, 7, 9, 25;
//! RISC-V Assembly Programmer's Manual, Pseudoinstructions).
#![tactic(auto)]

mod forms;
mod mnemonics;

pub use forms::{OperandForm, Unsupported};
pub use mnemonics::{MNEMONICS, operands_of};
