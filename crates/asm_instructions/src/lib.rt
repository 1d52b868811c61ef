//! What the assembler makes of an instruction and its operands (RISC-V Assembly Programmer's Manual; unprivileged ISA 20191213, 2, 5,
//! 7, 8.4, 9; Privileged 3.3, 4.2).
#![tactic(auto)]

mod compute;
mod csrs;
mod jumps;
mod made;
mod memory;
mod operands;
mod pcrel;
mod ranges;
mod rules;
mod shapes;
mod sizes;
mod supervisor;
mod taken;

pub use made::Made;
pub use operands::{CsrName, Operand, Operands, first_operand};
pub use pcrel::high_distance;
pub use rules::instructions_of;
pub use sizes::count_of;
