//! Instructions of RV64I and M as values, with Zicsr and the supervisor's instructions (unprivileged ISA 20191213, 2, 5, 7, 9;
//! Privileged 3.3, 4.2).
#![tactic(auto)]

mod csr;
mod instruction;
mod register;

pub use csr::{Csr, CsrHow, CsrSource};
pub use instruction::Instruction;
pub use register::Register;
