//! Register computation of RV64I and RV64M: what each operation makes of two registers, when a branch is taken, and what a
//! load takes from memory (unprivileged ISA 20191213, 2, 5, 7).
#![tactic(auto)]

mod alu;
mod comparison;
mod double;
mod high;
mod load;
mod upper;
mod word;

pub use alu::AluOp;
pub use comparison::Comparison;
pub use load::LoadKind;
pub use upper::{auipc, immediate, lui};
pub use word::WordOp;
