//! Atomic memory operations, and stores of 1, 2 and 4 bytes: what each makes of a word (unprivileged ISA 20191213, 8.4;
//! Zacas).
#![tactic(auto)]

mod amo;
mod function;
mod name;
mod part;

pub use amo::Amo;
pub use function::AmoFunction;
pub use name::AmoName;
