//! Values of expressions in assembly text: numbers, symbols, operators and parentheses (GNU as, Expressions, Symbols).
#![tactic(auto)]

mod faults;
mod operators;
mod parts;
mod symbols;
mod values;

pub use faults::{Fault, Wrong};
pub use parts::{high_part, low_part};
pub use symbols::{PcrelHigh, Scope, Symbol, first_named};
pub use values::{left_or_end, value_of};
