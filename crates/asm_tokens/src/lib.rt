//! The tokens of assembly text, names of registers, and numbers (GNU as, Syntax; RISC-V psABI, Integer Register Convention).
#![tactic(auto)]

mod bytes;
mod laws;
mod marks;
mod numbers;
mod places;
mod reader;
mod registers;
mod runs;
mod terms;
mod tokens;

pub use laws::one_row;
pub use marks::Mark;
pub use numbers::asm_number;
pub use places::{TextPlace, place_at};
pub use reader::{Placed, TokenFault, TokensFault, read_tokens};
pub use registers::register_number;
pub use terms::{Term, is_local_label, word_term};
pub use tokens::{BadText, First, Token, first_token};
