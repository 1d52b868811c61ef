//! The lines of a text, the words of a line up to its comment, and the numbers that words spell (profile).
#![tactic(auto)]

mod columns;
mod digits;
mod text;
mod words;

pub use columns::{column, from_bad_byte, from_next, from_word};
pub use digits::{LAST_ABOVE, LAST_BELOW, below_zero, number, push_digit, signed_number};
pub use text::{is_clean, next_line, without_return};
pub use words::{after_arrow, has_arrow, next_word, next_word_until};
