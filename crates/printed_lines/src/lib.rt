//! Printed lines, except the board's table: sinks of bytes, and the text of board lines, steps and replies (profile).
#![tactic(auto)]

mod hex_text;
mod line_text;
mod lines;
mod page;
mod sink;

pub use line_text::LineText;
pub use lines::{bit_of, print_head, print_line, print_reply};
pub use page::Page;
pub use sink::{Failed, Sink, write_all};
