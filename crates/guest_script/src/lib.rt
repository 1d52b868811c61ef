//! Reads scripts: a board line, and then a program, a schedule or a trace (profile).
#![tactic(auto)]

mod amo_letters;
mod blocks;
mod board_line;
mod draft;
mod fault;
mod hart_digits;
mod laws;
mod line_kind;
mod numbers;
mod parsing;
mod plain;
mod plain_digits;
mod progress;
mod reader;
mod step;
mod wrong;

pub use fault::{FaultKind, ScriptFault};
pub use laws::{faults_are_first, one_reading};
pub use line_words::{next_word, number as unsigned_number, signed_number, without_return};
pub use parsing::{locate, parse};
pub use reader::Reader;
pub use script_lines::{
    Block, Body, Doing, KeptLine, Line, LineFault, Lines, LinesIter, Said, Script,
};
pub use wrong::{Misread, Wrong};
