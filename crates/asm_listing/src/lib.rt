//! The instructions of an assembled program, as its guests find them: by their addresses.
#![tactic(auto)]

mod code_index;

pub use code_index::CodeIndex;
