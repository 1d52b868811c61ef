//! The program's command line: what its words ask for.
#![tactic(auto)]

mod words;

pub use words::{Subcommand, asked_as_written, command};
