//! The program's library: scripts in, printed boards and verdicts on traces out.
#![tactic(auto)]

mod keeping;
mod threaded;

pub use command_line::{Subcommand, asked_as_written, command};
pub use hart_threads::Open;
pub use keeping::KeepFault;
pub use monitor::Sink;
pub use script_tasks::{
    Device, NoOutcome, Outcome, ReadFault, Source, check, ended, read_back, read_script, replay,
};
pub use threaded::{KeptRun, run_and_keep, run_script};
