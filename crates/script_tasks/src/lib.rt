//! Replays schedules and checks traces: scripts in, printed boards and verdicts out.
#![tactic(auto)]

mod checking;
mod device;
mod ending;
mod fitting;
mod laws;
mod outcome;
mod replaying;
mod running;

pub use checking::check;
pub use device::{Device, ReadFault, Source, read_script};
pub use ending::{NoOutcome, ended};
pub use fitting::{answer_fits, op_fits};
pub use laws::read_back;
pub use outcome::Outcome;
pub use replaying::replay;
pub use running::unread;
