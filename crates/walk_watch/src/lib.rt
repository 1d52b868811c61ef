//! What walks of page tables may still see, whatever pointers and invalid entries TLBs keep, and which accesses are firm.
#![tactic(auto)]

mod former;
mod laws;
mod log;
mod noting;
mod ordering;
mod seeking;
mod sight;
mod table_word;
mod wanted;

pub use former::{FormerSatp, FormerWord, WalkNote};
pub use laws::logs_outlast_quiet_events;
pub use log::WalkLog;
