//! Types that boards, scripts and printers share: a board's numbers, actors, operations, replies and refusals.
#![tactic(auto)]

mod config;
mod op;
mod reply;

pub use config::{BuildFault, Config, USUAL_ASID_LEN, USUAL_WIDTH, is_start_address};
pub use op::{Actor, Op};
pub use reply::{Refusal, Reply};
