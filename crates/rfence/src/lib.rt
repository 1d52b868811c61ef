//! Remote fences (SBI 8): the fences that wait at each hart, those that were applied, and the harts that a call waits
//! for.
#![tactic(auto)]

mod awaited;
mod caches;
mod calls;
mod cuts;
mod fences;
mod laws;
mod need;
mod opened;
mod pending;

pub use caches::Fenced;
pub use cuts::{begins_right, cuts_are_seamless, kept_is_the_opening, stands_after_a_cut};
pub use fences::Fences;
pub use laws::{
    applied_is_counted, applied_once, boards_are_small, counts_agree, opened_once,
    others_change_nothing, success_strikes, turns_come_later, waits_are_of_open_calls,
};
pub use need::{
    needs_are_bounded, needs_are_left, none_raises_needs, served_calls_can_end, serves_lower_needs,
};
pub use opened::FenceCall;
pub use pending::Waiting;
