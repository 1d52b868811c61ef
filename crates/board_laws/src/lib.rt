//! Laws of every legal history of a board: the live items in its caches, accesses after fences, serves, resets and
//! cuts.
//!
//! Each function is a law, which its `ensures` states: there is nothing to run.
#![tactic(auto)]

mod accesses;
mod caches;
mod fences;
mod headlines;
mod need;
mod record;
mod resets;
mod seams;

pub use accesses::{fetches_are_fresh, steady_tables_decide, translations_are_fresh};
pub use caches::{
    fenced_is_gone, fences_outlast_cuts, fences_strike, lives_from_its_date, opened_is_gone,
    struck_is_gone,
};
pub use fences::{
    applied_is_counted, applied_once, asked_once, calls_are_made_started, fences_are_counted,
    opened_once, stops_leave_nothing, turns_are_right,
};
pub use headlines::headline;
pub use need::{
    needed_serves_are_accepted, needs_are_few, needs_are_left, no_step_raises_needs,
    served_calls_can_end, serves_lower_needs,
};
pub use record::recorded_is_recomputed;
pub use resets::resets_are_fresh;
pub use seams::cuts_are_never_seen;
