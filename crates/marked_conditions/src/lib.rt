//! Conditions that ask of marks (profile).
#![tactic(auto)]

mod laws;
mod needs;
mod patterns;
mod places;
mod rules;

pub use laws::{marks_are_not_asked, what_tells_nothing_matches_nothing};
pub use needs::{has_telling, see_needed};
pub use patterns::{mark_of, matches_with};
pub use places::{asks_of_marks, asks_of_walks, failing_step_with};
pub use rules::{first_unfit, first_with, holds_with};
