//! What conditions say: which steps a pattern matches, which records meet a condition, and what no record can meet (profile).
#![tactic(auto)]

mod endings;
mod items;
mod misfits;
mod patterns;
mod rules;
mod vacuity;

pub use condition_script::{
    Condition, Ending, Fault, Item, Keyword, Mark, Name, Pattern, Rule, Wrong, conditions,
    one_reading,
};
pub use endings::ending;
pub use misfits::{Misfit, first_misfit, first_misfit_with};
pub use patterns::{fits_reply, fits_step, matches};
pub use rules::{first_from, first_other_reply, holds, names_end};
pub use vacuity::{NeedsMet, has_fitting, vacuous_conditions_say_nothing};
