//! Reads a script's conditions: its comments that begin with `#!` (profile).
#![tactic(auto)]

mod asking;
mod beginnings;
mod columns;
mod faults;
mod items;
mod keywords;
mod laws;
mod marks;
mod names;
mod pattern_words;
mod patterns;
mod reading;
mod rules;
mod words;

pub use faults::{Fault, Wrong};
pub use items::Item;
pub use keywords::Keyword;
pub use laws::one_reading;
pub use marks::Mark;
pub use names::Name;
pub use patterns::Pattern;
pub use reading::{Condition, conditions};
pub use rules::{Ending, Rule};
