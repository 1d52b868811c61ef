//! Findings about many records: how many meet each condition, how they ended, and how many are different.
#![tactic(auto)]

mod batch;
mod ends;
mod findings;
mod jobs;
mod judgement;
mod judging;
mod marking;
mod matched;
mod orders;
mod tally;
mod visits;

pub use batch::Batch;
pub use ends::Ends;
pub use findings::{Findings, Judged};
pub use jobs::try_in_jobs;
pub use judgement::{Judgement, asks_of_ends, judgement_of};
pub use judging::{failing_step, judge, meets};
pub use marking::{ask_of_marks, ask_of_walks, marks_asked};
pub use matched::{is_each_met, is_met};
pub use orders::try_orders;
pub use tally::Tally;
pub use visits::{Deed, Spot, Visits};
