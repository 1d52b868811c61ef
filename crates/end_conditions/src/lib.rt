//! What is asked of an order's end: registers of guests and words of the memory, joined by `and`, `or` and `not` (as litmus tests ask of
//! final states; profile).
#![tactic(auto)]

mod connectives;
mod finals;
mod truths;

pub use finals::FinalState;
pub use truths::holds_at_end;
