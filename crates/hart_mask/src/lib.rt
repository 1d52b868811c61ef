//! Sets of hart ids, and the hart list of a call (SBI 3, Hart list parameter).
#![tactic(auto)]

mod hart_ids;
mod hart_list;
mod hart_set;

pub use hart_ids::HartIds;
pub use hart_list::{InvalidParam, targets};
pub use hart_set::HartSet;
