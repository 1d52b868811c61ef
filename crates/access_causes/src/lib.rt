//! Why accesses of a record are stale, unsteady, or not firm: what each used or may use, since when, and which fence would have ended
//! it.
//!
//! What is found here is shown, and decides no verdict.
#![tactic(auto)]

mod cause;
mod entry_look;
mod fences;
mod following;
mod look;
mod possible_look;
mod runs;
mod seen;
mod sight;
mod walk_look;
mod word_look;

pub use cause::{AccessCause, Asked, Asks, Fencing, Former, Held, Origin, Reach, Walked};
pub use following::{causes_of, with_room};
