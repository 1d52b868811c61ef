//! The marks of a record's accesses: which are stale, which a fence call missed, and which aren't steady, firm or lenient.
#![tactic(auto)]

mod accessed;
mod call_step;
mod changes;
mod entry_use;
mod followed;
mod laws;
mod logging;
mod marking;
mod marks;
mod missing;
mod registers;
mod taking;
mod use_watch;
mod words;

pub use laws::{unmarked_is_firm, unmarked_is_steady};
pub use marking::marks_of;
pub use marks::Marks;
