//! One access of a hart to the memory: the check of its address, the translation by the TLB or the page tables, and the
//! word read or written (Privileged 4.1.11, 4.2.1, 4.4, 4.5; Zifencei).
#![tactic(auto)]

mod accesses;
mod laws;
mod perform;
mod way;

pub use accesses::{Access, Accessed};
pub use laws::{entry_is_filled, entry_is_used, place_is_of_the_entry, word_is_filled};
pub use perform::access;
pub use way::Way;
