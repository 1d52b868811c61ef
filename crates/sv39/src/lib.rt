//! The memory of a board, satp, and the walk of page tables by Sv39 and Sv48 (Privileged 4.1.11, 4.3.2, 4.4, 4.5).
#![tactic(auto)]

mod cause;
mod entry;
mod lines;
mod nonzero;
mod packed;
mod page;
mod page_tables;
mod paging;
mod ram;
mod satp;

pub use cause::{Cause, Kind};
pub use packed::PackedRam;
pub use page::{Leaf, Level, PAGE_BYTES};
pub use page_tables::{maps_is_the_rule, one_leaf_for_a_page, walk};
pub use paging::{ASID_BITS, Paging, Spaces};
pub use ram::{RAM_START, Ram};
pub use satp::Satp;
