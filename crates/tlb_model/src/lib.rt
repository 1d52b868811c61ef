//! The two caches of a hart, of translations and of fetched words, and the fences that drop items from them (Privileged
//! 4.2.1; Zifencei). Each cache numbers its fills, and keeps the last 16, without those that fences dropped (profile).
#![tactic(auto)]

mod cache;
mod caches;
mod entry;
mod fence;
mod laws;
mod live;
mod rights;
mod tag;
mod word;

pub use cache::{Cache, Cached, Numbered};
pub use caches::{Caches, ICache, Tlb};
pub use entry::{Address, Entry};
pub use fence::{Fence, Flush, Range, is_wrong_range};
pub use laws::{
    caches_go_on, caches_keep_what_lives, cleared_is_gone, common_address, covered_is_gone,
    hit_is_the_last, live_was_filled,
};
pub use live::Live;
pub use word::FetchWord;
