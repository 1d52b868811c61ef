//! What harts' TLBs may hold for addresses, step by step, whatever they keep.
#![tactic(auto)]

mod address;
mod effect;
mod events;
mod hart_address;
mod kept;
mod laws;
mod ready;
mod stale;
mod tracker;

pub use address::AddressWatch;
pub use effect::CacheEffect;
pub use events::{effect_of, effect_seen, is_quiet, quiet_operations_have_no_effect};
pub use hart_address::HartAddress;
pub use laws::{
    first_watches_are_watches, kept_watches_are_watches, trackers_follow_histories,
    trackers_outlast_quiet_events, watches_decide, watches_follow_histories,
};
pub use ready::Ready;
pub use stale::{is_stale, is_stale_use};
pub use tracker::Tracker;
