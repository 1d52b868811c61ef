//! A board of harts with its firmware: it takes one step at a time, and records the accepted ones.
//!
//! Each answer of a `Board` is a definition of `specs/` on its opening and its kept history.
#![tactic(auto)]

mod board;
mod opening;
mod packed;
mod view;

pub use board::{Board, Segment};
pub use board_machine::Csrs;
pub use board_rules::{
    Event, Phase, Sie, Totals, cuts_are_not_seen, cuts_open_boards, errors_change_nothing,
    starts_are_entered,
};
pub use board_terms::{Actor, BuildFault, Config, Op, Refusal, Reply, USUAL_ASID_LEN, USUAL_WIDTH};
pub use fence_queue::Request;
pub use hart_mask::HartSet;
pub use hsm::{EntryPoint, HartState};
pub use opening::{Opening, Taken};
pub use packed::PackedOpening;
pub use rfence::Waiting;
pub use sbi_abi::{Reset, ResetKind};
pub use sv39::{Cause, Kind, Leaf, Level};
pub use tlb_model::{Entry, Fence, FetchWord, Flush, Live, Numbered, Range};
pub use view::View;
