//! Open fence calls.

use hart_mask::HartSet;

/// An open fence call: the place of its event, the harts that it asked, and its fence (SBI 8).
#[derive(Clone, Copy, Debug, PartialEq, Eq)]
pub struct FenceCall<F> {
    /// The place of the event by which the hart asked, among all events of the board.
    pub place: u64,
    /// The harts that it asked; the hart itself may be one of them.
    pub asked: HartSet,
    /// What the fence drops.
    pub flush: F,
}
