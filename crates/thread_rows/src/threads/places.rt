//! Where the operations of harts stand in a record.

use crate::threads::gates::Turn;
use board_core::{Actor, Event};

/// The place of the operation of a hart that came at this turn.
fn place(events: &[Event], turn: Turn) -> Option<usize> {
    let mut before = 0;
    for (place, event) in events.iter().enumerate() {
        if event.actor() == Actor::Hart(turn.actor as u64) {
            if before == turn.ordinal {
                return Some(place);
            }
            before = usize::saturating_add(before, 1);
        }
    }
    None
}

/// Whether the operation of a turn stands after that of another one.
pub fn is_after(events: &[Event], turn: Turn, other: Turn) -> bool {
    match (place(events, turn), place(events, other)) {
        (Some(later), Some(sooner)) => sooner < later,
        _ => false,
    }
}
