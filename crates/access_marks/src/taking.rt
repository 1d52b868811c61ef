//! The step of an event, as a board takes it.
ghost use Rattle.std.specs.Prelude.{◌≡◌, ◌↔◌, ◌∷◌, true};
ghost use Rattle.access_marks.specs.Inside.Following.{IsNext};

use board_core::{Board, Entry, Event, Reply};
use sv39::Leaf;

/// Makes the board take the step of an event. Whether the step is this event: accepted, with its reply, and by the entry that it
/// used. If it isn't, the board has no meaning any more.
pub(crate) fn takes(board: &mut Board, event: &Event) -> bool
    ensures is { (result ≡ true) ↔ IsNext board.old.opening board.old.past event.now }
    ensures after { result ≡ true
        → board.new ≡ record { opening = board.old.opening; past = event.now ∷ board.old.past } }
{
    let index = board.history().len();
    match board.step(event.actor(), event.op()) {
        Ok(reply) => is_event(reply, board.history()[index].translation(), event),
        Err(_) => false,
    }
}

/// Whether an event has this reply, and used this entry.
fn is_event(reply: Reply, used: Option<Entry>, event: &Event) -> bool
    ensures { (result ≡ true) ↔ ((reply ≡ event.now.reply) × (used ≡ event.now.translation)) }
{
    is_reply(reply, event.reply()) && is_use(used, event.translation())
}

/// Whether two replies are the same.
fn is_reply(a: Reply, b: Reply) -> bool
    ensures { (result ≡ true) ↔ (a ≡ b) }
{
    a == b
}

/// Whether two accesses used the same entry, or none.
fn is_use(a: Option<Entry>, b: Option<Entry>) -> bool
    ensures { (result ≡ true) ↔ (a ≡ b) }
{
    match (a, b) {
        (Some(a), Some(b)) => is_entry(a, b),
        (None, None) => true,
        _ => false,
    }
}

/// Whether two entries are the same.
pub(crate) fn is_entry(a: Entry, b: Entry) -> bool
    ensures { (result ≡ true) ↔ (a ≡ b) }
{
    is_leaf(a.leaf(), b.leaf()) && a.asid() == b.asid()
}

/// Whether two leaves are the same.
fn is_leaf(a: Leaf, b: Leaf) -> bool
    ensures { (result ≡ true) ↔ (a ≡ b) }
{
    a == b
}
