//! Which steps a pattern matches.
ghost use Rattle.std.specs.Prelude.{◌↔◌, ◌≡◌, true};
ghost use Rattle.conditions.specs.Patterns.{FitsReply, FitsStep, FitsWord, Matches};

use crate::items::{reply_item, step_item};
use board_core::Event;
use condition_script::{Item, Pattern};

/// Whether a pattern matches a step.
pub fn matches(p: &Pattern, event: &Event) -> bool
    ensures { (result ≡ true) ↔ Matches p.now event.now }
{
    fits_step(p, event) && fits_reply(p, event)
}

/// Whether the actor and the operation of a step fit a pattern.
pub fn fits_step(p: &Pattern, event: &Event) -> bool
    ensures { (result ≡ true) ↔ FitsStep p.now event.now }
{
    for (place, wanted) in p.step.iter().enumerate() {
        if !fits(*wanted, step_item(event, place)) {
            return false;
        }
    }
    true
}

/// Whether the reply of a step fits a pattern.
pub fn fits_reply(p: &Pattern, event: &Event) -> bool
    ensures { (result ≡ true) ↔ FitsReply p.now event.now }
{
    for (place, wanted) in p.reply.iter().enumerate() {
        if !fits(*wanted, reply_item(event, place)) {
            return false;
        }
    }
    true
}

/// Whether a word of a pattern fits the word in its place.
fn fits(wanted: Option<Item>, found: Option<Item>) -> bool
    ensures { (result ≡ true) ↔ FitsWord wanted found }
{
    match (wanted, found) {
        (_, None) => false,
        (None, Some(_)) => true,
        (Some(wanted), Some(found)) => wanted == found,
    }
}
