//! The marks of a record.
ghost use Rattle.std.specs.Prelude.{◌≡◌, IfOk, IfSome, MatchOption, length, reverse, true};
ghost use Rattle.board_terms.specs.Limits.{IsGood};
ghost use Rattle.board_core.specs.Opening.{opening_at};
ghost use Rattle.board_core.specs.Replies.{IsLegal};
ghost use Rattle.access_marks.specs.Marks.{AreMarked, AreWalksMarked};

use crate::accessed::accessed;
use crate::followed::Followed;
use crate::marks::Marks;
use board_core::{Config, Event};
use std::alloc::{AllocError, Global};

/// The marks of each event of a record, oldest first, on a board with these numbers from its first opening on. None: the record
/// isn't a history of such a board. The cost is linear in the events, and for each in the addresses that the record accesses, and in
/// its different stale accesses. With `walks` they say also which accesses aren't firm or lenient, and the cost of each access grows
/// with the changes of words and the fences before it.
///
/// # Errors
///
/// Out of memory.
pub fn marks_of(
    alloc: Global,
    config: &Config,
    events: &[Event],
    walks: bool,
) -> Result<Option<Vec<Marks>>, AllocError>
    requires { IsGood config.now }
    ensures marks { IfOk result (λ found. MatchOption found (¬ IsLegal (opening_at config.now) (reverse events.now))
        (λ marks. IsLegal (opening_at config.now) (reverse events.now)
        × AreMarked (opening_at config.now) (reverse events.now) (reverse marks.items))) }
    ensures walks { IfOk result (λ found. IfSome found (λ marks. walks ≡ true
        → AreWalksMarked (opening_at config.now) (reverse events.now) (reverse marks.items))) }
    ensures length { IfOk result (λ found. IfSome found (λ marks. length marks.items ≡ length events.now)) }
{
    let Some(addresses) = accessed(alloc, config.harts, events)? else {
        return Ok(None);
    };
    let mut followed = Followed::new(alloc, config, &addresses, walks)?;
    let mut marks = Vec::with_capacity(alloc, events.len())?;
    for event in events {
        let found = followed.marks(alloc, event)?;
        let Some(after) = followed.step(alloc, event)? else {
            return Ok(None);
        };
        followed = after;
        marks.push(found)?;
    }
    Ok(Some(marks))
}
