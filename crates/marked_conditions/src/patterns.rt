//! Which steps a pattern matches, with their marks.
ghost use Rattle.std.specs.Prelude.{◌↔◌, ◌≡◌, true};
ghost use Rattle.marked_conditions.specs.Marked.{FitsMark, MatchesWith, told_mark, mark_of};

use access_marks::Marks;
use board_core::Event;
use conditions::{Item, Mark, Name, Pattern, fits_reply, fits_step};

/// Whether a pattern matches a step with these marks.
pub fn matches_with(p: &Pattern, event: &Event, marks: Marks) -> bool
    ensures { (result ≡ true) ↔ MatchesWith p.now event.now marks }
{
    fits_step(p, event) && fits_mark(p, event, marks)
}

/// Whether the step has a pattern's mark, or, without a mark, a reply that fits.
pub(crate) fn fits_mark(p: &Pattern, event: &Event, marks: Marks) -> bool
    ensures { (result ≡ true) ↔ FitsMark (mark_of p.now) p.now event.now marks }
{
    match mark_of(p) {
        Some(mark) => told_mark(mark, marks),
        None => fits_reply(p, event),
    }
}

/// The mark in the place of a pattern's reply, if there is one.
pub fn mark_of(p: &Pattern) -> Option<Mark>
    ensures { result ≡ mark_of p.now }
{
    match p.reply.first() {
        Some(Some(Item::Word(Name::Mark(mark)))) => Some(*mark),
        _ => None,
    }
}

/// Whether an access has a mark.
pub(crate) fn told_mark(mark: Mark, marks: Marks) -> bool
    ensures { result ≡ told_mark mark marks }
{
    match mark {
        Mark::Stale => marks.stale,
        Mark::Missed => marks.missed,
        Mark::Unsteady => marks.unsteady,
        Mark::Unfirm => marks.unfirm,
        Mark::Unlenient => marks.unlenient,
    }
}
