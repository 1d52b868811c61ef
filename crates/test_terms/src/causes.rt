//! Why the accesses of a failing record have the marks that a condition asks of.
ghost use Rattle.std.specs.Prelude.{◌≡◌, length};

use access_causes::{Asked, Asks, causes_of};
use access_marks::Marks;
use board_core::Event;
use conditions::{Mark, Pattern, Rule};
use diagnostics::Case;
use marked_conditions::{failing_step_with, first_with, mark_of};
use std::alloc::{AllocError, Global};
use test_report::{Detail, RecordParts, ToldCause};

/// Adds why accesses of a record have the marks with which it fails a condition. The record's events have these marks.
///
/// # Errors
///
/// Memory was refused.
pub fn put_causes(
    alloc: Global,
    case: &Case<'_>,
    rule: &Rule,
    record: RecordParts<'_>,
    marks: &[Marks],
    details: &mut Vec<Detail>,
) -> Result<(), AllocError>
    requires { length record.events.now ≡ length marks.now }
{
    let asked = marked_accesses(alloc, rule, record.events, marks)?;
    let causes = told_causes(alloc, case, record, &asked)?;
    if !causes.is_empty() {
        details.push(Detail::Causes(causes))?;
    }
    Ok(())
}

/// Why these accesses of a record are stale, unsteady, or not firm. Their places ascend.
///
/// # Errors
///
/// Memory was refused.
pub fn told_causes(
    alloc: Global,
    case: &Case<'_>,
    record: RecordParts<'_>,
    asked: &[Asked],
) -> Result<Vec<ToldCause>, AllocError> {
    let mut told = Vec::new(alloc);
    if asked.is_empty() {
        return Ok(told);
    }
    for cause in causes_of(alloc, record.board.config(), record.events, asked)? {
        told.push(ToldCause::of(alloc, case, &record, cause)?)?;
    }
    Ok(told)
}

/// The accesses whose marks make a record fail a condition. Their places ascend.
fn marked_accesses(
    alloc: Global,
    rule: &Rule,
    events: &[Event],
    marks: &[Marks],
) -> Result<Vec<Asked>, AllocError>
    requires { length events.now ≡ length marks.now }
{
    let mut asked = Vec::new(alloc);
    if let Rule::NeverAfter(_, q) = rule
        && let Some(mark) = mark_of(q)
        && let Some(place) = first_with(q, events, marks, 0)
    {
        asked.push(asked_of(place, mark, marks))?;
    }
    if let Some(p) = failing_pattern(rule)
        && let Some(mark) = mark_of(p)
        && let Some(place) = failing_step_with(rule, events, marks)
    {
        asked.push(asked_of(place, mark, marks))?;
    }
    Ok(asked)
}

/// What is asked of the access in a place that has this mark, by all of its marks.
fn asked_of(place: usize, mark: Mark, marks: &[Marks]) -> Asked {
    let is_unsteady = marks.get(place).is_some_and(|marks| marks.unsteady);
    let asks = match mark {
        Mark::Unfirm if !is_unsteady => Asks::Firm,
        Mark::Unlenient if is_unsteady => Asks::LenientOrHeld,
        Mark::Unlenient => Asks::Lenient,
        _ => Asks::Held,
    };
    Asked { place, asks }
}

/// The pattern whose step makes a record fail a condition.
fn failing_pattern(rule: &Rule) -> Option<&Pattern> {
    match rule {
        Rule::Never(p) | Rule::NeverAfter(p, _) | Rule::Before(_, p) => Some(p),
        Rule::OfSome(_) | Rule::Each(_) | Rule::End(_) | Rule::CanEnd(_) => None,
    }
}
