//! Conditions that ask of marks, judged on the record of a schedule or a trace.
ghost use Rattle.std.specs.Prelude.{◌≡◌, IfOk, IfSome, length};

use access_causes::with_room;
use access_marks::{Marks, marks_of};
use board_core::{Config, Event};
use conditions::{Rule, first_misfit_with};
use marked_conditions::{asks_of_marks, failing_step_with, has_telling, holds_with};
use outcome_statistics::{failing_step, is_met, meets};
use std::alloc::{AllocError, Global};
use test_report::{Unjudged, Verdict};

/// The marks of a record's events, if they are asked for, and the record isn't longer than a history can be. With `walks` they say which
/// accesses aren't firm or lenient.
///
/// # Errors
///
/// Out of memory.
pub(crate) fn marks_if(
    alloc: Global,
    are_asked: bool,
    walks: bool,
    config: &Config,
    events: &[Event],
) -> Result<Option<Vec<Marks>>, AllocError>
    ensures { IfOk result (λ found. IfSome found (λ marks. length marks.items ≡ length events.now)) }
{
    if !are_asked {
        return Ok(None);
    }
    match with_room(config, events.len() as u64) {
        Some(config) => marks_of(alloc, &config, events, walks),
        None => Ok(None),
    }
}

/// The verdict of a condition on a record, which has these marks if some condition asks of them.
pub(crate) fn judged(
    rule: &Rule,
    harts: u64,
    events: &[Event],
    marks: &Option<Vec<Marks>>,
) -> Verdict
    requires { IfSome marks.now (λ marks. length marks.items ≡ length events.now) }
{
    if let Some(misfit) = first_misfit_with(rule, harts) {
        return Verdict::Misfit(misfit);
    }
    if !asks_of_marks(rule) {
        return Verdict::of(meets(rule, events, &[], None));
    }
    match marks {
        Some(marks) => Verdict::of(holds_with(rule, events, marks, None)),
        None => Verdict::NotJudged(Unjudged::NoMarks),
    }
}

/// The place of the step with which a record fails a condition, if there is one.
pub(crate) fn failing_place(
    rule: &Rule,
    events: &[Event],
    marks: &Option<Vec<Marks>>,
) -> Option<usize>
    requires { IfSome marks.now (λ marks. length marks.items ≡ length events.now) }
{
    match marks {
        Some(marks) if asks_of_marks(rule) => failing_step_with(rule, events, marks),
        _ => failing_step(Some(rule), events),
    }
}

/// Whether each pattern of a condition has a step in a record. Of a mark only a step counts of which it tells something.
pub(crate) fn is_met_by(rule: &Rule, events: &[Event], marks: &Option<Vec<Marks>>) -> bool
    requires { IfSome marks.now (λ marks. length marks.items ≡ length events.now) }
{
    match marks {
        Some(marks) if asks_of_marks(rule) => is_met_with(rule, events, marks),
        _ => is_met(rule, events),
    }
}

/// Whether each pattern of a condition has a step in a record of which it tells something.
fn is_met_with(rule: &Rule, events: &[Event], marks: &[Marks]) -> bool
    requires { length events.now ≡ length marks.now }
{
    match rule {
        Rule::Never(p) | Rule::OfSome(p) | Rule::Each(p) => has_telling(p, events, marks),
        Rule::NeverAfter(p, q) | Rule::Before(p, q) => {
            has_telling(p, events, marks) && has_telling(q, events, marks)
        }
        Rule::End(_) | Rule::CanEnd(_) => true,
    }
}
