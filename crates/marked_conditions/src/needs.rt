//! Whether a record with marks has the steps that a condition needs.
ghost use Rattle.std.specs.Prelude.{◌≡◌, ◌↔◌, ◌⊎◌, ℕ, length, true};
ghost use Rattle.conditions.specs.Patterns.{FitsStep};
ghost use Rattle.marked_conditions.specs.Marked.{IsAtWith, mark_of};
ghost use Rattle.marked_conditions.specs.Needs.{HasTelling, IsTelling, MeetsFirstWith, MeetsSecondWith, could_have, is_fetch, is_of_page_fault, is_page_fault, is_telling, is_word};

use crate::patterns::{mark_of, told_mark};
use crate::rules::first_with;
use access_marks::Marks;
use board_core::{Event, Op, Reply};
use conditions::{Mark, NeedsMet, Pattern, Rule, fits_step};
use sv39::Cause;

/// Adds the steps of a record with marks that a condition needs.
pub fn see_needed(met: &mut NeedsMet, rule: &Rule, events: &[Event], marks: &[Marks])
    requires { length events.now ≡ length marks.now }
    ensures first { (met.new.first ≡ true)
        ↔ ((met.old.first ≡ true) ⊎ MeetsFirstWith rule.now events.now marks.now) }
    ensures second { (met.new.second ≡ true)
        ↔ ((met.old.second ≡ true) ⊎ MeetsSecondWith rule.now events.now marks.now) }
{
    met.first = met.first || meets_first(rule, events, marks);
    met.second = met.second || meets_second(rule, events, marks);
}

/// Whether a record has the step that the first pattern needs.
fn meets_first(rule: &Rule, events: &[Event], marks: &[Marks]) -> bool
    requires { length events.now ≡ length marks.now }
    ensures { (result ≡ true) ↔ MeetsFirstWith rule.now events.now marks.now }
{
    match rule {
        Rule::Never(p) => has_telling(p, events, marks),
        Rule::NeverAfter(p, _) => has_telling(p, events, marks),
        Rule::OfSome(p) => has_telling(p, events, marks),
        Rule::Each(p) => has_telling(p, events, marks),
        Rule::Before(p, _) => has_telling(p, events, marks),
        Rule::End(_) | Rule::CanEnd(_) => false,
    }
}

/// Whether it has the step that the second one needs.
fn meets_second(rule: &Rule, events: &[Event], marks: &[Marks]) -> bool
    requires { length events.now ≡ length marks.now }
    ensures { (result ≡ true) ↔ MeetsSecondWith rule.now events.now marks.now }
{
    match rule {
        Rule::NeverAfter(_, q) => has_matching(q, events, marks),
        Rule::Before(_, q) => has_telling(q, events, marks),
        Rule::Never(_) | Rule::OfSome(_) | Rule::Each(_) | Rule::End(_) | Rule::CanEnd(_) => false,
    }
}

/// Whether a pattern matches some step.
fn has_matching(q: &Pattern, events: &[Event], marks: &[Marks]) -> bool
    requires { length events.now ≡ length marks.now }
    ensures { (result ≡ true) ↔ ((k : ℕ) × IsAtWith q.now events.now marks.now k) }
{
    first_with(q, events, marks, 0).is_some()
}

/// Whether some step has an actor and an operation that fit, and the pattern's mark, if it has one, tells something of it.
pub fn has_telling(p: &Pattern, events: &[Event], marks: &[Marks]) -> bool
    requires { length events.now ≡ length marks.now }
    ensures { (result ≡ true) ↔ HasTelling p.now events.now marks.now }
{
    for k in 0..events.len() {
        if tells(p, &events[k], marks[k]) {
            return true;
        }
    }
    false
}

/// Whether this step is such.
fn tells(p: &Pattern, event: &Event, marks: Marks) -> bool
    ensures { (result ≡ true) ↔ (FitsStep p.now event.now × IsTelling (mark_of p.now) event.now marks) }
{
    fits_step(p, event) && is_marked_telling(p, event, marks)
}

/// Whether a pattern's mark, if it has one, tells something of a step.
fn is_marked_telling(p: &Pattern, event: &Event, marks: Marks) -> bool
    ensures { (result ≡ true) ↔ IsTelling (mark_of p.now) event.now marks }
{
    match mark_of(p) {
        Some(mark) => is_telling(mark, event, marks),
        None => true,
    }
}

/// Whether a step has a mark, or could have had it.
fn is_telling(mark: Mark, event: &Event, marks: Marks) -> bool
    ensures { result ≡ is_telling mark event.now marks }
{
    told_mark(mark, marks) || could_have(mark, event)
}

/// Whether other entries or fetched words could have given a step the mark: it used an entry, an entry could have kept it from
/// its page fault, or, of `unsteady`, `unfirm` and `unlenient`, it fetched a word.
fn could_have(mark: Mark, event: &Event) -> bool
    ensures { result ≡ could_have mark event.now }
{
    match mark {
        Mark::Stale | Mark::Missed => event.translation().is_some() || is_page_fault(event.reply()),
        Mark::Unsteady | Mark::Unfirm | Mark::Unlenient => {
            event.translation().is_some()
                || (is_page_fault(event.reply())
                    || (is_fetch(event.op()) && is_word(event.reply())))
        }
    }
}

fn is_fetch(op: Op) -> bool
    ensures { result ≡ is_fetch op }
{
    match op {
        Op::Fetch(_) => true,
        _ => false,
    }
}

fn is_word(reply: Reply) -> bool
    ensures { result ≡ is_word reply }
{
    match reply {
        Reply::Value(_) => true,
        _ => false,
    }
}

fn is_page_fault(reply: Reply) -> bool
    ensures { result ≡ is_page_fault reply }
{
    match reply {
        Reply::Fault(cause) => is_of_page_fault(cause),
        _ => false,
    }
}

fn is_of_page_fault(cause: Cause) -> bool
    ensures { result ≡ is_of_page_fault cause }
{
    match cause {
        Cause::InstructionPageFault | Cause::LoadPageFault | Cause::StorePageFault => true,
        _ => false,
    }
}
