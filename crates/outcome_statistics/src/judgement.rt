//! The verdict of the tried orders on a condition.
ghost use Rattle.std.specs.Prelude.{◌≡◌, ◌≢◌, List, [], Some, None};
ghost use Rattle.std.specs.Option.{option_map};
ghost use Rattle.outcome_statistics.specs.declared.ends.Ends.{Ends as HowMany};
ghost use Rattle.outcome_statistics.specs.Records.{IsSo, Tells, Tried};
ghost use Rattle.outcome_statistics.specs.Judgements.{AreMet, IsJudged, asked_rule};

use crate::ends::Ends;
use crate::findings::Judged;
use conditions::{Condition, Ending, Rule};

/// The verdict of the tried orders on a condition, or on a program without conditions.
#[derive(Clone, Copy, PartialEq, Eq)]
pub enum Judgement {
    /// No order was tried.
    NotTried,
    /// The condition fails.
    Fails,
    /// The condition is about ends, and the limit cut each order off.
    NoEnd,
    /// No order has the step that the first pattern needs.
    LacksFirst,
    /// No order has the step that the second pattern needs.
    LacksSecond,
    /// The condition holds.
    Holds,
}

/// The verdict on a condition, or on a program without conditions, by its findings and the ends of all orders.
pub fn judgement_of(asked: Option<&Condition>, judged: &Judged, ends: &Ends) -> Judgement
    ensures { (tried : List Tried) → Tells (IsSo (asked_rule (option_map (λ condition. condition.now) asked.entry))) tried
        judged.now.tally
        → IsJudged (option_map (λ condition. condition.now) asked.entry) tried judged.now.met ends.now result }
{
    match asked {
        Some(condition) => judged_by(condition, judged, ends),
        None => judged_alone(judged, ends),
    }
}

/// The verdict on a condition.
fn judged_by(condition: &Condition, judged: &Judged, ends: &Ends) -> Judgement
    ensures { (tried : List Tried) → Tells (IsSo (Some condition.now.rule)) tried judged.now.tally
        → IsJudged (Some condition.now) tried judged.now.met ends.now result }
{
    let rule = &condition.rule;
    if judged.tally.tried() == 0 {
        return Judgement::NotTried;
    }
    if !judged.tally.all_meet(rule) {
        return fails(condition, judged);
    }
    if !condition.is_maybe && asks_of_ends(Some(condition)) && !ends.some_ended() {
        return Judgement::NoEnd;
    }
    holds(condition, judged)
}

/// The verdict on a program without conditions.
fn judged_alone(judged: &Judged, ends: &Ends) -> Judgement
    ensures { (tried : List Tried) → Tells (IsSo None) tried judged.now.tally
        → IsJudged None tried judged.now.met ends.now result }
{
    if judged.tally.tried() == 0 {
        return Judgement::NotTried;
    }
    if !judged.tally.is_each() {
        return Judgement::Fails;
    }
    if ends.some_ended() {
        Judgement::Holds
    } else {
        Judgement::NoEnd
    }
}

/// The orders fail: `some` may be vacuous, if no order has such a step, whatever its reply.
fn fails(condition: &Condition, judged: &Judged) -> Judgement
    ensures { (tried : List Tried) (ends : HowMany) → ¬ AreMet (Some condition.now) tried
        → IsJudged (Some condition.now) tried judged.now.met ends result }
{
    if !condition.is_maybe && judged.met.lacks_first(&condition.rule) {
        Judgement::LacksFirst
    } else {
        Judgement::Fails
    }
}

/// The orders meet a condition, which may be vacuous.
fn holds(condition: &Condition, judged: &Judged) -> Judgement
    ensures { (tried : List Tried) (ends : HowMany) → tried ≢ [] → AreMet (Some condition.now) tried
        → IsJudged (Some condition.now) tried judged.now.met ends result }
{
    let rule = &condition.rule;
    if condition.is_maybe {
        Judgement::Holds
    } else if judged.met.lacks_first(rule) {
        Judgement::LacksFirst
    } else if judged.met.lacks_second(rule) {
        Judgement::LacksSecond
    } else {
        Judgement::Holds
    }
}

/// Whether the condition is about how orders end, and doesn't name the limit.
pub fn asks_of_ends(asked: Option<&Condition>) -> bool {
    match asked {
        Some(condition) => match &condition.rule {
            Rule::End(ends) => !ends.contains(&Ending::HistoryFull),
            _ => false,
        },
        None => true,
    }
}
