//! Tries orders that a seed picks, and tells what is found.
use crate::answers::Search;
use crate::telling::{Kept, Place, put_kept, put_point, put_unasked};
use crate::words::Seeds;
use asm_guests::Code;
use board_core::Board;
use conditions::{Condition, NeedsMet, Rule, first_misfit_with};
use outcome_statistics::{Findings, Judged, Judgement, judgement_of, marks_asked};
use seeded_orders::try_order_on;
use std::alloc::{AllocError, Global};
use std::rt::Files;
use test_report::{Detail, Extent, FileReport, Missing, Page, Point, Unjudged, Verdict};
use test_terms::Stop;

/// Tries orders of a seed, and tells a point for each condition, or for a program without any.
pub(crate) fn tell_tried<C: Code, R: AllocGlobal + Files>(
    rt: &R,
    search: &Search<'_, C>,
    place: &Place<'_>,
    seeds: Seeds,
    page: &mut Page,
) -> Result<FileReport, Stop> {
    let alloc = rt.alloc();
    let mut file = FileReport::new(alloc);
    let found = tried(alloc, search, seeds)?;
    file.ends.add(found.ends);
    file.records = file.records.saturating_add(found.records.len() as u64);
    for at in 0..search.case.conditions.len().max(1) {
        let mut point = point_of(alloc, search, seeds, &found, at)?;
        if matches!(point.verdict, Verdict::Fails) {
            put_failing(rt, search, place, seeds, &found, at, &mut point.details)?;
        }
        put_point(alloc, point, &mut file, page)?;
    }
    put_unasked(alloc, search, &mut file, page)?;
    Ok(file)
}

/// Tries the orders of a seed, and judges each record.
fn tried<C: Code>(alloc: Global, search: &Search<'_, C>, seeds: Seeds) -> Result<Findings, Stop> {
    let Ok(mut board) = Board::new(alloc, search.board) else {
        return Err(Stop::BadBoard);
    };
    Ok(try_all(alloc, search, seeds, &mut board)?)
}

/// The same on a given board.
fn try_all<C: Code>(
    alloc: Global,
    search: &Search<'_, C>,
    seeds: Seeds,
    board: &mut Board,
) -> Result<Findings, AllocError> {
    let conditions = search.case.conditions;
    let mut found = Findings::new(alloc, conditions.len())?;
    for order in 0..seeds.times {
        let end = try_order_on(alloc, search.guests, search.ticks, board, seeds.seed, order)?;
        let marks = marks_asked(alloc, conditions, board)?;
        found.see(alloc, conditions, order, board, &marks, end)?;
    }
    Ok(found)
}

/// The findings for the condition in a place, or for a program without any.
fn judged_at(found: &Findings, at: usize) -> Judged {
    match found.judged.get(at) {
        Some(judged) => *judged,
        None => Judged {
            tally: found.well,
            met: NeedsMet::none(),
        },
    }
}

/// The point of the condition in a place, or of a program without any.
fn point_of<C: Code>(
    alloc: Global,
    search: &Search<'_, C>,
    seeds: Seeds,
    found: &Findings,
    at: usize,
) -> Result<Point, AllocError> {
    let condition = search.case.conditions.get(at);
    let verdict = verdict_on(alloc, search, condition, &judged_at(found, at), found)?;
    let reach = Extent::Tried {
        orders: found.well.tried(),
        seed: seeds.seed,
        cut: found.ends.full,
    };
    Point::of_orders(alloc, &search.case, condition, verdict, reach)
}

/// The verdict of the tried orders on a condition, or on a program without any.
fn verdict_on<C: Code>(
    alloc: Global,
    search: &Search<'_, C>,
    condition: Option<&Condition>,
    judged: &Judged,
    found: &Findings,
) -> Result<Verdict, AllocError> {
    if let Some(condition) = condition {
        if let Some(misfit) = first_misfit_with(&condition.rule, search.board.harts) {
            return Ok(Verdict::Misfit(misfit));
        }
        if matches!(condition.rule, Rule::CanEnd(_)) {
            return Ok(Verdict::NotJudged(Unjudged::NotAllOrders));
        }
    }
    match judgement_of(condition, judged, &found.ends) {
        Judgement::NotTried => Ok(Verdict::NotJudged(Unjudged::NoOrder)),
        Judgement::Fails => Ok(Verdict::Fails),
        Judgement::NoEnd => Ok(Verdict::NoEnd),
        Judgement::LacksFirst => vacuous(alloc, search, condition, false, found),
        Judgement::LacksSecond => vacuous(alloc, search, condition, true, found),
        Judgement::Holds => Ok(Verdict::Holds),
    }
}

/// The verdict `vacuous`: no order has the step that the condition's first or second pattern needs.
fn vacuous<C: Code>(
    alloc: Global,
    search: &Search<'_, C>,
    condition: Option<&Condition>,
    is_second: bool,
    found: &Findings,
) -> Result<Verdict, AllocError> {
    let Some(condition) = condition else {
        return Ok(Verdict::Fails);
    };
    let missing = Missing::of_rule(alloc, &search.case, condition, is_second, &found.visits)?;
    Ok(match missing {
        Some(missing) => Verdict::Vacuous(missing),
        None => Verdict::Fails,
    })
}

/// Adds how many orders fail the condition in a place, and the record of the first.
fn put_failing<C: Code, R: AllocGlobal + Files>(
    rt: &R,
    search: &Search<'_, C>,
    place: &Place<'_>,
    seeds: Seeds,
    found: &Findings,
    at: usize,
    details: &mut Vec<Detail>,
) -> Result<(), Stop> {
    let tally = judged_at(found, at).tally;
    details.push(Detail::Number("seed", seeds.seed))?;
    details.push(Detail::Number("failing", tally.failing))?;
    details.push(Detail::Number("orders", tally.tried()))?;
    let condition = search.case.conditions.get(at);
    match tally.first {
        Some(order) if !is_of_some(condition) => {
            put_first(rt, search, place, seeds, order, condition, details)
        }
        _ => Ok(()),
    }
}

/// Whether a condition asks for a step of some order, so that each order can fail it.
fn is_of_some(condition: Option<&Condition>) -> bool {
    condition.is_some_and(|condition| matches!(condition.rule, Rule::OfSome(_)))
}

/// Makes the order of this number again, and adds its record.
fn put_first<C: Code, R: AllocGlobal + Files>(
    rt: &R,
    search: &Search<'_, C>,
    place: &Place<'_>,
    seeds: Seeds,
    order: u64,
    condition: Option<&Condition>,
    details: &mut Vec<Detail>,
) -> Result<(), Stop> {
    let alloc = rt.alloc();
    let Ok(mut board) = Board::new(alloc, search.board) else {
        return Err(Stop::BadBoard);
    };
    put_first_on(
        rt, search, place, seeds, order, condition, &mut board, details,
    )
}

/// The same on a given board.
fn put_first_on<C: Code, R: AllocGlobal + Files>(
    rt: &R,
    search: &Search<'_, C>,
    place: &Place<'_>,
    seeds: Seeds,
    order: u64,
    condition: Option<&Condition>,
    board: &mut Board,
    details: &mut Vec<Detail>,
) -> Result<(), Stop> {
    let alloc = rt.alloc();
    let seed = seeds.seed;
    let _end = try_order_on(alloc, search.guests, search.ticks, board, seed, order)?;
    details.push(Detail::Number("order", order))?;
    let suffix = format!(in alloc; "{seed}-{order}.failed")?;
    let kept = Kept {
        board,
        condition,
        suffix: suffix.as_str(),
        is_whole: false,
    };
    Ok(put_kept(rt, search, place, kept, details)?)
}
