//! Replays schedules, and compares traces.
ghost use Rattle.std.specs.Prelude.{◌≡◌, IfSome, length};

use crate::course::{Course, Odd};
use crate::marked::{failing_place, is_met_by, judged, marks_if};
use access_causes::{Asked, Asks};
use access_marks::Marks;
use board_core::Event;
use conditions::{Condition, Rule};
use diagnostics::Walk;
use guest_programs::new_board;
use guest_script::{Body, Lines};
use outcome_statistics::{ask_of_marks, ask_of_walks};
use std::alloc::AllocError;
use std::rt::Files;
use std::str;
use test_report::{
    Detail, Difference, FileReport, Note, Point, StaleAccess, ToldCause, Verdict, named, step_line,
};
use test_terms::{Stop, Trial, keep, put_causes, told_causes};

/// Of so many stale accesses of a file the causes are told.
const MOST_CAUSES: usize = 100;

/// Tests a schedule or a trace: its lines, and its record by each condition.
pub(crate) fn test_steps<R: AllocGlobal + Files>(trial: &Trial<'_, R>) -> Result<FileReport, Stop> {
    let alloc = trial.rt.alloc();
    let mut course = Course::of(alloc, new_board(alloc, &trial.script.config)?);
    let mut file = FileReport::new(alloc);
    match &trial.script.body {
        Body::Schedule(lines) => replay(trial, &mut course, lines, &mut file)?,
        Body::Trace(lines) => compare(trial, &mut course, lines, &mut file)?,
        Body::Empty | Body::Program { .. } => {}
    }
    let events = course.events(alloc)?;
    judge_record(trial, &course, &events, &mut file)?;
    Ok(file)
}

/// Notes what is odd about the lines of a record of these events, and judges it by each condition.
fn judge_record<R: AllocGlobal + Files>(
    trial: &Trial<'_, R>,
    course: &Course,
    events: &[Event],
    file: &mut FileReport,
) -> Result<(), AllocError> {
    let alloc = trial.rt.alloc();
    let are_asked = ask_of_marks(trial.case.conditions) || course.can_have_missed(events);
    let walks = ask_of_walks(trial.case.conditions);
    let marks = marks_if(alloc, are_asked, walks, course.config(), events)?;
    note_lines(trial, course, events, &marks, file)?;
    judge_all(trial, course, events, &marks, file)
}

/// Judges a schedule or a trace, whose record has these events, by each condition.
fn judge_all<R: AllocGlobal + Files>(
    trial: &Trial<'_, R>,
    course: &Course,
    events: &[Event],
    marks: &Option<Vec<Marks>>,
    file: &mut FileReport,
) -> Result<(), AllocError>
    requires { IfSome marks.now (λ marks. length marks.items ≡ length events.now) }
{
    for condition in trial.case.conditions {
        judge(trial, condition, course, events, marks, file)?;
    }
    Ok(())
}

/// Does each step of a schedule, also after refusals. Without conditions the schedule is the point.
fn replay<R: AllocGlobal>(
    trial: &Trial<'_, R>,
    course: &mut Course,
    lines: &Lines,
    file: &mut FileReport,
) -> Result<(), AllocError> {
    for line in lines.iter() {
        if let Err(refusal) = course.answer(trial.rt.alloc(), &line)? {
            course
                .odd
                .push(Odd::Refused(line.number(), refusal.number()))?;
        }
    }
    if trial.case.conditions.is_empty() {
        file.push(point_of_lines(trial, lines, Verdict::Holds)?)?;
    }
    Ok(())
}

/// Compares each line of a trace with the board's own answer, goes on with that, and reports all lines that differ.
fn compare<R: AllocGlobal>(
    trial: &Trial<'_, R>,
    course: &mut Course,
    lines: &Lines,
    file: &mut FileReport,
) -> Result<(), AllocError> {
    let alloc = trial.rt.alloc();
    let mut differences = Vec::new(alloc);
    let mut walk = Walk::new(trial.case.text);
    for line in lines.iter() {
        let answer = course.answer(alloc, &line)?;
        if !line.said().is_some_and(|said| said.agrees(&answer)) {
            let got = step_line(alloc, line.doing(), answer)?;
            let got = str::from_utf8(&got).unwrap_or("").trim();
            differences.push(Difference {
                line: line.number(),
                wanted: String::from_str(alloc, walk.said_at(line.number()))?,
                got: String::from_str(alloc, got)?,
            })?;
        }
    }
    let mut point = point_of_lines(trial, lines, Verdict::of(differences.is_empty()))?;
    if !differences.is_empty() {
        let many = differences.len() as u64;
        point.details.push(Detail::Number("differing", many))?;
        point.details.push(Detail::Lines(differences))?;
    }
    file.push(point)?;
    Ok(())
}

/// Notes what is odd about lines. The record of these events has these marks, where its marks are told.
fn note_lines<R: AllocGlobal>(
    trial: &Trial<'_, R>,
    course: &Course,
    events: &[Event],
    marks: &Option<Vec<Marks>>,
    file: &mut FileReport,
) -> Result<(), AllocError> {
    let mut causes = stale_causes(trial, course, events)?;
    causes.reverse();
    for odd in course.odd.iter() {
        let note = match *odd {
            Odd::Refused(line, refusal) => Note::Refused(line, refusal),
            Odd::Stale { line, place, stale } => Note::Stale(StaleAccess {
                line,
                stale,
                is_missed: is_missed(marks, place),
                cause: take_cause(&mut causes, place),
            }),
        };
        file.note(note)?;
    }
    Ok(())
}

/// Whether the event in a place has the mark `missed`.
fn is_missed(marks: &Option<Vec<Marks>>, place: usize) -> bool {
    match marks {
        Some(marks) => marks.get(place).is_some_and(|marks| marks.missed),
        None => false,
    }
}

/// Takes the last of these causes, if it is of the access in this place.
fn take_cause(causes: &mut Vec<ToldCause>, place: usize) -> Option<ToldCause> {
    let is_next = causes.last().is_some_and(|cause| cause.place() == place);
    if is_next { causes.pop() } else { None }
}

/// Why accesses of the record are stale: the first ones.
fn stale_causes<R: AllocGlobal>(
    trial: &Trial<'_, R>,
    course: &Course,
    events: &[Event],
) -> Result<Vec<ToldCause>, AllocError> {
    let mut asked = Vec::new(trial.rt.alloc());
    for odd in course.odd.iter() {
        if let Odd::Stale { place, .. } = odd
            && asked.len() < MOST_CAUSES
        {
            let place = *place;
            asked.push(Asked {
                place,
                asks: Asks::Held,
            })?;
        }
    }
    told_causes(trial.rt.alloc(), &trial.case, course.record(events), &asked)
}

/// The point of a schedule's or a trace's lines.
fn point_of_lines<R: AllocGlobal>(
    trial: &Trial<'_, R>,
    lines: &Lines,
    verdict: Verdict,
) -> Result<Point, AllocError> {
    let alloc = trial.rt.alloc();
    let many = lines.len();
    let said = format!(in alloc; " ({many} lines)")?;
    let name = named(alloc, &trial.case, None, said.as_str())?;
    Ok(Point::new(alloc, name, verdict))
}

/// Judges a schedule or a trace, whose record has these events, by a condition.
fn judge<R: AllocGlobal + Files>(
    trial: &Trial<'_, R>,
    condition: &Condition,
    course: &Course,
    events: &[Event],
    marks: &Option<Vec<Marks>>,
    file: &mut FileReport,
) -> Result<(), AllocError>
    requires { IfSome marks.now (λ marks. length marks.items ≡ length events.now) }
{
    let alloc = trial.rt.alloc();
    let rule = &condition.rule;
    let verdict = judged(rule, trial.script.config.harts, events, marks);
    let is_failing = matches!(verdict, Verdict::Fails);
    let is_misfit = matches!(verdict, Verdict::Misfit(_));
    let name = named(alloc, &trial.case, Some(condition), "")?;
    let mut point = Point::new(alloc, name, verdict);
    if matches!(rule, Rule::End(_) | Rule::CanEnd(_)) {
        point
            .details
            .push(Detail::Reason("only a program has an end"))?;
    } else if is_failing {
        let place = failing_place(rule, events, marks);
        let record = course.record(events);
        keep(trial, "failed", record, place, &mut point.details)?;
        if let Some(marks) = marks {
            put_causes(alloc, &trial.case, rule, record, marks, &mut point.details)?;
        }
    }
    file.push(point)?;
    if !is_misfit && !is_met_by(rule, events, marks) {
        file.note(Note::NeverMet(condition.line))?;
    }
    Ok(())
}
