//! A point, with its details.
ghost use Rattle.std.specs.Prelude.{◌≡◌, ◌↔◌, IfOk, true};
ghost use Rattle.test_report.specs.declared.verdict.Extent.TheVariants.{Lines};
ghost use Rattle.test_report.specs.declared.verdict.Verdict.TheVariants.{Holds};

use crate::details::{Detail, Unwritten};
use crate::notes::Note;
use crate::verdict::{Extent, Said, Verdict};
use conditions::{Condition, Rule};
use diagnostics::Case;
use outcome_statistics::asks_of_ends;
use std::alloc::{AllocError, Global};

/// A point: its subject and its verdict.
#[derive(Drop)]
pub struct Point {
    /// Its subject.
    pub name: String,
    /// It is about some order, not about each.
    is_some: bool,
    /// It is about ends.
    is_of_ends: bool,
    /// Its verdict.
    pub verdict: Verdict,
    /// How far `test` looked.
    pub reach: Extent,
    /// Its details.
    pub details: Vec<Detail>,
    /// The file's notes behind it.
    pub notes: Vec<Note>,
}

impl Point {
    /// A point about a file's lines, or about its fault, without details.
    pub fn new(alloc: Global, name: String, verdict: Verdict) -> Point
        ensures verdict { result.verdict ≡ verdict }
        ensures reach { result.reach ≡ Lines }
    {
        Point {
            name,
            is_some: false,
            is_of_ends: false,
            verdict,
            reach: Extent::Lines,
            details: Vec::new(alloc),
            notes: Vec::new(alloc),
        }
    }

    /// The point of a condition of a program, or of one without any: that no order ends stuck.
    pub fn of_orders(
        alloc: Global,
        case: &Case<'_>,
        condition: Option<&Condition>,
        verdict: Verdict,
        reach: Extent,
    ) -> Result<Point, AllocError>
        ensures verdict { IfOk result (λ point. point.verdict ≡ verdict) }
        ensures reach { IfOk result (λ point. point.reach ≡ reach) }
    {
        let said = match condition {
            Some(_) => "",
            None => ": no order ends stuck",
        };
        let mut point = Point::new(alloc, named(alloc, case, condition, said)?, verdict);
        point.reach = reach;
        point.is_some = match condition {
            Some(condition) => matches!(condition.rule, Rule::OfSome(_)),
            None => false,
        };
        point.is_of_ends = asks_of_ends(condition);
        Ok(point)
    }

    /// The text behind its subject.
    pub(crate) fn said(&self) -> Said<'_> {
        Said {
            verdict: &self.verdict,
            reach: self.reach,
            is_some: self.is_some,
            is_of_ends: self.is_of_ends,
        }
    }

    /// Whether it holds.
    pub(crate) fn holds(&self) -> bool
        ensures { (result ≡ true) ↔ (self.now.verdict ≡ Holds) }
    {
        matches!(self.verdict, Verdict::Holds)
    }

    /// Its record that could not be written, if there is one.
    pub(crate) fn unwritten(&self) -> Option<&Unwritten> {
        for detail in &self.details {
            if let Detail::Unwritten(found) = detail {
                return Some(found);
            }
        }
        None
    }
}

/// The subject of a file's point: a condition, or without one the file, and the text behind it.
pub fn named(
    alloc: Global,
    case: &Case<'_>,
    condition: Option<&Condition>,
    said: &str,
) -> Result<String, AllocError> {
    let file = case.file;
    match condition {
        Some(condition) => {
            let line = condition.line;
            let asked = case.asked_at(line);
            format!(in alloc; "{file}: line {line}: {asked}{said}")
        }
        None => format!(in alloc; "{file}{said}"),
    }
}
