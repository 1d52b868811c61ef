//! A report as text.
ghost use Rattle.std.specs.Prelude.{◌≡◌, ℕ, ◌+◌, List, [], ◌++◌, flat_map, length, IfOk, OnOk, string_bytes};
ghost use Rattle.test_report.specs.Lines.{AreNumbered, IsFileText, IsPointText, indented, note_sign, notes_text, plan_line, version_line};
ghost use Rattle.test_report.specs.Inside.Bare.{IsBare};
ghost use Rattle.test_report.specs.declared.page.Style.TheVariants.{Tap};

use crate::notes::Note;
use crate::plain;
use crate::point::Point;
use crate::report::{FileReport, Report};
use crate::summary::Summary;
use crate::tap::{self, put_indented};
use std::alloc::{AllocError, Global};
use std::fmt::Write;

/// The version of the protocol.
const VERSION: u64 = 13;

/// How a report is shown.
#[derive(Clone, Copy, PartialEq, Eq)]
pub enum Style {
    /// As points of the Test Anything Protocol.
    Tap,
    /// As a reader at a terminal wants it.
    Plain,
}

impl Style {
    /// What stands before each line of a note or of the summary.
    fn sign(self) -> &'static str
        ensures { self ≡ Tap → result.now ≡ note_sign }
    {
        match self {
            Style::Tap => "# ",
            Style::Plain => "",
        }
    }
}

/// The text of a report, file by file.
#[derive(Drop)]
pub struct Page {
    /// What isn't printed yet.
    pub text: String,
    /// How it is shown.
    pub style: Style,
    /// How many points it has.
    pub points: u64,
}

impl Page {
    /// Before any file.
    pub fn new(alloc: Global, style: Style) -> Result<Page, AllocError>
        ensures text { IfOk result (λ page. style ≡ Tap → string_bytes page.text ≡ version_line 13) }
        ensures style { IfOk result (λ page. page.style ≡ style) }
        ensures none { IfOk result (λ page. page.points ≡ 0) }
    {
        let mut text = String::new(alloc);
        if style == Style::Tap {
            writeln!(text, "TAP version {VERSION}")?;
        }
        Ok(Page {
            text,
            style,
            points: 0,
        })
    }

    /// Adds the report of a file.
    pub fn put_file(&mut self, alloc: Global, file: &FileReport) -> Result<(), AllocError>
        ensures text { OnOk result ((added : List ℕ) × (string_bytes self.new.text ≡ string_bytes self.old.text ++ added)
            × (self.old.style ≡ Tap → IsFileText self.old.points file.now added)) }
        ensures points { OnOk result (self.new.points ≡ self.old.points + length file.now.points.items) }
        ensures style { self.new.style ≡ self.old.style }
    {
        self.put_notes(alloc, &file.head)?;
        self.put_points(alloc, &file.points)?;
        Ok(())
    }

    /// Adds points, each with its details and the notes behind it.
    fn put_points(&mut self, alloc: Global, points: &[Point]) -> Result<(), AllocError>
        ensures text { OnOk result ((added : List ℕ) × (string_bytes self.new.text ≡ string_bytes self.old.text ++ added)
            × (self.old.style ≡ Tap → AreNumbered self.old.points points.now added)) }
        ensures points { OnOk result (self.new.points ≡ self.old.points + length points.now) }
        ensures style { self.new.style ≡ self.old.style }
    {
        for point in points {
            self.put_noted(alloc, point)?;
        }
        Ok(())
    }

    /// Adds a point, its details, and the notes behind it.
    fn put_noted(&mut self, alloc: Global, point: &Point) -> Result<(), AllocError>
        ensures text { OnOk result ((added : List ℕ) × (string_bytes self.new.text ≡ string_bytes self.old.text ++ added)
            × (self.old.style ≡ Tap → IsPointText (self.old.points + 1) point.now added)) }
        ensures points { OnOk result (self.new.points ≡ self.old.points + 1) }
        ensures style { self.new.style ≡ self.old.style }
    {
        self.put_point(alloc, point)?;
        self.put_notes(alloc, &point.notes)?;
        Ok(())
    }

    /// Adds a point and its details.
    fn put_point(&mut self, alloc: Global, point: &Point) -> Result<(), AllocError>
        ensures text { OnOk result ((added : List ℕ) × (string_bytes self.new.text ≡ string_bytes self.old.text ++ added)
            × (self.old.style ≡ Tap → IsBare (self.old.points + 1) point.now added)) }
        ensures points { OnOk result (self.new.points ≡ self.old.points + 1) }
        ensures style { self.new.style ≡ self.old.style }
    {
        let Some(number) = self.points.checked_add(1) else {
            return Err(AllocError);
        };
        self.points = number;
        match self.style {
            Style::Tap => tap::put_point(alloc, number, point, &mut self.text),
            Style::Plain => {
                let mut shown = String::new(alloc);
                plain::put_point(alloc, point, &mut shown)?;
                self.text.push_str(shown.as_str())
            }
        }
    }

    /// Adds a line for each note.
    fn put_notes(&mut self, alloc: Global, notes: &[Note]) -> Result<(), AllocError>
        ensures text { OnOk result ((added : List ℕ) × (string_bytes self.new.text ≡ string_bytes self.old.text ++ added)
            × (self.old.style ≡ Tap → (lines : List (List ℕ)) × (added ≡ notes_text lines))) }
        ensures points { self.new.points ≡ self.old.points }
        ensures style { self.new.style ≡ self.old.style }
    {
        let lines = note_lines(alloc, self.style.sign(), notes)?;
        self.text.push_str(lines.as_str())?;
        Ok(())
    }

    /// Adds the plan and the summary.
    pub fn put_summary(&mut self, alloc: Global, report: &Report) -> Result<(), AllocError>
        ensures text { OnOk result ((said : List ℕ) × (self.old.style ≡ Tap → string_bytes self.new.text
            ≡ string_bytes self.old.text ++ (plan_line self.old.points ++ indented note_sign said))) }
        ensures points { self.new.points ≡ self.old.points }
        ensures style { self.new.style ≡ self.old.style }
    {
        if self.style == Style::Tap {
            tap::put_plan(self.points, &mut self.text)?;
        }
        let mut summary = String::new(alloc);
        Summary::of(report).put(&mut summary)?;
        put_indented(
            self.style.sign(),
            summary.as_str().trim_end(),
            &mut self.text,
        )?;
        Ok(())
    }
}

/// A line for each note, behind this sign.
fn note_lines(alloc: Global, sign: &str, notes: &[Note]) -> Result<String, AllocError>
    ensures { IfOk result (λ text. (lines : List (List ℕ)) × (string_bytes text ≡ flat_map (indented sign.now) lines)) }
{
    let mut text = String::new(alloc);
    for note in notes {
        let line = format!(in alloc; "{note}")?;
        put_indented(sign, line.as_str(), &mut text)?;
    }
    Ok(text)
}
