//! The report about all files.
ghost use Rattle.std.specs.Prelude.{◌≡◌, ◌↔◌, ◌∷◌, ◌++◌, [], OnOk, true, false};
ghost use Rattle.test_report.specs.Statuses.{EachHolds, IsWhole, SomeFails, SomeIsCut, extents, verdicts};
ghost use Rattle.test_report.specs.declared.status.Status.TheVariants.{AllHold, SomeFail};

use crate::counts::AllOrders;
use crate::details::Unwritten;
use crate::notes::Note;
use crate::point::Point;
use crate::status::{Status, some_is_cut, status_by};
use crate::verdict::Verdict;
use outcome_statistics::Ends;
use std::alloc::{AllocError, Global};

/// What to do with the files.
#[derive(Clone, Copy, PartialEq, Eq)]
pub enum Mode {
    /// Test them: by all orders if states are few, otherwise by some.
    Test,
    /// Explore all orders of their programs.
    Explore,
}

/// The report about a file.
#[derive(Drop)]
pub struct FileReport {
    /// The notes before the first point.
    pub head: Vec<Note>,
    /// Its points: one for each condition, or without any one of the file.
    pub points: Vec<Point>,
    /// How the orders and runs ended that were tried.
    pub ends: Ends,
    /// How many different records these have.
    pub records: u64,
    /// All orders, where they were seen.
    pub orders: Option<AllOrders>,
    /// Not all requested orders were tried or seen.
    pub is_cut: bool,
}

impl FileReport {
    /// Before anything is found.
    pub fn new(alloc: Global) -> FileReport
        ensures none { verdicts result ≡ [] }
        ensures empty { result.points.items ≡ [] }
        ensures whole { result.is_cut ≡ false }
    {
        FileReport {
            head: Vec::new(alloc),
            points: Vec::new(alloc),
            ends: Ends::new(),
            records: 0,
            orders: None,
            is_cut: false,
        }
    }

    /// A point was found.
    pub fn push(&mut self, point: Point) -> Result<(), AllocError>
        ensures found { OnOk result (verdicts self.new ≡ verdicts self.old ++ point.verdict ∷ []) }
        ensures reached { OnOk result (extents self.new ≡ extents self.old ++ point.reach ∷ []) }
        ensures cut { self.new.is_cut ≡ self.old.is_cut }
    {
        self.points.push(point)?;
        Ok(())
    }

    /// Something is noted behind what was found before.
    pub fn note(&mut self, note: Note) -> Result<(), AllocError>
        ensures same { verdicts self.new ≡ verdicts self.old }
        ensures reached { extents self.new ≡ extents self.old }
        ensures cut { self.new.is_cut ≡ self.old.is_cut }
    {
        let many = self.points.len();
        if many == 0 {
            self.head.push(note)?;
        } else {
            self.points[many - 1].notes.push(note)?;
        }
        Ok(())
    }

    /// Each of these is noted.
    pub fn note_all(&mut self, notes: Vec<Note>) -> Result<(), AllocError>
        ensures same { verdicts self.new ≡ verdicts self.old }
        ensures reached { extents self.new ≡ extents self.old }
        ensures cut { self.new.is_cut ≡ self.old.is_cut }
    {
        for note in notes {
            self.note(note)?;
        }
        Ok(())
    }

    /// Whether the point in a place names the missing step itself.
    pub fn tells_what_is_missing(&self, place: usize) -> bool {
        match self.points.get(place) {
            Some(point) => matches!(point.verdict, Verdict::Vacuous(_) | Verdict::Misfit(_)),
            None => false,
        }
    }

    /// How many points fail, and how many weren't judged.
    pub(crate) fn counted(&self) -> (u64, u64) {
        let mut failed: u64 = 0;
        let mut unjudged: u64 = 0;
        for point in &self.points {
            match point.verdict {
                Verdict::Holds => {}
                Verdict::NotJudged(_) => unjudged = unjudged.saturating_add(1),
                Verdict::Fails | Verdict::Vacuous(_) | Verdict::NoEnd | Verdict::Misfit(_) => {
                    failed = failed.saturating_add(1);
                }
            }
        }
        (failed, unjudged)
    }
}

/// The report about all files.
#[derive(Drop)]
pub struct Report {
    /// Whether they were tested or explored.
    pub mode: Mode,
    /// The files, in the order in which they were named.
    pub files: Vec<FileReport>,
}

impl Report {
    /// Before any file.
    pub fn new(alloc: Global, mode: Mode) -> Report {
        Report {
            mode,
            files: Vec::new(alloc),
        }
    }

    /// The verdict on all points.
    pub fn status(&self) -> Status
        ensures fails { (result ≡ SomeFail) ↔ SomeFails self.now.files.items }
        ensures holds { (result ≡ AllHold) ↔ (EachHolds self.now.files.items × IsWhole self.now) }
    {
        status_by(&self.files, self.is_whole())
    }

    /// Whether all requested orders were seen; `test` requests as many as there is time for.
    fn is_whole(&self) -> bool
        ensures { (result ≡ true) ↔ IsWhole self.now }
    {
        match self.mode {
            Mode::Test => true,
            Mode::Explore => !self.is_cut(),
        }
    }

    /// Whether for some file not all requested orders were tried or seen.
    pub(crate) fn is_cut(&self) -> bool
        ensures { (result ≡ true) ↔ SomeIsCut self.now.files.items }
    {
        some_is_cut(&self.files)
    }

    /// The first record that could not be written, if there is one.
    pub fn unwritten(&self) -> Option<&Unwritten> {
        for file in &self.files {
            for point in &file.points {
                if let Some(found) = point.unwritten() {
                    return Some(found);
                }
            }
        }
        None
    }
}
