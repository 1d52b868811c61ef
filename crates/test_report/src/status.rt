//! The verdict on all points together.
ghost use Rattle.std.specs.Prelude.{◌≡◌, ◌↔◌, true};
ghost use Rattle.test_report.specs.Statuses.{EachHolds, EachPointHolds, HasFailing, IsFailing, SomeFails, SomeIsCut};
ghost use Rattle.test_report.specs.declared.status.Status.TheVariants.{AllHold, SomeFail};

use crate::point::Point;
use crate::report::FileReport;
use crate::verdict::Verdict;

/// The verdict on all points together.
#[derive(Clone, Copy)]
pub enum Status {
    /// Each holds.
    AllHold,
    /// Some fail.
    SomeFail,
    /// None fails, but not everything was judged or seen.
    NotJudged,
}

/// The verdict on the points of all files, by whether all requested orders were seen.
pub fn status_by(files: &[FileReport], are_seen: bool) -> Status
    ensures fails { (result ≡ SomeFail) ↔ SomeFails files.now }
    ensures holds { (result ≡ AllHold) ↔ (EachHolds files.now × (are_seen ≡ true)) }
{
    if some_fails(files) {
        return Status::SomeFail;
    }
    if are_seen && each_holds(files) {
        Status::AllHold
    } else {
        Status::NotJudged
    }
}

/// Whether a point of some file fails.
fn some_fails(files: &[FileReport]) -> bool
    ensures { (result ≡ true) ↔ SomeFails files.now }
{
    for file in files {
        if has_failing(&file.points) {
            return true;
        }
    }
    false
}

/// Whether one of these points fails.
fn has_failing(points: &[Point]) -> bool
    ensures { (result ≡ true) ↔ HasFailing points.now }
{
    for point in points {
        if is_failing(&point.verdict) {
            return true;
        }
    }
    false
}

/// Whether of some file not all was tried or seen.
pub(crate) fn some_is_cut(files: &[FileReport]) -> bool
    ensures { (result ≡ true) ↔ SomeIsCut files.now }
{
    for file in files {
        if file.is_cut {
            return true;
        }
    }
    false
}

/// Whether each file has points, of which each holds.
fn each_holds(files: &[FileReport]) -> bool
    ensures { (result ≡ true) ↔ EachHolds files.now }
{
    for file in files {
        if !each_point_holds(&file.points) {
            return false;
        }
    }
    true
}

/// Whether there are points, and each holds.
fn each_point_holds(points: &[Point]) -> bool
    ensures { (result ≡ true) ↔ EachPointHolds points.now }
{
    if points.is_empty() {
        return false;
    }
    for point in points {
        if !point.holds() {
            return false;
        }
    }
    true
}

/// Whether a verdict says that something is wrong.
fn is_failing(verdict: &Verdict) -> bool
    ensures { (result ≡ true) ↔ IsFailing verdict.now }
{
    match verdict {
        Verdict::Holds | Verdict::NotJudged(_) => false,
        Verdict::Fails | Verdict::Vacuous(_) | Verdict::NoEnd | Verdict::Misfit(_) => true,
    }
}
