//! Tests files: reads each, judges it by its kind, and writes the report.
#![tactic(auto)]

mod course;
mod loading;
mod marked;
mod output;
mod record_names;
mod reporting;
mod stale;
mod steps;
mod testing;
mod texts;

pub use reporting::test_all;
pub use texts::Texts;
