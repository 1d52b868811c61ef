//! Tests all files, and writes the report about them.
ghost use Rattle.std.specs.Prelude.{IfOk, map};
ghost use Rattle.test_runner.specs.Inside.Telling.{IsBegun, TellsFiles};
ghost use Rattle.test_runner.specs.Reporting.{AreReportsOf, IsReported};

use crate::output::Output;
use crate::record_names::record_names;
use crate::testing::test_file;
use crate::texts::Texts;
use std::io::Write;
use std::rt::{Clock, Files};
use std::sync::Wait;
use std::thread::Threads;
use test_report::{FileReport, Report, Status};
use test_terms::{Options, Stop};

/// Tests each file, and writes its points as soon as they are known; then the plan and the summary.
///
/// # Errors
///
/// Memory or a thread was refused, there is no clock, a board is outside of its limits, or a file or the report could not be
/// written.
pub fn test_all<
    R: AllocGlobal + Clock + Eprint + Files + Sync + Threads + Wait,
    T: Texts,
    W: Write,
>(rt: &R, texts: &T, options: &Options<'_>, out: &mut W) -> Result<Status, Stop>
    ensures { IfOk result (λ status. IsReported (T.bytes texts.now) options.now
        (map (λ name. name.now) options.now.files.items) status (W.contents out.old) (W.contents out.new)) }
{
    let mut output = Output::begin(rt, options)?;
    let report = Report {
        mode: options.mode,
        files: tested(rt, texts, options, &mut output, out)?,
    };
    output.end(out, &report)?;
    if let Some(unwritten) = report.unwritten() {
        return Err(Stop::Unwritten(unwritten.copied(rt.alloc())?));
    }
    Ok(report.status())
}

/// Tests each file, and writes its points.
fn tested<'a, R: AllocGlobal + Clock + Eprint + Files + Sync + Threads + Wait, T: Texts, W: Write>(
    rt: &'a R,
    texts: &T,
    options: &'a Options<'a>,
    output: &mut Output<'a, R>,
    out: &mut W,
) -> Result<Vec<FileReport>, Stop>
    ensures reports { IfOk result (λ files. AreReportsOf (T.bytes texts.now) options.now
        (map (λ name. name.now) options.now.files.items) files.items) }
    ensures told { IfOk result (λ files. IsBegun output.old.shown
        → TellsFiles output.new.shown files.items (W.contents out.old) (W.contents out.new)) }
{
    let names = record_names(rt.alloc(), &options.files)?;
    let mut files = Vec::new(rt.alloc());
    for place in 0..options.files.len() {
        let found = test_file(
            &*rt,
            texts,
            &*options,
            options.files[place],
            names[place].as_str(),
        )?;
        output.tell_file(out, &found)?;
        files.push(found)?;
    }
    Ok(files)
}
