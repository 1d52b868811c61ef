//! Tests one file of `test` or `explore`, by its kind.
ghost use Rattle.std.specs.Prelude.{◌≡◌, ◌↔◌, ◌∷◌, ◌++◌, List, [], IfOk, OnOk, true};
ghost use Rattle.guest_script.specs.Grammar.{content};
ghost use Rattle.guest_programs.specs.Programs.{IsProgram};
ghost use Rattle.outcome_statistics.specs.Records.{EachIs};
ghost use Rattle.test_report.specs.Statuses.{extents, verdicts};
ghost use Rattle.test_report.specs.declared.verdict.Extent.{Extent};
ghost use Rattle.test_report.specs.declared.verdict.Verdict.{Verdict as Told};
ghost use Rattle.test_report.specs.declared.verdict.Verdict.TheVariants.{Fails};
ghost use Rattle.test_runner.specs.Findings.{IsFoundOf, IsFoundOfFile, AreTried};
ghost use Rattle.test_runner.specs.Reporting.{IsReportOf};

use crate::loading::{Unloaded, load, read};
use crate::steps::test_steps;
use crate::texts::Texts;
use all_orders::{explore_program, test_all_orders};
use diagnostics::Case;
use guest_script::Body;
use std::alloc::{AllocError, Global};
use std::rt::{Clock, Files};
use std::sync::Wait;
use std::thread::Threads;
use test_report::{FileReport, Mode, Point, Verdict, named};
use test_terms::{Options, Stop, Trial, unasked};
use tried_orders::{test_orders, test_runs};

/// Tests a file. A file that can't be read, or has a fault, is a failing point.
pub(crate) fn test_file<
    'a,
    R: AllocGlobal + Clock + Eprint + Files + Sync + Threads + Wait,
    T: Texts,
>(
    rt: &'a R,
    texts: &T,
    options: &'a Options<'a>,
    file: &'a str,
    record: &'a str,
) -> Result<FileReport, Stop>
    ensures { IfOk result (λ found. IsReportOf (T.bytes texts.now file.now) options.now found) }
{
    match read(rt.alloc(), texts, file) {
        Ok(text) => Ok(test_text(rt, options, file, record, &text)?),
        Err(unloaded) => Ok(untested(rt.alloc(), file, unloaded)?),
    }
}

/// Tests a file of these bytes.
fn test_text<'a, R: AllocGlobal + Clock + Eprint + Files + Sync + Threads + Wait>(
    rt: &'a R,
    options: &'a Options<'a>,
    file: &'a str,
    record: &'a str,
    text: &'a [u8],
) -> Result<FileReport, Stop>
    ensures { IfOk result (IsFoundOfFile options.now text.now) }
{
    let alloc = rt.alloc();
    let loaded = match load(alloc, text) {
        Ok(loaded) => loaded,
        Err(unloaded) => return Ok(untested(alloc, file, unloaded)?),
    };
    let trial = Trial {
        rt,
        options,
        case: Case {
            file,
            text,
            conditions: &loaded.conditions,
        },
        record,
        script: &loaded.script,
    };
    let mut found = test_script(&trial)?;
    put_unasked(&trial, &mut found)?;
    Ok(found)
}

/// Adds a failing point for each comment that looks like a condition.
fn put_unasked<R: AllocGlobal>(
    trial: &Trial<'_, R>,
    found: &mut FileReport,
) -> Result<(), AllocError>
    ensures odd { OnOk result ((odd : List Told) × (verdicts found.new ≡ verdicts found.old ++ odd)
        × EachIs (λ verdict. verdict ≡ Fails) odd) }
    ensures told { OnOk result ((told : List Extent) × (extents found.new ≡ extents found.old ++ told)) }
    ensures cut { found.new.is_cut ≡ found.old.is_cut }
{
    let alloc = trial.rt.alloc();
    let file = trial.case.file;
    for (line, asked) in unasked(alloc, &trial.case)? {
        let name = format!(in alloc;
            "{file}: line {line}: '# !{asked}' is a comment, and no condition"
        )?;
        found.push(Point::new(alloc, name, Verdict::Fails))?;
    }
    Ok(())
}

/// The report about a file that can't be tested.
fn untested(alloc: Global, file: &str, unloaded: Unloaded) -> Result<FileReport, Stop>
    ensures { IfOk result (λ found. verdicts found ≡ Fails ∷ []) }
{
    match unloaded {
        Unloaded::NoMemory => Err(Stop::NoMemory),
        Unloaded::File(why) => {
            let name = format!(in alloc; "{file}{why}")?;
            Ok(failing(alloc, name)?)
        }
    }
}

/// One point alone, which fails.
fn failing(alloc: Global, name: String) -> Result<FileReport, AllocError>
    ensures { IfOk result (λ found. verdicts found ≡ Fails ∷ []) }
{
    let mut file = FileReport::new(alloc);
    file.push(Point::new(alloc, name, Verdict::Fails))?;
    Ok(file)
}

/// Tests a script by its kind.
fn test_script<R: AllocGlobal + Clock + Eprint + Files + Sync + Threads + Wait>(
    trial: &Trial<'_, R>,
) -> Result<FileReport, Stop>
    ensures { IfOk result (IsFoundOf trial.now.options.now trial.now.script.now trial.now.case.conditions.now
        trial.now.options.now.mode) }
{
    if is_program(&trial.script.body) {
        return test_program(trial);
    }
    match trial.options.mode {
        Mode::Explore => {
            let alloc = trial.rt.alloc();
            let name = named(alloc, &trial.case, None, ": only a program has orders")?;
            Ok(failing(alloc, name)?)
        }
        Mode::Test => Ok(test_steps(trial)?),
    }
}

/// Tests a program: by all orders for `explore` or if its states are few, otherwise by some.
fn test_program<R: AllocGlobal + Clock + Eprint + Files + Sync + Threads + Wait>(
    trial: &Trial<'_, R>,
) -> Result<FileReport, Stop>
    requires { IsProgram (content trial.now.script.now.body) }
    ensures { IfOk result (IsFoundOf trial.now.options.now trial.now.script.now trial.now.case.conditions.now
        trial.now.options.now.mode) }
{
    match trial.options.mode {
        Mode::Explore => Ok(explore_program(trial)?),
        Mode::Test => {
            if let Some(file) = test_all_orders(trial)? {
                return Ok(file);
            }
            Ok(test_some(trial)?)
        }
    }
}

/// Tests a program by some of its orders, and by runs on threads if they are asked for.
fn test_some<R: AllocGlobal + Clock + Eprint + Files + Sync + Threads + Wait>(
    trial: &Trial<'_, R>,
) -> Result<FileReport, Stop>
    requires { IsProgram (content trial.now.script.now.body) }
    ensures { IfOk result (AreTried trial.now.options.now trial.now.script.now trial.now.case.conditions.now) }
{
    let mut file = FileReport::new(trial.rt.alloc());
    test_orders(trial, &mut file)?;
    test_runs(trial, &mut file)?;
    Ok(file)
}

/// Whether a script is a program. An empty one is of each kind.
fn is_program(body: &Body) -> bool
    ensures { (result ≡ true) ↔ IsProgram (content body.now) }
{
    match body {
        Body::Empty | Body::Program { .. } => true,
        Body::Schedule(_) | Body::Trace(_) => false,
    }
}
