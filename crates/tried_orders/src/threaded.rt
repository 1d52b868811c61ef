//! Runs of a program on threads, judged.
ghost use Rattle.std.specs.Prelude.{◌≡◌, ◌≢◌, ◌∷◌, ℕ, List, [], IfOk, OnOk, false, length, reverse};
ghost use Rattle.conditions.specs.Endings.{ending};
ghost use Rattle.guest_script.specs.Grammar.{content};
ghost use Rattle.guest_programs.specs.Programs.{IsProgram};
ghost use Rattle.access_marks.specs.declared.marks.Marks.{Marks as Told};
ghost use Rattle.board_core.specs.Opening.{opening_at};
ghost use Rattle.outcome_statistics.specs.Findings.{AreFound, AreMarkedFor, AskOfMarks};
ghost use Rattle.outcome_statistics.specs.Records.{Tried as Record};
ghost use Rattle.tried_orders.specs.declared.points.Source.TheVariants.{Threads as FromThreads};
ghost use Rattle.tried_orders.specs.Verdicts.{AddsRuns, AreRunsOf, IsCutByTime};

use crate::pace::Pace;
use crate::points::{Source, Tried, judged, keep_first, put_points, tells_first};
use guest_programs::RunEnd;
use hart_threads::{Open, run};
use outcome_statistics::{Findings, marks_asked};
use std::alloc::AllocError;
use std::rt::{Clock, Files};
use std::sync::Wait;
use std::thread::Threads;
use test_report::{Detail, FileReport, RecordParts};
use test_terms::{Stop, Trial};

/// Runs a program on real threads as often as requested while there is time, judges each record, and adds the points.
///
/// # Errors
///
/// Memory or a thread was refused, or there is no clock.
pub fn test_runs<R: AllocGlobal + Clock + Eprint + Files + Sync + Threads + Wait>(
    trial: &Trial<'_, R>,
    file: &mut FileReport,
) -> Result<(), Stop>
    requires { IsProgram (content trial.now.script.now.body) }
    ensures none { trial.now.options.now.runs ≡ 0 → file.new.points ≡ file.old.points }
    ensures points { OnOk result (trial.now.options.now.runs ≢ 0 → AddsRuns trial.now.options.now
        trial.now.script.now.config (content trial.now.script.now.body) trial.now.case.conditions.now file.new.is_cut file.old
        file.new) }
    ensures cut { file.new.is_cut ≡ false → file.old.is_cut ≡ false }
    ensures time { IsCutByTime trial.now.options.now.limit.seconds file.old.is_cut file.new.is_cut }
{
    if trial.options.runs == 0 {
        return Ok(());
    }
    let mut tried = untried(trial)?;
    let mut pace = Pace::begin(trial.rt, trial.options.screen.is_watched)?;
    run_each(trial, &mut pace, &mut tried, file)?;
    pace.end(trial.rt);
    Ok(put_points(trial, tried, file)?)
}

/// Runs a program as often as requested while there is time, and judges each record.
fn run_each<R: AllocGlobal + Clock + Eprint + Files + Sync + Threads + Wait>(
    trial: &Trial<'_, R>,
    pace: &mut Pace,
    tried: &mut Tried,
    file: &mut FileReport,
) -> Result<(), Stop>
    requires program { IsProgram (content trial.now.script.now.body) }
    requires none { AreFound trial.now.script.now.config.harts trial.now.case.conditions.now [] tried.old.found }
    ensures runs { OnOk result ((records : List Record)
        × AreRunsOf trial.now.script.now.config (content trial.now.script.now.body) trial.now.case.conditions.now
        trial.now.options.now.runs file.new.is_cut records × AreFound trial.now.script.now.config.harts trial.now.case.conditions.now records tried.new.found) }
    ensures same { file.new.points ≡ file.old.points }
    ensures source { tried.new.source ≡ tried.old.source }
    ensures cut { file.new.is_cut ≡ false → file.old.is_cut ≡ false }
    ensures time { IsCutByTime trial.now.options.now.limit.seconds file.old.is_cut file.new.is_cut }
{
    let runs = trial.options.runs;
    for number in 0..runs {
        if trial.options.limit.is_over(trial.rt)? {
            file.is_cut = true;
            return Ok(());
        }
        let ended = run(trial.rt, trial.script, &Open)?;
        judge_run(trial, number, &ended, tried)?;
        pace.see(trial.rt, "runs", number.saturating_add(1), runs)?;
    }
    Ok(())
}

/// Before the first run.
fn untried<R: AllocGlobal>(trial: &Trial<'_, R>) -> Result<Tried, AllocError>
    ensures none { IfOk result (λ tried. (harts : ℕ) → AreFound harts trial.now.case.conditions.now [] tried.found) }
    ensures source { IfOk result (λ tried. tried.source ≡ FromThreads) }
{
    let alloc = trial.rt.alloc();
    let conditions = trial.case.conditions.len();
    let found = Findings::new(alloc, conditions)?;
    let mut kept = Vec::new(alloc);
    for _ in 0..conditions.max(1) {
        kept.push(Vec::new(alloc))?;
    }
    Ok(Tried {
        source: Source::Threads,
        found,
        kept,
    })
}

/// Judges the record of a run, and keeps it for each point of which it is the first that fails.
fn judge_run<R: AllocGlobal + Files>(
    trial: &Trial<'_, R>,
    number: u64,
    ended: &RunEnd,
    tried: &mut Tried,
) -> Result<(), AllocError>
    requires many { length tried.old.found.judged.items ≡ length trial.now.case.conditions.now }
    requires opening { ended.now.board.opening ≡ opening_at ended.now.board.opening.config }
    ensures source { tried.new.source ≡ tried.old.source }
    ensures found { OnOk result ((marks : List Told)
        × (AskOfMarks trial.now.case.conditions.now
        → AreMarkedFor trial.now.case.conditions.now ended.now.board.opening.config ended.now.board.past marks)
        × ((records : List Record) (x : Record) → x.number ≡ number → x.events ≡ reverse ended.now.board.past
        → x.marks ≡ marks → x.end ≡ ending ended.now.end
        → AreFound ended.now.board.opening.config.harts trial.now.case.conditions.now records tried.old.found
        → AreFound ended.now.board.opening.config.harts trial.now.case.conditions.now (x ∷ records) tried.new.found)) }
{
    let alloc = trial.rt.alloc();
    let marks = marks_asked(alloc, trial.case.conditions, &ended.board)?;
    tried.found.see(
        alloc,
        trial.case.conditions,
        number,
        &ended.board,
        &marks,
        ended.end,
    )?;
    keep_failing(trial, number, ended, &tried.found, &mut tried.kept)
}

/// Keeps the record of a run for each point of which it is the first that fails.
fn keep_failing<R: AllocGlobal + Files>(
    trial: &Trial<'_, R>,
    number: u64,
    ended: &RunEnd,
    found: &Findings,
    kept: &mut [Vec<Detail>],
) -> Result<(), AllocError> {
    for (i, details) in kept.iter_mut().enumerate() {
        let rule = trial
            .case
            .conditions
            .get(i)
            .map(|condition| &condition.rule);
        if judged(found, i).tally.first == Some(number) && tells_first(trial, rule) {
            let record = RecordParts::of(&ended.board, Some(ended.end));
            *details = keep_first(trial, Source::Threads, rule, number, record)?;
        }
    }
    Ok(())
}
