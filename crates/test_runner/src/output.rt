//! Where a report goes: to a writer, and into the file of `--tap`.
ghost use Rattle.std.specs.Prelude.{◌≡◌, IfOk, OnOk, false};
ghost use Rattle.test_report.specs.declared.page.Style.TheVariants.{Tap};
ghost use Rattle.test_runner.specs.Inside.Telling.{HasTold, IsBegun, TellsEnd, TellsFile};

use std::alloc::{AllocError, Global};
use std::fs;
use std::io::{self, ErrorKind, Write};
use std::rt::{Clock, Files};
use test_report::{FileReport, Page, Report, Style, Unwritten};
use test_terms::{Options, Stop, is_one_of};

/// Where a report goes.
#[derive(Drop)]
pub(crate) struct Output<'a, R: Files> {
    rt: &'a R,
    options: &'a Options<'a>,
    /// What the writer gets.
    pub(crate) shown: Page,
    /// What is written into the named file.
    kept: Page,
    file: Option<R::File>,
}

impl<'a, R: AllocGlobal + Clock + Files> Output<'a, R> {
    /// Creates the file of `--tap`, which must not be one of the tested files.
    pub(crate) fn begin(rt: &'a R, options: &'a Options<'a>) -> Result<Output<'a, R>, Stop>
        ensures { IfOk result (λ output. options.now.screen.is_read ≡ false → IsBegun output.shown) }
    {
        let alloc = rt.alloc();
        let style = if options.screen.is_read {
            Style::Plain
        } else {
            Style::Tap
        };
        let file = match options.tap {
            Some(path) => match created(rt, path, &options.files) {
                Ok(file) => Some(file),
                Err(error) => return Err(unwritten(alloc, path, &error)?),
            },
            None => None,
        };
        Ok(Output {
            rt,
            options,
            shown: Page::new(alloc, style)?,
            kept: Page::new(alloc, Style::Tap)?,
            file,
        })
    }

    /// Writes the points of a file.
    pub(crate) fn tell_file<W: Write>(&mut self, out: &mut W, file: &FileReport) -> Result<(), Stop>
        ensures { OnOk result (self.old.shown.style ≡ Tap
            → TellsFile self.old.shown self.new.shown file.now (W.contents out.old) (W.contents out.new)) }
    {
        let alloc = self.rt.alloc();
        self.shown.put_file(alloc, file)?;
        put_kept(alloc, self.file.is_some(), file, &mut self.kept)?;
        self.tell(out)?;
        Ok(())
    }

    /// Writes the plan and the summary, and on a terminal the time taken.
    pub(crate) fn end<W: Write>(&mut self, out: &mut W, report: &Report) -> Result<(), Stop>
        ensures { OnOk result (self.old.shown.style ≡ Tap
            → TellsEnd self.old.shown (W.contents out.old) (W.contents out.new)) }
    {
        let alloc = self.rt.alloc();
        self.shown.put_summary(alloc, report)?;
        self.kept.put_summary(alloc, report)?;
        self.tell(out)?;
        self.tell_time(out)?;
        Ok(())
    }

    /// Writes the time taken, where a reader at a terminal wants it.
    fn tell_time<W: Write>(&self, out: &mut W) -> Result<(), Stop>
        ensures { self.now.shown.style ≡ Tap → W.contents out.new ≡ W.contents out.old }
    {
        if self.shown.style == Style::Tap {
            return Ok(());
        }
        let millis = self.options.limit.millis(self.rt)?;
        let (whole, tenth) = (millis / 1_000, millis % 1_000 / 100);
        let alloc = self.rt.alloc();
        let time = format!(in alloc; "time: {whole}.{tenth} s\n")?;
        Ok(out.write_all(time.as_bytes())?)
    }

    /// Writes what isn't written yet, also into the file of `--tap`.
    fn tell<W: Write>(&mut self, out: &mut W) -> Result<(), Stop>
        ensures { OnOk result (HasTold self.old.shown self.new.shown (W.contents out.old) (W.contents out.new)) }
    {
        out.write_all(self.shown.text.as_bytes())?;
        self.shown.text.clear();
        keep(
            self.rt.alloc(),
            self.options.tap,
            &mut self.file,
            &mut self.kept,
        )?;
        Ok(())
    }
}

/// Adds the report of a file, if it is kept.
fn put_kept(
    alloc: Global,
    is_kept: bool,
    file: &FileReport,
    kept: &mut Page,
) -> Result<(), AllocError> {
    if is_kept {
        kept.put_file(alloc, file)?;
    }
    Ok(())
}

/// Writes what isn't written yet into the file of this name, if there is one.
fn keep<F: Write>(
    alloc: Global,
    path: Option<&str>,
    file: &mut Option<F>,
    kept: &mut Page,
) -> Result<(), Stop> {
    if let Some(file) = file
        && let Some(path) = path
        && let Err(error) = file.write_all(kept.text.as_bytes())
    {
        return Err(unwritten(alloc, path, &error)?);
    }
    kept.text.clear();
    Ok(())
}

/// Creates the file of the points, which must not be one of the tested files.
fn created<R: Files>(rt: &R, path: &str, files: &[&str]) -> Result<R::File, io::Error> {
    if is_one_of(rt, path, files) {
        return Err(io::Error::from(ErrorKind::AlreadyExists));
    }
    fs::create(rt, path)
}

/// A file of this name could not be written.
fn unwritten(alloc: Global, path: &str, error: &io::Error) -> Result<Stop, AllocError> {
    Ok(Stop::Unwritten(Unwritten::new(alloc, path, error)?))
}
