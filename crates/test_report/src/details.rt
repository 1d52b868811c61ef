//! The details below a point, as YAML.
ghost use Rattle.std.specs.Prelude.{◌≡◌};
ghost use Rattle.test_report.specs.Lines.{shown_as};

use crate::causes::ToldCause;
use crate::records::event_line;
use crate::stuck::StuckHart;
use board_core::Event;
use std::alloc::{AllocError, Global};
use std::fmt::Write;
use std::{io, str};

/// A file that could not be written.
#[derive(Drop)]
pub struct Unwritten {
    /// Its name.
    pub path: String,
    /// Why.
    pub why: String,
}

impl Unwritten {
    /// The file of this name could not be written.
    pub fn new(alloc: Global, path: &str, error: &io::Error) -> Result<Unwritten, AllocError> {
        Ok(Unwritten {
            path: String::from_str(alloc, path)?,
            why: format!(in alloc; "{error}")?,
        })
    }

    /// The same once more.
    pub fn copied(&self, alloc: Global) -> Result<Unwritten, AllocError> {
        Ok(Unwritten {
            path: String::from_str(alloc, self.path.as_str())?,
            why: String::from_str(alloc, self.why.as_str())?,
        })
    }
}

/// A line of a trace whose reply isn't the board's.
#[derive(Drop)]
pub struct Difference {
    /// Its number, from 1.
    pub line: u64,
    /// What it says.
    pub wanted: String,
    /// The line with the board's reply.
    pub got: String,
}

/// A detail below a point.
#[derive(Drop)]
pub enum Detail {
    /// A number, with what it is.
    Number(&'static str, u64),
    /// Why it fails.
    Reason(&'static str),
    /// The name of the file that has the record.
    Record(String),
    /// Why the record's file could not be written.
    Unwritten(Unwritten),
    /// The place of a step, from 0, and the steps around it, each with its place.
    Steps(usize, Vec<(usize, Event)>),
    /// The same, with the steps as text.
    Noted(usize, Vec<(usize, String)>),
    /// Why accesses of the record have a mark.
    Causes(Vec<ToldCause>),
    /// The harts that can't go on.
    Stuck(Vec<StuckHart>),
    /// Where harts stand that can't go on, as text.
    Standing(Vec<String>),
    /// The lines of a trace that differ.
    Lines(Vec<Difference>),
}

impl Detail {
    /// Puts it behind this margin.
    pub(crate) fn put(
        &self,
        alloc: Global,
        margin: &str,
        text: &mut String,
    ) -> Result<(), AllocError> {
        match self {
            Detail::Number(key, number) => writeln!(text, "{margin}{key}: {number}"),
            Detail::Reason(why) => writeln!(text, "{margin}reason: \"{why}\""),
            Detail::Record(path) => {
                write!(text, "{margin}record: ")?;
                put_quoted(path.as_str(), text)?;
                text.push('\n')
            }
            Detail::Unwritten(found) => {
                let why = &found.why;
                writeln!(text, "{margin}unwritten: \"{why}\"")
            }
            Detail::Steps(place, steps) => {
                writeln!(text, "{margin}place: {place}\n{margin}steps: |")?;
                put_steps(alloc, margin, steps, text)
            }
            Detail::Noted(place, steps) => {
                writeln!(text, "{margin}place: {place}\n{margin}steps: |")?;
                for (k, step) in steps {
                    writeln!(text, "{margin}  {k} {step}")?;
                }
                Ok(())
            }
            Detail::Causes(causes) => put_causes(alloc, margin, causes, text),
            Detail::Stuck(harts) => {
                writeln!(text, "{margin}stuck:")?;
                for hart in harts {
                    writeln!(text, "{margin}  - \"{hart}\"")?;
                }
                Ok(())
            }
            Detail::Standing(harts) => {
                writeln!(text, "{margin}stuck:")?;
                for hart in harts {
                    write!(text, "{margin}  - ")?;
                    put_quoted(hart.as_str(), text)?;
                    text.push('\n')?;
                }
                Ok(())
            }
            Detail::Lines(differences) => {
                writeln!(text, "{margin}lines:")?;
                for Difference { line, wanted, got } in differences {
                    writeln!(
                        text,
                        "{margin}  - line: {line}\n{margin}    wanted: \"{wanted}\""
                    )?;
                    writeln!(text, "{margin}    got: \"{got}\"")?;
                }
                Ok(())
            }
        }
    }
}

/// Puts steps, each with its place.
fn put_steps(
    alloc: Global,
    margin: &str,
    steps: &[(usize, Event)],
    text: &mut String,
) -> Result<(), AllocError> {
    for (place, event) in steps {
        let line = event_line(alloc, event)?;
        let shown = str::from_utf8(&line).unwrap_or("\n");
        write!(text, "{margin}  {place} {shown}")?;
    }
    Ok(())
}

/// Puts why accesses have a mark.
fn put_causes(
    alloc: Global,
    margin: &str,
    causes: &[ToldCause],
    text: &mut String,
) -> Result<(), AllocError> {
    writeln!(text, "{margin}cause: |")?;
    let margin = format!(in alloc; "{margin}  ")?;
    for cause in causes {
        let lines = cause.behind(margin.as_str());
        writeln!(text, "{lines}")?;
    }
    Ok(())
}

/// Puts a text in quotes.
fn put_quoted(quoted: &str, text: &mut String) -> Result<(), AllocError> {
    text.push('"')?;
    for letter in quoted.chars() {
        if letter == '"' || letter == '\\' {
            text.push('\\')?;
        }
        text.push(shown(letter))?;
    }
    text.push('"')
}

/// A letter as it may be shown: no control character is.
pub(crate) fn shown(letter: char) -> char
    ensures { result ≡ shown_as letter }
{
    if letter.is_control() { '?' } else { letter }
}
