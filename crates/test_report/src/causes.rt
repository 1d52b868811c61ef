//! Why an access is stale, unsteady, or not firm, as text.
use crate::records::{RecordParts, event_line};
use crate::stuck::place_of;
use access_causes::{AccessCause, Fencing, Former, Held, Origin, Reach, Walked};
use board_core::{Actor, Entry, Event, HartSet};
use diagnostics::Case;
use guest_programs::is_guest;
use std::alloc::{AllocError, Global};
use std::{fmt, str};

/// A step of a record: its place, from 0, its line in the script, if it has one, and its text.
#[derive(Drop)]
struct NamedStep {
    place: usize,
    line: Option<u64>,
    said: String,
}

impl NamedStep {
    /// The step in a place of a record.
    fn of(
        alloc: Global,
        case: &Case<'_>,
        record: &RecordParts<'_>,
        place: usize,
    ) -> Result<NamedStep, AllocError> {
        Ok(NamedStep {
            place,
            line: line_of(case, record, place),
            said: said_of(alloc, record.events.get(place))?,
        })
    }
}

/// `step 24 (line 13: 0 fencei)`, or without a line `step 25 (1 serve)`.
impl fmt::Display for NamedStep {
    fn fmt<W: fmt::Write>(&self, f: &mut fmt::Formatter<W>) -> fmt::Result {
        let NamedStep { place, line, said } = self;
        match line {
            Some(line) => write!(f, "step {place} (line {line}: {said})"),
            None => write!(f, "step {place} ({said})"),
        }
    }
}

/// The text of a step, without its reply.
fn said_of(alloc: Global, event: Option<&Event>) -> Result<String, AllocError> {
    let Some(event) = event else {
        return Ok(String::new(alloc));
    };
    let line = event_line(alloc, event)?;
    let text = str::from_utf8(&line).unwrap_or("");
    String::from_str(
        alloc,
        match text.split_once(" -> ") {
            Some((step, _)) => step,
            None => text,
        },
    )
}

/// The line of the step in a place: of the file's steps, or of a guest's operation in its block.
fn line_of(case: &Case<'_>, record: &RecordParts<'_>, place: usize) -> Option<u64> {
    if let Some(lines) = record.lines {
        return lines.get(place).copied().filter(|line| *line != 0);
    }
    let event = record.events.get(place)?;
    let Actor::Hart(hart) = event.actor() else {
        return None;
    };
    if !is_guest(event.op()) {
        return None;
    }
    let spot = place_of(record.events.get(..place)?, hart)?;
    let (line, _) = case.op_line(spot.addr, spot.done)?;
    Some(line)
}

/// Why an access is stale, unsteady, or not firm, with the texts of the steps that it names.
#[derive(Drop)]
pub struct ToldCause {
    cause: AccessCause,
    access: NamedStep,
    steps: Vec<NamedStep>,
}

impl ToldCause {
    /// A cause, with the steps of its record.
    ///
    /// # Errors
    ///
    /// Memory was refused.
    pub fn of(
        alloc: Global,
        case: &Case<'_>,
        record: &RecordParts<'_>,
        cause: AccessCause,
    ) -> Result<ToldCause, AllocError> {
        let mut steps = Vec::new(alloc);
        let places = [
            filled_at(&cause.origin),
            Some(cause.changed),
            fenced_at(&cause.fencing),
            next_at(&cause.fencing),
        ];
        for place in places {
            if let Some(place) = place {
                steps.push(NamedStep::of(alloc, case, record, place)?)?;
            }
        }
        let access = NamedStep::of(alloc, case, record, cause.place)?;
        Ok(ToldCause {
            cause,
            access,
            steps,
        })
    }

    /// The place of the access.
    pub fn place(&self) -> usize {
        self.cause.place
    }

    /// Its lines, each behind a margin.
    pub(crate) fn behind<'a>(&'a self, margin: &'a str) -> CauseLines<'a> {
        CauseLines {
            cause: self,
            margin,
        }
    }

    fn write_step<W: fmt::Write>(&self, f: &mut fmt::Formatter<W>, place: usize) -> fmt::Result {
        for step in &self.steps {
            if step.place == place {
                return write!(f, "{step}");
            }
        }
        write!(f, "step {place}")
    }

    /// What the access used or may use, and since when.
    fn write_use<W: fmt::Write>(&self, f: &mut fmt::Formatter<W>) -> fmt::Result {
        let AccessCause {
            hart,
            held,
            origin,
            ..
        } = &self.cause;
        let access = &self.access.said;
        let verb = match origin {
            Origin::Filled(_) => "used",
            _ => "may use",
        };
        write!(f, "{access} {verb} ")?;
        write_held(f, held)?;
        match origin {
            Origin::Filled(place) => {
                write!(f, ", filled at ")?;
                self.write_step(f, *place)
            }
            Origin::Given { from, until } => {
                write!(f, ", which the tables gave from step {from} to {until}")
            }
            Origin::BySatp { satp, from, until } => write!(
                f,
                ", which the tables give by satp {satp:#x}, which hart {hart} had from step {from} to {until}"
            ),
            Origin::Had(until) => match held {
                Held::Walked(
                    Walked {
                        former: Former::Satp(_),
                        ..
                    },
                ) => write!(f, ", which hart {hart} had up to step {until}"),
                _ => write!(f, ", which memory had up to step {until}"),
            },
        }
    }

    /// Which fence would have ended it.
    fn write_fencing<W: fmt::Write>(&self, f: &mut fmt::Formatter<W>) -> fmt::Result {
        match &self.cause.fencing {
            Fencing::Asked {
                place,
                harts,
                reach,
            } => {
                write!(f, "fenced{} at ", kind_of(&self.cause.held))?;
                self.write_step(f, *place)?;
                write!(f, ", which asked ")?;
                write_harts(f, harts)?;
                write_reach(f, self.cause.hart, *reach)
            }
            Fencing::Absent { before, next } => self.write_absent(f, *before, *next),
        }
    }

    /// That no fence was asked.
    fn write_absent<W: fmt::Write>(
        &self,
        f: &mut fmt::Formatter<W>,
        before: Option<usize>,
        next: Option<usize>,
    ) -> fmt::Result {
        match before {
            Some(place) => {
                write!(f, "fenced{} at ", kind_of(&self.cause.held))?;
                self.write_step(f, place)?;
                write!(f, ", before the change, and not since")?;
            }
            None => self.write_none(f)?,
        }
        match next {
            Some(place) => {
                write!(f, "; the next is ")?;
                self.write_step(f, place)
            }
            None => Ok(()),
        }
    }

    /// That the hart had no fence before.
    fn write_none<W: fmt::Write>(&self, f: &mut fmt::Formatter<W>) -> fmt::Result {
        let AccessCause {
            hart,
            address,
            held,
            ..
        } = &self.cause;
        match held {
            Held::Word(_) => write!(f, "no FENCE.I at hart {hart} before this"),
            Held::Entry(_) | Held::Walked(_) => {
                let kind = kind_of(held);
                write!(
                    f,
                    "no fence{kind} at hart {hart} covers {address:#x} before this"
                )
            }
        }
    }
}

/// The lines of a cause, each behind a margin.
#[derive(Clone, Copy)]
pub(crate) struct CauseLines<'a> {
    cause: &'a ToldCause,
    margin: &'a str,
}

impl fmt::Display for CauseLines<'_> {
    fn fmt<W: fmt::Write>(&self, f: &mut fmt::Formatter<W>) -> fmt::Result {
        let CauseLines { cause, margin } = *self;
        write!(f, "{margin}")?;
        cause.write_use(f)?;
        write!(f, "\n{margin}  changed at ")?;
        cause.write_step(f, cause.cause.changed)?;
        write!(f, "\n{margin}  ")?;
        cause.write_fencing(f)
    }
}

/// The place of the fill that is told.
fn filled_at(origin: &Origin) -> Option<usize> {
    match origin {
        Origin::Filled(place) => Some(*place),
        _ => None,
    }
}

/// The place of the fence that is told.
fn fenced_at(fencing: &Fencing) -> Option<usize> {
    match fencing {
        Fencing::Asked { place, .. } => Some(*place),
        Fencing::Absent { before, .. } => *before,
    }
}

/// The place of the next fence behind the access.
fn next_at(fencing: &Fencing) -> Option<usize> {
    match fencing {
        Fencing::Asked { .. } => None,
        Fencing::Absent { next, .. } => *next,
    }
}

/// Why a fence that was asked ended nothing at a hart.
fn write_reach<W: fmt::Write>(f: &mut fmt::Formatter<W>, hart: u64, reach: Reach) -> fmt::Result {
    match reach {
        Reach::NotAsked => write!(f, ", and not hart {hart}"),
        Reach::Waits => write!(f, "; hart {hart} hasn't served it yet"),
        Reach::Stopped => write!(f, "; hart {hart} stopped before it served it"),
    }
}

/// Which kind of fence alone ends what an access used, or may use.
fn kind_of(held: &Held) -> &'static str {
    let Held::Walked(walked) = held else {
        return "";
    };
    match (walked.is_whole, walked.is_global) {
        (false, false) => "",
        (true, false) => " without an address",
        (false, true) => " without an ASID",
        (true, true) => " without an address and an ASID",
    }
}

/// `0x80004000 rw-d`, `the word 0x13 of 0x80004000`, `the table word 0x20000c01 of 0x80002000`, or `satp 0x8000500000080001`.
fn write_held<W: fmt::Write>(f: &mut fmt::Formatter<W>, held: &Held) -> fmt::Result {
    match held {
        Held::Entry(entry) => {
            let pa = entry.pa();
            write!(f, "{pa:#x} ")?;
            write_rights(f, entry)
        }
        Held::Word(fetched) => {
            let word = fetched.word;
            let pa = fetched.pa;
            write!(f, "the word {word:#x} of {pa:#x}")
        }
        Held::Walked(walked) => match walked.former {
            Former::Word { pa, word } => write!(f, "the table word {word:#x} of {pa:#x}"),
            Former::Satp(satp) => write!(f, "satp {satp:#x}"),
        },
    }
}

fn write_rights<W: fmt::Write>(f: &mut fmt::Formatter<W>, entry: &Entry) -> fmt::Result {
    let leaf = entry.leaf();
    write_right(f, leaf.r, "r")?;
    write_right(f, leaf.w, "w")?;
    write_right(f, leaf.x, "x")?;
    write_right(f, leaf.d, "d")
}

/// The letter of a right, or a dash.
fn write_right<W: fmt::Write>(f: &mut fmt::Formatter<W>, has: bool, letter: &str) -> fmt::Result {
    write!(f, "{}", if has { letter } else { "-" })
}

/// `no hart`, `hart 1`, or `harts 1, 2`.
fn write_harts<W: fmt::Write>(f: &mut fmt::Formatter<W>, harts: &HartSet) -> fmt::Result {
    if harts.is_empty() {
        return write!(f, "no hart");
    }
    write!(f, "{}", if harts.len() == 1 { "hart " } else { "harts " })?;
    for (at, hart) in harts.iter().enumerate() {
        write!(f, "{}{hart}", if at == 0 { "" } else { ", " })?;
    }
    Ok(())
}
