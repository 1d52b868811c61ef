//! The verdict of a point, and how far `test` looked.
ghost use Rattle.std.specs.Prelude.{◌≡◌, if◌then◌else◌};
ghost use Rattle.test_report.specs.declared.verdict.Verdict.TheVariants.{Fails, Holds};

use crate::counts::{AllOrders, Grouped};
use crate::missing::Missing;
use conditions::{Item, Misfit, Name};
use std::{fmt, str};

/// Why something wasn't judged.
#[derive(Clone, Copy)]
pub enum Unjudged {
    /// The time was over.
    NoTime,
    /// No order was requested.
    NoOrder,
    /// It is about all orders, and only some were tried.
    NotAllOrders,
    /// There are more states than the limit, and none of those that were seen breaks it.
    TooMany(u64),
    /// It asks of marks, and the record has more events than a board's history.
    NoMarks,
    /// It asks what fence calls missed, or what isn't firm or lenient, which only records tell.
    Missed,
    /// It asks of marks, and a guest fetches: of its program only records tell marks.
    Fetches,
}

impl fmt::Display for Unjudged {
    fn fmt<W: fmt::Write>(&self, f: &mut fmt::Formatter<W>) -> fmt::Result {
        match self {
            Unjudged::NoTime => write!(f, "no time"),
            Unjudged::NoOrder => write!(f, "no order tried"),
            Unjudged::NotAllOrders => write!(f, "it asks of all orders"),
            Unjudged::TooMany(most) => {
                let most = Grouped(u128::from(*most));
                write!(f, "more than {most} states, none of those seen breaks it")
            }
            Unjudged::NoMarks => write!(f, "more than 1,000,000 events"),
            Unjudged::Missed => {
                write!(
                    f,
                    "only records tell what is missed, unfirm or unlenient: use test"
                )
            }
            Unjudged::Fetches => {
                write!(
                    f,
                    "the program fetches, and only records tell its marks: use test"
                )
            }
        }
    }
}

/// The verdict of a point.
#[derive(Drop)]
pub enum Verdict {
    /// It holds.
    Holds,
    /// It fails.
    Fails,
    /// It is vacuous: no order has a step that it needs.
    Vacuous(Missing),
    /// It judged nothing: no order ends.
    NoEnd,
    /// No step of the board can have one of its words.
    Misfit(Misfit),
    /// It wasn't judged.
    NotJudged(Unjudged),
}

impl Verdict {
    /// Whether it holds.
    pub fn of(holds: bool) -> Verdict
        ensures { result ≡ (if holds then Holds else Fails) }
    {
        if holds {
            Verdict::Holds
        } else {
            Verdict::Fails
        }
    }
}

/// How far `test` looked.
#[derive(Clone, Copy)]
pub enum Extent {
    /// At the file itself: its lines, or its fault.
    Lines,
    /// At all orders, as requested.
    Explored,
    /// At all orders of a program of few states.
    All(AllOrders),
    /// At some orders of a seed.
    Tried {
        /// How many.
        orders: u64,
        /// The seed.
        seed: u64,
        /// How many of them the limit cut off.
        cut: u64,
    },
    /// At some runs on threads.
    Runs {
        /// How many.
        runs: u64,
        /// How many of them the limit cut off.
        cut: u64,
    },
}

/// `all orders: 1,284`, or `1,000 orders of unknown many, seed 0`.
impl fmt::Display for Extent {
    fn fmt<W: fmt::Write>(&self, f: &mut fmt::Formatter<W>) -> fmt::Result {
        match self {
            Extent::Lines => Ok(()),
            Extent::Explored | Extent::All(AllOrders::Endless(_)) => write!(f, "all orders"),
            Extent::All(AllOrders::Counted(orders)) => {
                write!(f, "all orders: {}", Grouped(orders.all()))
            }
            Extent::Tried { orders, seed, .. } => {
                let many = Grouped(u128::from(*orders));
                write!(f, "{many} orders of unknown many, seed {seed}")
            }
            Extent::Runs { runs, .. } => {
                write!(f, "{} runs on threads", Grouped(u128::from(*runs)))
            }
        }
    }
}

/// How many orders the limit cut off.
fn write_cut<W: fmt::Write>(f: &mut fmt::Formatter<W>, reach: Extent) -> fmt::Result {
    let cut = match reach {
        Extent::Tried { cut, .. } | Extent::Runs { cut, .. } => cut,
        Extent::Lines | Extent::Explored | Extent::All(_) => 0,
    };
    if cut == 0 {
        return Ok(());
    }
    write!(
        f,
        ", of which the limit cut off {}",
        Grouped(u128::from(cut))
    )
}

/// The text of a verdict, behind the point's subject.
#[derive(Clone, Copy)]
pub(crate) struct Said<'a> {
    pub(crate) verdict: &'a Verdict,
    pub(crate) reach: Extent,
    /// The point is about some order, not about each.
    pub(crate) is_some: bool,
    /// The point is about ends, so that orders which the limit cut off are spared.
    pub(crate) is_of_ends: bool,
}

impl fmt::Display for Said<'_> {
    fn fmt<W: fmt::Write>(&self, f: &mut fmt::Formatter<W>) -> fmt::Result {
        match self.verdict {
            Verdict::Holds => self.write_judged(f, "holds", !self.is_some),
            Verdict::Fails => self.write_judged(f, "fails", self.is_some),
            Verdict::Vacuous(missing) => {
                write!(f, ": vacuous: no step is '{}'", missing.said)?;
                match self.reach {
                    Extent::Tried { orders, .. } => {
                        write!(f, " in the {} orders tried", Grouped(u128::from(orders)))?;
                    }
                    Extent::Runs { runs, .. } => {
                        write!(f, " in the {} runs", Grouped(u128::from(runs)))?;
                    }
                    Extent::Lines | Extent::Explored | Extent::All(_) => {}
                }
                write!(f, "{missing}")
            }
            Verdict::NoEnd => {
                write!(f, ": no order ends")?;
                match self.reach {
                    Extent::Tried { orders: cut, .. } | Extent::Runs { runs: cut, .. } => {
                        write!(f, ": the limit cut off all {}", Grouped(u128::from(cut)))
                    }
                    Extent::Lines | Extent::Explored | Extent::All(_) => Ok(()),
                }
            }
            Verdict::Misfit(misfit) => write_misfit(f, *misfit),
            Verdict::NotJudged(why) => write!(f, ": not judged: {why}"),
        }
    }
}

impl Said<'_> {
    /// The verdict about each order, or about some.
    fn write_judged<W: fmt::Write>(
        &self,
        f: &mut fmt::Formatter<W>,
        found: &str,
        of_each: bool,
    ) -> fmt::Result {
        let reach = self.reach;
        match (reach, of_each) {
            (Extent::Lines, _) => {}
            (Extent::Explored, false) => write!(f, ": {found}")?,
            (_, true) => write!(f, ": {found} in {reach}")?,
            (_, false) => write!(f, ": {found} in some of {reach}")?,
        }
        if self.is_of_ends {
            write_cut(f, reach)
        } else {
            Ok(())
        }
    }
}

/// Which word of a condition no step of the board can have.
fn write_misfit<W: fmt::Write>(f: &mut fmt::Formatter<W>, misfit: Misfit) -> fmt::Result {
    match misfit {
        Misfit::NoHart(hart) => write!(f, ": the board has no hart {hart}"),
        Misfit::Unheld(name, item) => {
            let word = match name {
                Name::Clock => b"c".as_slice(),
                Name::Op(op) => op.word(),
                Name::Said(said) => said.word(),
                Name::Mark(mark) => mark.word(),
            };
            write!(f, ": no {} has ", str::from_utf8(word).unwrap_or(""))?;
            write_item(f, item)
        }
        Misfit::OtherActor(op) => {
            let whose = if op.word() == b"tick".as_slice() {
                "a hart"
            } else {
                "the clock"
            };
            let op = str::from_utf8(op.word()).unwrap_or("");
            write!(f, ": no {op} is {whose}'s")
        }
        Misfit::NoReply(op, said) => {
            let op = str::from_utf8(op.word()).unwrap_or("");
            let said = str::from_utf8(said.word()).unwrap_or("");
            write!(f, ": no {op} has the reply {said}")
        }
        Misfit::NoAnswer(op, said, item) => {
            let op = str::from_utf8(op.word()).unwrap_or("");
            let said = str::from_utf8(said.word()).unwrap_or("");
            write!(f, ": no {op}'s {said} has ")?;
            write_item(f, item)
        }
        Misfit::Untold(mark) => {
            let mark = str::from_utf8(mark.word()).unwrap_or("");
            write!(f, ": only records tell what is {mark}")
        }
        Misfit::NoMark(op, mark) => {
            let op = str::from_utf8(op.word()).unwrap_or("");
            let mark = str::from_utf8(mark.word()).unwrap_or("");
            write!(f, ": no {op} is {mark}")
        }
    }
}

/// A number or a dash of a condition.
fn write_item<W: fmt::Write>(f: &mut fmt::Formatter<W>, item: Item) -> fmt::Result {
    match item {
        Item::Number(n) => write!(f, "{n}"),
        Item::Below(n) => write!(f, "-{n}"),
        Item::Absent => write!(f, "-"),
        Item::Word(_) => Ok(()),
    }
}
