//! Notes behind a file's points, one a line.
use crate::causes::ToldCause;
use crate::counts::{AllOrders, or_more};
use guest_programs::End;
use std::fmt;

/// What a stale access used.
#[derive(Clone, Copy)]
pub enum Stale {
    /// A translation that a walk of the page tables wouldn't give.
    Translation,
    /// A word of the instruction cache that memory no longer has.
    Word,
}

/// A stale access of a line.
#[derive(Drop)]
pub struct StaleAccess {
    /// The line.
    pub line: u64,
    /// What it used.
    pub stale: Stale,
    /// Whether a fence call missed it.
    pub is_missed: bool,
    /// Why it is stale, where that is told.
    pub cause: Option<ToldCause>,
}

/// `line 22: stale: memory has another word`, and the lines of its cause.
impl fmt::Display for StaleAccess {
    fn fmt<W: fmt::Write>(&self, f: &mut fmt::Formatter<W>) -> fmt::Result {
        let line = self.line;
        let why = match self.stale {
            Stale::Translation => "a walk gives another translation",
            Stale::Word => "memory has another word",
        };
        write!(f, "line {line}: stale: {why}")?;
        if self.is_missed {
            write!(f, "; a fence call missed it")?;
        }
        let Some(cause) = &self.cause else {
            return Ok(());
        };
        let lines = cause.behind("  ");
        write!(f, "\n{lines}")
    }
}

/// What is told of an access that is stale in some order.
pub const STALE_IN_SOME: &str =
    "stale in some order: a walk gives another translation; `#! never stale` tells the order";

/// What a load, a fetch or an AMO gave: a value, or the number of its fault's cause.
#[derive(Clone, Copy, PartialEq, Eq, Hash)]
pub enum Given {
    /// A value.
    Value(u64),
    /// A fault.
    Fault(u64),
}

/// What a load gave last.
#[derive(Clone, Copy)]
pub struct LoadGave {
    /// Its hart.
    pub hart: u64,
    /// Its line.
    pub line: u64,
    /// What it gave, if it was made.
    pub given: Option<Given>,
}

/// An outcome of a program: what each load gave last, how these orders end, and how many they are.
#[derive(Drop)]
pub struct Outcome {
    /// What the loads gave.
    pub loads: Vec<LoadGave>,
    /// How orders end.
    pub end: End,
    /// At how many states.
    pub states: u64,
    /// How many orders, where they are counted.
    pub orders: Option<u128>,
}

/// A note about a file.
#[derive(Drop)]
pub enum Note {
    /// The patterns of the condition of a line met no step.
    NeverMet(u64),
    /// The access of a line was stale.
    Stale(StaleAccess),
    /// The access of a line is stale in some order.
    StaleInSome(u64),
    /// The step of a schedule's line was refused, by this number.
    Refused(u64, u64),
    /// No order entered the block of a line, at this address.
    NotEntered(u64, u64),
    /// Each answer to the call of a line was an error.
    OnlyErrors(u64, String),
    /// A hart was entered at this address, where no block is.
    NoBlock(u64),
    /// Not all orders were seen, but these numbers of states and steps.
    NotAllSeen(usize, usize),
    /// All orders.
    Orders(AllOrders),
    /// All states, and the steps between them.
    States(usize, usize),
    /// The number of outcomes, which follow.
    Outcomes(usize),
    /// An outcome.
    Outcome(Outcome),
    /// There are too many states to tell outcomes.
    NoOutcomes,
}

impl fmt::Display for Note {
    fn fmt<W: fmt::Write>(&self, f: &mut fmt::Formatter<W>) -> fmt::Result {
        match self {
            Note::NeverMet(line) => {
                write!(
                    f,
                    "line {line}: never met: no step has this actor and operation"
                )
            }
            Note::Stale(access) => write!(f, "{access}"),
            Note::StaleInSome(line) => write!(f, "line {line}: {STALE_IN_SOME}"),
            Note::Refused(line, refusal) => write!(f, "line {line}: refused {refusal}"),
            Note::NotEntered(line, addr) => {
                write!(f, "line {line}: no order entered the block at {addr:#x}")
            }
            Note::OnlyErrors(line, said) => {
                write!(f, "line {line}: each answer to '{said}' was an error")
            }
            Note::NoBlock(addr) => write!(f, "a hart was entered at {addr:#x}, where no block is"),
            Note::NotAllSeen(states, steps) => {
                write!(
                    f,
                    "not all orders were seen: {states} states, {steps} steps"
                )
            }
            Note::Orders(orders) => write!(f, "orders: {orders}"),
            Note::States(states, steps) => write!(f, "states: {states}, steps: {steps}"),
            Note::Outcomes(many) => write!(f, "outcomes: {many}"),
            Note::Outcome(outcome) => write!(f, "{outcome}"),
            Note::NoOutcomes => write!(f, "outcomes: not told, there are too many states"),
        }
    }
}

/// `  0:5=0x1 1:9=- quiet: 2 states, 7 orders`.
impl fmt::Display for Outcome {
    fn fmt<W: fmt::Write>(&self, f: &mut fmt::Formatter<W>) -> fmt::Result {
        write!(f, " ")?;
        for LoadGave { hart, line, given } in &self.loads {
            match given {
                Some(Given::Value(value)) => write!(f, " {hart}:{line}={value:#x}")?,
                Some(Given::Fault(cause)) => write!(f, " {hart}:{line}=fault-{cause}")?,
                None => write!(f, " {hart}:{line}=-")?,
            }
        }
        let end = ended(self.end);
        let states = self.states;
        write!(f, " {end}: {states} states")?;
        if let Some(orders) = self.orders {
            let more = or_more(orders);
            write!(f, ", {orders}{more} orders")?;
        }
        Ok(())
    }
}

/// An end as scripts name it.
fn ended(end: End) -> &'static str {
    match end {
        End::Off => "off",
        End::Quiet => "quiet",
        End::Stuck => "stuck",
        End::HistoryFull => "history-full",
        End::GateLimit => "gate-limit",
    }
}
