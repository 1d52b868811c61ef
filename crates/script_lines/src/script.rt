//! Scripts, as values.
use crate::lines::Lines;
use crate::said::Said;
use board_terms::{Actor, Config, Op};

/// A script: the numbers of its board, and its body (profile).
#[derive(Debug, Drop)]
pub struct Script {
    /// The numbers of the board line.
    pub config: Config,
    /// The lines after the board line.
    pub body: Body,
}

/// The body of a script, by its kind (profile).
#[derive(Debug, Drop)]
pub enum Body {
    /// No line after the board's: an empty script of each kind.
    Empty,
    /// Blocks of guests' operations, and the clock's ticks.
    Program {
        /// The blocks, in their order. No two have the same address.
        blocks: Vec<Block>,
        /// The ticks of the clock's block, in their order; empty if there is no such block.
        clock: Vec<u64>,
    },
    /// The steps, in order.
    Schedule(Lines),
    /// The steps, in order, each with its reply or refusal.
    Trace(Lines),
}

/// The operations of a guest that is entered at an address (profile).
#[derive(Debug, Drop)]
pub struct Block {
    /// The address of the entry.
    pub addr: u64,
    /// The guest's operations, in their order.
    pub ops: Vec<Op>,
}

/// The action of a line (profile).
#[derive(Clone, Copy, Debug, PartialEq, Eq)]
pub enum Doing {
    /// A step of an actor.
    Step {
        /// The actor.
        actor: Actor,
        /// The operation.
        op: Op,
    },
    /// `cut`: the board's history is cut.
    Cut,
}

/// A line of a schedule or of a trace (profile).
#[derive(Clone, Copy, Debug, PartialEq, Eq)]
pub struct Line {
    /// The line's number, from 1.
    pub number: u64,
    /// The action.
    pub doing: Doing,
    /// The reply or refusal, if the line is a trace's.
    pub said: Option<Said>,
}
