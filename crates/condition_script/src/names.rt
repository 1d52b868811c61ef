//! The words of a step that aren't numbers: from the table of operations and replies, and the marks.
use crate::marks::Mark;
use script_lines::{OpName, SaidName};

/// A word of a step that isn't a number: the clock's, an operation's name, a reply's, or a mark in a reply's place.
#[derive(Clone, Copy, PartialEq, Eq)]
pub enum Name {
    /// `c`
    Clock,
    /// The word of an operation.
    Op(OpName),
    /// The word of a reply.
    Said(SaidName),
    /// The word of a mark.
    Mark(Mark),
}
