//! The lines of a schedule or a trace, packed.
ghost use Rattle.std.specs.Prelude.{◌≡◌, ◌↔◌, ◌==◌, ◌++◌, ◌∷◌, [], ◌<◌, ◌≤◌, true, IsErrOf, List, OnErr, OnOk, length, slice_get};
ghost use Rattle.std.specs.Iterator.{YieldsFirst, item_count};
ghost use Rattle.script_lines.specs.declared.script.Line.{Line};
ghost use Rattle.script_lines.specs.declared.lines.LineFault.TheVariants.{BadLine, NoMemory};
ghost use Rattle.script_lines.specs.KeptLines.{CanFollow, IsLike, lines_of, plain_line, total_count};
ghost use Rattle.script_lines.specs.Packing.{DoingFits, FitsKept};

use crate::kept_line::KeptLine;
use crate::line_shape::{ActorShape, DoingShape, LineShape};
use crate::op_shape::{OP_NUMBERS, put_all};
use crate::places::LAST_HART;
use crate::plain::Plain;
use crate::said_shape::{SAID_NUMBERS, SaidShape};
use crate::script::{Doing, Line};
use board_terms::Actor;
use std::alloc::{AllocError, Global};
use std::marker::Model;
use thiserror::Error;

/// The most numbers of a line.
const LINE_NUMBERS: usize = OP_NUMBERS + SAID_NUMBERS;

/// The bytes of a script from which on it is worth reserving room for all its lines at once.
const MANY_BYTES: usize = 1 << 16;

/// The bytes of a short line.
const LINE_BYTES: usize = 8;

const _: () = prove!(size_of::<LineShape>() == 12);

/// The most lines, and the bound that line numbers stay below: 2^28 (profile).
pub const MOST_LINES: usize = 1 << 28;

/// Why a line can't be added to lines.
#[derive(Clone, Copy, Debug, PartialEq, Eq, Error)]
pub enum LineFault {
    /// The line can't follow them: it is of another kind, or its hart, its number or their count is too large.
    #[error("a line that can't follow")]
    BadLine,
    /// Out of memory.
    #[error("no memory")]
    NoMemory,
}

impl From<AllocError> for LineFault {
    ghost from_gives = { λ _ fault. fault ≡ NoMemory };

    fn from(_refused: AllocError) -> LineFault {
        LineFault::NoMemory
    }
}

/// Whether an action is a cut, or a step of the clock or of a hart up to 127.
fn fits(doing: Doing) -> bool
    ensures { (result ≡ true) ↔ DoingFits doing }
{
    match doing {
        Doing::Step { actor, op: _ } => match actor {
            Actor::Hart(hart) => hart <= LAST_HART,
            Actor::Clock => true,
        },
        Doing::Cut => true,
    }
}

/// The lines of a schedule or a trace. A line takes 12 bytes, and 8 for each of its numbers.
#[derive(Debug, Drop)]
pub struct Lines {
    kept: Vec<LineShape>,
    numbers: Vec<u64>,
}

impl Model for Lines {
    ghost Value = { List Line };

    ghost view = { λ l. lines_of l.numbers.items l.kept.items };

    ghost invariant = { λ l. length l.numbers.items ≡ total_count l.kept.items };
}

impl Lines {
    /// No lines.
    pub fn new(alloc: Global) -> Lines
        ensures { result ≡ [] }
    {
        Lines {
            kept: Vec::new(alloc),
            numbers: Vec::new(alloc),
        }
    }

    /// Appends a line to a schedule's or a trace's lines.
    ///
    /// # Errors
    ///
    /// `BadLine`: the line can't follow these lines. `NoMemory`: out of memory. The lines don't change.
    pub fn add(&mut self, line: &Line) -> Result<(), LineFault>
        ensures bad { IsErrOf result BadLine ↔ ¬ CanFollow self.old line.now }
        ensures added { OnOk result (self.new ≡ self.old ++ line.now ∷ []) }
        ensures refused { OnErr result (self.new ≡ self.old) }
    {
        if !self.can_follow(line) {
            return Err(LineFault::BadLine);
        }
        self.push(line)?;
        Ok(())
    }

    /// Whether a line can follow these lines.
    fn can_follow(&self, line: &Line) -> bool
        ensures { (result ≡ true) ↔ CanFollow self.now line.now }
    {
        self.len() < MOST_LINES
            && line.number < MOST_LINES as u64
            && fits(line.doing)
            && self.is_like(line)
    }

    /// Whether there is no line yet, or the line and the first line both have a reply or both have none.
    fn is_like(&self, line: &Line) -> bool
        ensures { (result ≡ true) ↔ IsLike self.now line.now }
    {
        match self.first() {
            None => true,
            Some(first) => first.said.is_some() == line.said.is_some(),
        }
    }

    /// Reserves room for all lines of a script of so many bytes, if it is long. (Systems give large pages to large
    /// allocations.) If memory is refused, it does nothing.
    pub fn expect(&mut self, bytes: usize)
        ensures { self.new ≡ self.old }
    {
        let lines = bytes / LINE_BYTES;
        if bytes < MANY_BYTES || self.kept.capacity() >= lines {
            return;
        }
        // (if memory is refused, `push` asks again when it needs it)
        let _ = self.kept.reserve(lines);
        let _ = self.numbers.reserve(lines);
    }

    /// Appends a line.
    ///
    /// # Errors
    ///
    /// Out of memory.
    pub fn push(&mut self, line: &Line) -> Result<(), AllocError>
        requires number { line.now.number < MOST_LINES }
        requires actor { DoingFits line.now.doing }
        ensures pushed { OnOk result (self.new ≡ self.old ++ line.now ∷ []) }
        ensures refused { OnErr result (self.new ≡ self.old) }
    {
        self.kept.reserve(1)?;
        self.numbers.reserve(LINE_NUMBERS)?;
        let before = self.numbers.len();
        let doing = DoingShape::put(line.doing, &mut self.numbers);
        let op_count = self.numbers.len() - before;
        let said = SaidShape::put(line.said, &mut self.numbers);
        self.kept.push_reserved(LineShape {
            number: line.number as u32,
            doing,
            op_count: op_count as u8,
            said,
        });
        Ok(())
    }

    /// Appends a line made of these parts, and the numbers of its operation.
    ///
    /// # Errors
    ///
    /// Out of memory.
    #[inline(always)]
    pub fn push_plain(
        &mut self,
        number: u64,
        plain: Plain,
        numbers: &[u64],
    ) -> Result<(), AllocError>
        requires number { number < MOST_LINES }
        requires actor { FitsKept plain.actor }
        requires numbers { length numbers.now ≤ OP_NUMBERS }
        ensures { OnOk result (self.new ≡ self.old ++ plain_line number plain numbers.now ∷ []) }
    {
        self.kept.reserve(1)?;
        self.numbers.reserve(LINE_NUMBERS)?;
        let count = plain.op.kept_count(numbers);
        put_all(&numbers[..count], &mut self.numbers);
        let said = SaidShape::put(plain.said, &mut self.numbers);
        self.kept.push_reserved(LineShape {
            number: number as u32,
            doing: DoingShape::Step {
                actor: ActorShape::of(plain.actor),
                op: plain.op,
            },
            op_count: count as u8,
            said,
        });
        Ok(())
    }

    /// The number of lines.
    #[tactic(auto, using(crate::proofs::Packed::length_lines))]
    pub fn len(&self) -> usize
        ensures { result ≡ length self.now }
    {
        self.kept.len()
    }

    /// Whether there is no line.
    pub fn is_empty(&self) -> bool
        ensures { result ≡ (length self.now == 0) }
    {
        self.len() == 0
    }

    /// The first line, if there is one.
    pub fn first(&self) -> Option<Line>
        ensures { result ≡ slice_get self.now 0 }
    {
        match self.iter().next() {
            Some(found) => Some(found.line()),
            None => None,
        }
    }

    /// The lines in their order.
    pub fn iter(&self) -> LinesIter<'_>
        ensures { result ≡ self.now }
    {
        LinesIter {
            left: &self.kept,
            numbers: &self.numbers,
        }
    }
}

/// An iterator over lines, in their order.
#[derive(Drop)]
pub struct LinesIter<'a> {
    left: &'a [LineShape],
    numbers: &'a [u64],
}

impl<'a> Model for LinesIter<'a> {
    ghost Value = { List Line };

    ghost view = { λ l. lines_of l.numbers.now l.left.now };

    ghost invariant = { λ l. length l.numbers.now ≡ total_count l.left.now };
}

impl<'a> Iterator for LinesIter<'a> {
    type Item = KeptLine<'a>;

    ghost next_gives = { YieldsFirst (λ lines. lines) };

    ghost remaining = { item_count (λ lines. lines) };

    fn next(&mut self) -> Option<KeptLine<'a>> {
        let (kept, left) = self.left.split_first()?;
        let (numbers, others) = self.numbers.split_at(kept.number_count());
        self.left = left;
        self.numbers = others;
        Some(KeptLine { kept, numbers })
    }
}
