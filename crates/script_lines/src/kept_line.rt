//! A line in its packed form.
ghost use Rattle.std.specs.Prelude.{◌≡◌, length};
ghost use Rattle.script_lines.specs.declared.script.Line.{Line};
ghost use Rattle.script_lines.specs.KeptLines.{line_of, number_count};

use crate::line_shape::LineShape;
use crate::said::Said;
use crate::script::{Doing, Line};
use std::marker::Model;

/// A line of a schedule or a trace, in its packed form. Each method unpacks one part.
#[derive(Drop)]
pub struct KeptLine<'a> {
    pub(crate) kept: &'a LineShape,
    pub(crate) numbers: &'a [u64],
}

impl<'a> Model for KeptLine<'a> {
    ghost Value = { Line };

    ghost view = { λ l. line_of l.kept.now l.numbers.now };

    ghost invariant = { λ l. length l.numbers.now ≡ number_count l.kept.now };
}

impl<'a> KeptLine<'a> {
    /// The line's number, from 1.
    pub fn number(&self) -> u64
        ensures { result ≡ self.now.number }
    {
        u64::from(self.kept.number)
    }

    /// The line's action.
    #[inline(always)]
    pub fn doing(&self) -> Doing
        ensures { result ≡ self.now.doing }
    {
        let end = self.kept.op_count as usize;
        self.kept.doing.doing(&self.numbers[..end])
    }

    /// The reply or refusal, if the line is a trace's.
    pub fn said(&self) -> Option<Said>
        ensures { result ≡ self.now.said }
    {
        let from = self.kept.op_count as usize;
        self.kept.said.said(&self.numbers[from..])
    }

    /// The whole line.
    pub fn line(&self) -> Line
        ensures { result ≡ self.now }
    {
        Line {
            number: self.number(),
            doing: self.doing(),
            said: self.said(),
        }
    }
}
