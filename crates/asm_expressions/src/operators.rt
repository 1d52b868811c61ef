//! Operators between two values.
ghost use Rattle.asm_tokens.specs.Readings.{spots_of};
ghost use Rattle.std.specs.Prelude.{◌≡◌, option_map};
ghost use Rattle.asm_expressions.specs.Operators.{alu_of, behind_operator, behind_mark, combined, is_division, is_shift, joint_in, joint_of, operator_of, stands_at};
ghost use Rattle.asm_tokens.specs.Tokens.{lexeme_of};

use asm_tokens::{Mark, Placed, Token};
use rv64_alu::AluOp;

/// How tightly operators bind (GNU as, Infix Operators).
#[derive(Clone, Copy, PartialEq, Eq)]
pub(crate) enum Level {
    /// `+` and `-`.
    Sums,
    /// `&`, `|` and `^`, which bind tighter.
    Masks,
    /// `*`, `/`, `%`, `<<` and `>>`, which bind tighter still.
    Products,
    /// An operand, with its signs.
    Operand,
}

/// An operator between two values.
#[derive(Clone, Copy, PartialEq, Eq)]
pub(crate) enum Operator {
    /// `+`
    Plus,
    /// `-`
    Minus,
    /// `&`
    And,
    /// `|`
    Or,
    /// `^`
    Xor,
    /// `*`
    Times,
    /// `/`
    Divide,
    /// `%`
    Modulo,
    /// `<<`
    Left,
    /// `>>`
    Right,
}

/// An operator between two values, and its place.
#[derive(Clone, Copy)]
pub(crate) struct Joint<'t, 'a> {
    /// The operator.
    pub operator: Operator,
    /// The number of bytes from it to the end of the text.
    pub left: usize,
    /// The tokens behind it.
    pub rest: &'t [Placed<'a>],
}

impl Operator {
    /// What it makes of two values: what the machine's instruction makes of them; a shift by 64 or more gives 0. None: a
    /// division by 0.
    pub(crate) fn of(self, first: u64, second: u64) -> Option<u64>
        ensures { result ≡ combined self first second }
    {
        if self.is_division() && second == 0 {
            return None;
        }
        if self.is_shift() && second >= 64 {
            return Some(0);
        }
        Some(self.alu().of(first, second))
    }

    /// Whether it divides.
    fn is_division(self) -> bool
        ensures { result ≡ is_division self }
    {
        matches!(self, Operator::Divide | Operator::Modulo)
    }

    /// Whether it shifts.
    fn is_shift(self) -> bool
        ensures { result ≡ is_shift self }
    {
        matches!(self, Operator::Left | Operator::Right)
    }

    /// The machine's operation.
    fn alu(self) -> AluOp
        ensures { result ≡ alu_of self }
    {
        match self {
            Operator::Plus => AluOp::Add,
            Operator::Minus => AluOp::Sub,
            Operator::And => AluOp::And,
            Operator::Or => AluOp::Or,
            Operator::Xor => AluOp::Xor,
            Operator::Times => AluOp::Mul,
            Operator::Divide => AluOp::Div,
            Operator::Modulo => AluOp::Rem,
            Operator::Left => AluOp::Sll,
            Operator::Right => AluOp::Srl,
        }
    }

    /// Whether it is one of this level.
    fn stands_at(self, level: Level) -> bool
        ensures { result ≡ stands_at level self }
    {
        match level {
            Level::Sums => matches!(self, Operator::Plus | Operator::Minus),
            Level::Masks => matches!(self, Operator::And | Operator::Or | Operator::Xor),
            Level::Products => {
                self.is_shift() || self.is_division() || matches!(self, Operator::Times)
            }
            Level::Operand => false,
        }
    }
}

/// The operator of this level that the tokens begin with, if they begin with one.
pub(crate) fn next_joint<'t, 'a>(level: Level, tokens: &'t [Placed<'a>]) -> Option<Joint<'t, 'a>>
    ensures { option_map joint_of result ≡ joint_in level (spots_of tokens.now) }
{
    let (first, behind) = tokens.split_first()?;
    let operator = operator_of(first.token)?;
    if !operator.stands_at(level) {
        return None;
    }
    let rest = behind_operator(operator, behind)?;
    Some(Joint {
        operator,
        left: first.left,
        rest,
    })
}

/// The operator that a token is, or begins.
fn operator_of(token: Token<'_>) -> Option<Operator>
    ensures { result ≡ operator_of (lexeme_of token.entry) }
{
    Some(match token {
        Token::Mark(Mark::Plus) => Operator::Plus,
        Token::Mark(Mark::Minus) => Operator::Minus,
        Token::Mark(Mark::And) => Operator::And,
        Token::Mark(Mark::Or) => Operator::Or,
        Token::Mark(Mark::Caret) => Operator::Xor,
        Token::Mark(Mark::Star) => Operator::Times,
        Token::Mark(Mark::Slash) => Operator::Divide,
        Token::Mark(Mark::Percent) => Operator::Modulo,
        Token::Mark(Mark::Less) => Operator::Left,
        Token::Mark(Mark::Greater) => Operator::Right,
        _ => return None,
    })
}

/// The tokens behind an operator; `behind` stands behind its first mark, and a shift has two.
fn behind_operator<'t, 'a>(operator: Operator, behind: &'t [Placed<'a>]) -> Option<&'t [Placed<'a>]>
    ensures { option_map (λ rest. spots_of rest.now) result ≡ behind_operator operator (spots_of behind.now) }
{
    match operator {
        Operator::Left => behind_mark(Operator::Left, behind),
        Operator::Right => behind_mark(Operator::Right, behind),
        _ => Some(behind),
    }
}

/// The tokens behind the first one, if it is the mark of this shift.
fn behind_mark<'t, 'a>(shift: Operator, tokens: &'t [Placed<'a>]) -> Option<&'t [Placed<'a>]>
    ensures { option_map (λ rest. spots_of rest.now) result ≡ behind_mark shift (spots_of tokens.now) }
{
    let (first, behind) = tokens.split_first()?;
    match (shift, first.token) {
        (Operator::Left, Token::Mark(Mark::Less)) => Some(behind),
        (Operator::Right, Token::Mark(Mark::Greater)) => Some(behind),
        _ => None,
    }
}
