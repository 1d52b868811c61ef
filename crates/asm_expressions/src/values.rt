//! Values of expressions.
ghost use Rattle.asm_tokens.specs.Readings.{spots_of};
ghost use Rattle.std.specs.Prelude.{◌≡◌, option_map};
ghost use Rattle.asm_expressions.specs.Symbols.{context_of};
ghost use Rattle.asm_expressions.specs.Values.{alone, operated, bracketed, behind_close, inner_level, with_operators, left_or_end, name_value, part_behind, read_as, value_at, value_of, whole, value_of_word};

use crate::faults::{Fault, Wrong};
use crate::operators::{Level, Operator, next_joint};
use crate::parts::Part;
use crate::symbols::{Scope, symbol_value};
use asm_tokens::{Mark, Placed, Term, Token, word_term};

/// A value, and the tokens behind it.
#[derive(Clone, Copy)]
struct Found<'t, 'a> {
    value: u64,
    rest: &'t [Placed<'a>],
}

/// How many levels, signs and parentheses may stand within one another; a pair of parentheses takes four.
const DEEPEST: u32 = 256;

/// The value of the expression that all of these tokens are.
///
/// # Errors
///
/// Its first fault.
pub fn value_of(scope: &Scope<'_, '_>, tokens: &[Placed<'_>]) -> Result<u64, Fault>
    ensures { result ≡ value_of (context_of scope.now) (spots_of tokens.now) }
{
    whole(value_at(scope, DEEPEST, Level::Sums, tokens))
}

/// A value, if nothing stands behind it.
fn whole(found: Result<Found<'_, '_>, Fault>) -> Result<u64, Fault>
    ensures { result ≡ whole (read_as found.entry) }
{
    let found = found?;
    match found.rest.split_first() {
        None => Ok(found.value),
        Some((first, _)) => Err(fault(Wrong::Behind, first.left)),
    }
}

/// The value of the expression of this level that tokens begin with.
#[cycle(values)]
#[tactic(auto, using(crate::proofs::Depth::value_deeper))]
fn value_at<'t, 'a>(
    scope: &Scope<'_, '_>,
    depth: u32,
    level: Level,
    tokens: &'t [Placed<'a>],
) -> Result<Found<'t, 'a>, Fault>
    ensures { read_as result ≡ value_at (context_of scope.now) depth level (spots_of tokens.now) }
{
    if depth == 0 {
        return Err(fault(Wrong::TooDeep, left_or_end(scope, tokens)));
    }
    match inner_level(level) {
        Some(inner) => with_operators(scope, depth - 1, level, inner, tokens),
        None => alone(scope, depth - 1, tokens),
    }
}

/// Operands of the inner level, with operators of this one between them, from left to right.
#[cycle(values)]
#[tactic(auto, using(crate::proofs::Depth::joins_more, crate::proofs::Depth::spots_length))]
fn with_operators<'t, 'a>(
    scope: &Scope<'_, '_>,
    depth: u32,
    level: Level,
    inner: Level,
    tokens: &'t [Placed<'a>],
) -> Result<Found<'t, 'a>, Fault>
    ensures { read_as result ≡ with_operators (value_at (context_of scope.now) depth inner) level (spots_of tokens.now) }
{
    let mut found = value_at(scope, depth, inner, tokens)?;
    let mut left = tokens.len();
    'operators: while left > 0 {
        let Some(at) = next_joint(level, found.rest) else {
            return Ok(found);
        };
        let second = value_at(scope, depth, inner, at.rest)?;
        let value = operated(at.operator, at.left, found.value, second.value)?;
        found = Found {
            value,
            rest: second.rest,
        };
        left -= 1;
    }
    Ok(found)
}

/// One operand: a number, a symbol, a sign and an operand, or an expression in parentheses.
#[cycle(values)]
fn alone<'t, 'a>(
    scope: &Scope<'_, '_>,
    depth: u32,
    tokens: &'t [Placed<'a>],
) -> Result<Found<'t, 'a>, Fault>
    ensures { read_as result ≡ alone (context_of scope.now) (value_at (context_of scope.now) depth) (spots_of tokens.now) }
{
    let Some((first, behind)) = tokens.split_first() else {
        return Err(fault(Wrong::NoValue, scope.end));
    };
    match first.token {
        Token::Word(word) => {
            let value = value_of_word(scope, word, first.left)?;
            Ok(Found {
                value,
                rest: behind,
            })
        }
        Token::Mark(Mark::Plus) => value_at(scope, depth, Level::Operand, behind),
        Token::Mark(Mark::Minus) => {
            let found = value_at(scope, depth, Level::Operand, behind)?;
            Ok(Found {
                value: 0u64.wrapping_sub(found.value),
                rest: found.rest,
            })
        }
        Token::Mark(Mark::Tilde) => {
            let found = value_at(scope, depth, Level::Operand, behind)?;
            Ok(Found {
                value: !found.value,
                rest: found.rest,
            })
        }
        Token::Mark(Mark::Open) => bracketed(scope, depth, first.left, Part::Whole, behind),
        Token::Mark(Mark::Percent) => match part_behind(behind) {
            Some((part, inside)) => bracketed(scope, depth, first.left, part, inside),
            None => Err(fault(Wrong::UnknownFunction, first.left)),
        },
        _ => Err(fault(Wrong::NoValue, first.left)),
    }
}

/// A part of the value of an expression, whose opening parenthesis stands before the tokens; `left` is the place of the part.
#[cycle(values)]
fn bracketed<'t, 'a>(
    scope: &Scope<'_, '_>,
    depth: u32,
    left: usize,
    part: Part,
    tokens: &'t [Placed<'a>],
) -> Result<Found<'t, 'a>, Fault>
    ensures { read_as result ≡ bracketed (context_of scope.now) (value_at (context_of scope.now) depth) left part (spots_of tokens.now) }
{
    let found = value_at(scope, depth, Level::Sums, tokens)?;
    let Some(rest) = behind_close(found.rest) else {
        return Err(fault(Wrong::OpenParenthesis, left_or_end(scope, found.rest)));
    };
    match part.of(found.value) {
        Some(value) => Ok(Found { value, rest }),
        None => Err(fault(Wrong::OutOfReach, left)),
    }
}

/// A fault.
fn fault(wrong: Wrong, left: usize) -> Fault
    ensures { result ≡ record { wrong = wrong; left = left } }
{
    Fault { wrong, left }
}

/// The place of the first token, or of the end of the statement.
pub fn left_or_end(scope: &Scope<'_, '_>, tokens: &[Placed<'_>]) -> usize
    ensures { result ≡ left_or_end (context_of scope.now) (spots_of tokens.now) }
{
    match tokens.split_first() {
        Some((first, _)) => first.left,
        None => scope.end,
    }
}

/// The level within a level; an operand has none.
fn inner_level(level: Level) -> Option<Level>
    ensures { result ≡ inner_level level }
{
    match level {
        Level::Sums => Some(Level::Masks),
        Level::Masks => Some(Level::Products),
        Level::Products => Some(Level::Operand),
        Level::Operand => None,
    }
}

/// What an operator makes of two values.
fn operated(operator: Operator, left: usize, first: u64, second: u64) -> Result<u64, Fault>
    ensures { result ≡ operated operator left first second }
{
    match operator.of(first, second) {
        Some(value) => Ok(value),
        None => Err(fault(Wrong::ByZero, left)),
    }
}

/// The part that is named behind a `%`, and the tokens behind its opening parenthesis.
fn part_behind<'t, 'a>(tokens: &'t [Placed<'a>]) -> Option<(Part, &'t [Placed<'a>])>
    ensures { option_map (λ found. (found.0, spots_of found.1.now)) result ≡ part_behind (spots_of tokens.now) }
{
    let (first, behind) = tokens.split_first()?;
    let (second, inside) = behind.split_first()?;
    match (first.token, second.token) {
        (Token::Word(name), Token::Mark(Mark::Open)) => Some((Part::named(name)?, inside)),
        _ => None,
    }
}

/// The tokens behind a closing parenthesis.
fn behind_close<'t, 'a>(tokens: &'t [Placed<'a>]) -> Option<&'t [Placed<'a>]>
    ensures { option_map (λ rest. spots_of rest.now) result ≡ behind_close (spots_of tokens.now) }
{
    let (first, behind) = tokens.split_first()?;
    match first.token {
        Token::Mark(Mark::Close) => Some(behind),
        _ => None,
    }
}

/// The value of a word: `.`, a number, or a symbol.
fn value_of_word(scope: &Scope<'_, '_>, word: &[u8], left: usize) -> Result<u64, Fault>
    ensures { result ≡ value_of_word (context_of scope.now) word.now left }
{
    if word == b".".as_slice() {
        return Ok(scope.here);
    }
    match word_term(word) {
        Some(Term::Number(n)) => Ok(n),
        Some(Term::Name(name)) => name_value(scope, name, left),
        None => Err(fault(Wrong::BadNumber, left)),
    }
}

/// The value of a symbol.
fn name_value(scope: &Scope<'_, '_>, name: &[u8], left: usize) -> Result<u64, Fault>
    ensures { result ≡ name_value (context_of scope.now) name.now left }
{
    match symbol_value(scope, name) {
        Some(value) => Ok(value),
        None => Err(fault(Wrong::UnknownSymbol, left)),
    }
}
