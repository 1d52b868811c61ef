//! Whether an order's end is as an expression says.
ghost use Rattle.std.specs.Prelude.{◌≡◌, ◌<◌, IfOk, option_map};
ghost use Rattle.asm_expressions.specs.Symbols.{context_of};
ghost use Rattle.asm_tokens.specs.Readings.{spots_of, token_spot};
ghost use Rattle.end_conditions.specs.Truths.{behind_closing, behind_colon, behind_equals, enclosed_truth, claim, compared, holds_at_end, tighter_level, named_register, number_as, number_or_symbol, truth_found, register_as, register_claim, single, truth_at, wanted_number, whole_truth, with_connectives, word_claim};

use crate::connectives::{Level, next_connective};
use crate::finals::FinalState;
use asm_expressions::{Fault, Scope, Wrong, left_or_end, value_of};
use asm_tokens::{Mark, Placed, Token, register_number};
use std::slice;

/// Whether a claim holds, and the tokens behind it.
#[derive(Clone, Copy)]
struct Found<'t, 'a> {
    holds: bool,
    rest: &'t [Placed<'a>],
}

/// A number, and the tokens behind it.
#[derive(Clone, Copy)]
struct NumberFound<'t, 'a> {
    number: u64,
    rest: &'t [Placed<'a>],
}

/// The number of a register, and the tokens behind it.
#[derive(Clone, Copy)]
struct RegisterFound<'t, 'a> {
    number: u8,
    rest: &'t [Placed<'a>],
}

/// How many levels, denials and parentheses may stand within one another; a pair of parentheses takes three.
const DEEPEST: u32 = 256;

/// Whether an order's end is as the expression says that all of these tokens are.
///
/// # Errors
///
/// The expression's first fault.
pub fn holds_at_end<F: FinalState>(
    end: &F,
    scope: &Scope<'_, '_>,
    tokens: &[Placed<'_>],
) -> Result<bool, Fault>
    ensures { result ≡ holds_at_end (F.finals end.now) (context_of scope.now) (spots_of tokens.now) }
{
    whole_truth(truth_at(end, scope, DEEPEST, Level::Either, tokens))
}

/// Whether a claim holds, if nothing stands behind it.
fn whole_truth(found: Result<Found<'_, '_>, Fault>) -> Result<bool, Fault>
    ensures { result ≡ whole_truth (truth_found found.entry) }
{
    let found = found?;
    match found.rest.split_first() {
        None => Ok(found.holds),
        Some((first, _)) => Err(fault(Wrong::Behind, first.left)),
    }
}

/// Whether the expression of this level that tokens begin with holds.
#[cycle(truths)]
#[tactic(auto, using(crate::proofs::Depth::truth_deeper))]
fn truth_at<'t, 'a, F: FinalState>(
    end: &F,
    scope: &Scope<'_, '_>,
    depth: u32,
    level: Level,
    tokens: &'t [Placed<'a>],
) -> Result<Found<'t, 'a>, Fault>
    ensures { truth_found result ≡ truth_at (context_of scope.now) (F.finals end.now) depth level (spots_of tokens.now) }
{
    if depth == 0 {
        return Err(fault(Wrong::TooDeep, left_or_end(scope, tokens)));
    }
    match tighter_level(level) {
        Some(inner) => with_connectives(end, scope, depth - 1, level, inner, tokens),
        None => single(end, scope, depth - 1, tokens),
    }
}

/// Operands of the inner level, with connectives of this one between them, from left to right.
#[cycle(truths)]
#[tactic(auto, using(crate::proofs::Depth::connections_more, crate::proofs::Depth::spots_length))]
fn with_connectives<'t, 'a, F: FinalState>(
    end: &F,
    scope: &Scope<'_, '_>,
    depth: u32,
    level: Level,
    inner: Level,
    tokens: &'t [Placed<'a>],
) -> Result<Found<'t, 'a>, Fault>
    ensures { truth_found result ≡ with_connectives (truth_at (context_of scope.now) (F.finals end.now) depth inner) level (spots_of tokens.now) }
{
    let mut found = truth_at(end, scope, depth, inner, tokens)?;
    let mut left = tokens.len();
    'connectives: while left > 0 {
        let Some((connective, rest)) = next_connective(level, found.rest) else {
            return Ok(found);
        };
        let second = truth_at(end, scope, depth, inner, rest)?;
        found = Found {
            holds: connective.of(found.holds, second.holds),
            rest: second.rest,
        };
        left -= 1;
    }
    Ok(found)
}

/// A claim, `not` or `~` and what it denies, or an expression in parentheses.
#[cycle(truths)]
fn single<'t, 'a, F: FinalState>(
    end: &F,
    scope: &Scope<'_, '_>,
    depth: u32,
    tokens: &'t [Placed<'a>],
) -> Result<Found<'t, 'a>, Fault>
    ensures { truth_found result ≡ single (context_of scope.now) (F.finals end.now) (truth_at (context_of scope.now) (F.finals end.now) depth) (spots_of tokens.now) }
{
    let Some((first, behind)) = tokens.split_first() else {
        return Err(fault(Wrong::NoValue, scope.end));
    };
    match first.token {
        Token::Word(word) if word != b"not".as_slice() => claim(end, scope, first, behind),
        Token::Word(_) | Token::Mark(Mark::Tilde) => {
            let found = truth_at(end, scope, depth, Level::Single, behind)?;
            Ok(Found {
                holds: !found.holds,
                rest: found.rest,
            })
        }
        Token::Mark(Mark::Open) => enclosed_truth(end, scope, depth, behind),
        _ => Err(fault(Wrong::NoValue, first.left)),
    }
}

/// An expression whose opening parenthesis stands before the tokens.
#[cycle(truths)]
fn enclosed_truth<'t, 'a, F: FinalState>(
    end: &F,
    scope: &Scope<'_, '_>,
    depth: u32,
    tokens: &'t [Placed<'a>],
) -> Result<Found<'t, 'a>, Fault>
    ensures { truth_found result ≡ enclosed_truth (context_of scope.now) (truth_at (context_of scope.now) (F.finals end.now) depth) (spots_of tokens.now) }
{
    let found = truth_at(end, scope, depth, Level::Either, tokens)?;
    match behind_closing(found.rest) {
        Some(rest) => Ok(Found {
            holds: found.holds,
            rest,
        }),
        None => Err(fault(Wrong::OpenParenthesis, left_or_end(scope, found.rest))),
    }
}

/// A claim whose first token is this one: `HART:REGISTER=VALUE`, or `ADDRESS=VALUE`.
fn claim<'t, 'a, F: FinalState>(
    end: &F,
    scope: &Scope<'_, '_>,
    first: &Placed<'a>,
    behind: &'t [Placed<'a>],
) -> Result<Found<'t, 'a>, Fault>
    ensures { truth_found result ≡ claim (context_of scope.now) (F.finals end.now) (token_spot first.now) (spots_of behind.now) }
{
    let place = value_of(scope, slice::from_ref(first))?;
    match behind_colon(behind) {
        Some(rest) => register_claim(end, scope, first.left, place, rest),
        None => word_claim(end, scope, first.left, place, behind),
    }
}

/// What a register of a hart's guest is to hold.
fn register_claim<'t, 'a, F: FinalState>(
    end: &F,
    scope: &Scope<'_, '_>,
    left: usize,
    hart: u64,
    tokens: &'t [Placed<'a>],
) -> Result<Found<'t, 'a>, Fault>
    ensures { truth_found result ≡ register_claim (context_of scope.now) (F.finals end.now) left hart (spots_of tokens.now) }
{
    let register = named_register(scope, tokens)?;
    let wanted = wanted_number(scope, register.rest)?;
    compared(left, end.register(hart, register.number), wanted)
}

/// What a word of the memory is to hold.
fn word_claim<'t, 'a, F: FinalState>(
    end: &F,
    scope: &Scope<'_, '_>,
    left: usize,
    address: u64,
    tokens: &'t [Placed<'a>],
) -> Result<Found<'t, 'a>, Fault>
    ensures { truth_found result ≡ word_claim (context_of scope.now) (F.finals end.now) left address (spots_of tokens.now) }
{
    let wanted = wanted_number(scope, tokens)?;
    compared(left, end.word(address), wanted)
}

/// Whether what is held is what is wanted. What nothing holds is a fault.
fn compared<'t, 'a>(
    left: usize,
    held: Option<u64>,
    wanted: NumberFound<'t, 'a>,
) -> Result<Found<'t, 'a>, Fault>
    ensures { truth_found result ≡ compared left held (record { number = wanted.entry.number; rest = spots_of wanted.entry.rest.now }) }
{
    match held {
        Some(held) => Ok(Found {
            holds: held == wanted.number,
            rest: wanted.rest,
        }),
        None => Err(fault(Wrong::OutOfRange, left)),
    }
}

/// The number of a register, and the tokens behind it.
fn named_register<'t, 'a>(
    scope: &Scope<'_, '_>,
    tokens: &'t [Placed<'a>],
) -> Result<RegisterFound<'t, 'a>, Fault>
    ensures number { register_as result ≡ named_register (context_of scope.now) (spots_of tokens.now) }
    ensures within { IfOk result (λ found. found.number < 32) }
{
    let Some((first, behind)) = tokens.split_first() else {
        return Err(fault(Wrong::NoValue, scope.end));
    };
    let Token::Word(name) = first.token else {
        return Err(fault(Wrong::NoValue, first.left));
    };
    match register_number(name) {
        Some(number) => Ok(RegisterFound {
            number,
            rest: behind,
        }),
        None => Err(fault(Wrong::UnknownSymbol, first.left)),
    }
}

/// The value behind a `=`.
fn wanted_number<'t, 'a>(
    scope: &Scope<'_, '_>,
    tokens: &'t [Placed<'a>],
) -> Result<NumberFound<'t, 'a>, Fault>
    ensures { number_as result ≡ wanted_number (context_of scope.now) (spots_of tokens.now) }
{
    match behind_equals(tokens) {
        Some(rest) => number_or_symbol(scope, rest),
        None => Err(fault(Wrong::BadOperands, left_or_end(scope, tokens))),
    }
}

/// A number or a symbol.
fn number_or_symbol<'t, 'a>(
    scope: &Scope<'_, '_>,
    tokens: &'t [Placed<'a>],
) -> Result<NumberFound<'t, 'a>, Fault>
    ensures { number_as result ≡ number_or_symbol (context_of scope.now) (spots_of tokens.now) }
{
    let Some((first, rest)) = tokens.split_first() else {
        return Err(fault(Wrong::NoValue, scope.end));
    };
    let number = value_of(scope, slice::from_ref(first))?;
    Ok(NumberFound { number, rest })
}

/// A fault.
fn fault(wrong: Wrong, left: usize) -> Fault
    ensures { result ≡ record { wrong = wrong; left = left } }
{
    Fault { wrong, left }
}

/// The level within a level; what stands between connectives has none.
fn tighter_level(level: Level) -> Option<Level>
    ensures { result ≡ tighter_level level }
{
    match level {
        Level::Either => Some(Level::Both),
        Level::Both => Some(Level::Single),
        Level::Single => None,
    }
}

/// The tokens behind a `:`.
fn behind_colon<'t, 'a>(tokens: &'t [Placed<'a>]) -> Option<&'t [Placed<'a>]>
    ensures { option_map (λ rest. spots_of rest.now) result ≡ behind_colon (spots_of tokens.now) }
{
    let (first, behind) = tokens.split_first()?;
    match first.token {
        Token::Mark(Mark::Colon) => Some(behind),
        _ => None,
    }
}

/// The tokens behind a `=`.
fn behind_equals<'t, 'a>(tokens: &'t [Placed<'a>]) -> Option<&'t [Placed<'a>]>
    ensures { option_map (λ rest. spots_of rest.now) result ≡ behind_equals (spots_of tokens.now) }
{
    let (first, behind) = tokens.split_first()?;
    match first.token {
        Token::Mark(Mark::Equals) => Some(behind),
        _ => None,
    }
}

/// The tokens behind a `)`.
fn behind_closing<'t, 'a>(tokens: &'t [Placed<'a>]) -> Option<&'t [Placed<'a>]>
    ensures { option_map (λ rest. spots_of rest.now) result ≡ behind_closing (spots_of tokens.now) }
{
    let (first, behind) = tokens.split_first()?;
    match first.token {
        Token::Mark(Mark::Close) => Some(behind),
        _ => None,
    }
}
