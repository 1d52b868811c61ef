//! Parts of distances: `%pcrel_hi(..)` and `%pcrel_lo(..)`.
ghost use Rattle.asm_expressions.specs.Symbols.{context_of};
ghost use Rattle.asm_tokens.specs.Readings.{spots_of};
ghost use Rattle.std.specs.Prelude.{◌≡◌, option_map};
ghost use Rattle.asm_instructions.specs.Distances.{high_distance, second_distance};
ghost use Rattle.asm_instructions.specs.Pcrel.{begins_open, behind_name, distance_at, high_of_symbol, high_value, low_at_label, low_value, near_distance};

use crate::operands::first_operand;
use crate::ranges::{distance, is_far};
use asm_expressions::{Fault, PcrelHigh, Scope, Wrong, high_part, left_or_end, low_part, value_of};
use asm_mnemonics::OperandForm;
use asm_tokens::{Mark, Placed, Token};

/// The immediate of AUIPC: a value, or `%pcrel_hi(SYMBOL)`, the high part of its symbol's distance.
pub(crate) fn high_value(scope: &Scope<'_, '_>, tokens: &[Placed<'_>]) -> Result<u64, Fault>
    ensures { result ≡ high_value (context_of scope.now) (spots_of tokens.now) }
{
    match behind_name(b"pcrel_hi", tokens) {
        Some(symbol) => high_of_symbol(scope, left_or_end(scope, tokens), symbol),
        None => value_of(scope, tokens),
    }
}

/// An immediate of 12 bits: a value, or `%pcrel_lo(LABEL)`, the low part of the distance of the AUIPC there.
pub(crate) fn low_value(scope: &Scope<'_, '_>, tokens: &[Placed<'_>]) -> Result<u64, Fault>
    ensures { result ≡ low_value (context_of scope.now) (spots_of tokens.now) }
{
    match behind_name(b"pcrel_lo", tokens) {
        Some(label) => low_at_label(scope, left_or_end(scope, tokens), label),
        None => value_of(scope, tokens),
    }
}

/// How far the symbol of an AUIPC with `%pcrel_hi(..)` is from it; None of any other instruction, and of an AUIPC that doesn't reach
/// its symbol.
pub fn high_distance(scope: &Scope<'_, '_>, form: OperandForm, tokens: &[Placed<'_>]) -> Option<u64>
    ensures { result ≡ high_distance (context_of scope.now) form (spots_of tokens.now) }
{
    match form {
        OperandForm::Auipc => second_distance(scope, tokens),
        _ => None,
    }
}

/// The distance of the symbol of `%pcrel_hi(..)`, the second operand.
fn second_distance(scope: &Scope<'_, '_>, tokens: &[Placed<'_>]) -> Option<u64>
    ensures { result ≡ second_distance (context_of scope.now) (spots_of tokens.now) }
{
    let second = first_operand(tokens).1?;
    let symbol = behind_name(b"pcrel_hi", second)?;
    match value_of(scope, symbol) {
        Ok(to) => near_distance(scope.here, to),
        Err(_) => None,
    }
}

/// The high part of a symbol's distance; `left` is the place of the function.
fn high_of_symbol(scope: &Scope<'_, '_>, left: usize, tokens: &[Placed<'_>]) -> Result<u64, Fault>
    ensures { result ≡ high_of_symbol (context_of scope.now) left (spots_of tokens.now) }
{
    let to = value_of(scope, tokens)?;
    match near_distance(scope.here, to) {
        Some(distance) => Ok(high_part(distance)),
        None => Err(Fault {
            wrong: Wrong::OutOfReach,
            left,
        }),
    }
}

/// How far a symbol is, if AUIPC and 12 bits more reach it.
fn near_distance(here: u64, to: u64) -> Option<u64>
    ensures { result ≡ near_distance here to }
{
    if is_far(here, to) {
        return None;
    }
    Some(distance(here, to))
}

/// The low part of the distance of the AUIPC at a label; `left` is the place of the function.
fn low_at_label(scope: &Scope<'_, '_>, left: usize, tokens: &[Placed<'_>]) -> Result<u64, Fault>
    ensures { result ≡ low_at_label (context_of scope.now) left (spots_of tokens.now) }
{
    let at = value_of(scope, tokens)?;
    match distance_at(scope.highs, at) {
        Some(distance) => Ok(low_part(distance)),
        None => Err(Fault {
            wrong: Wrong::NoHighPart,
            left,
        }),
    }
}

/// The distance of the first of these at an address.
fn distance_at(highs: &[PcrelHigh], at: u64) -> Option<u64>
    ensures { result ≡ distance_at at highs.now }
{
    for high in highs {
        if high.at == at {
            return Some(high.distance);
        }
    }
    None
}

/// The expression behind the name of this function, if tokens begin with it.
fn behind_name<'t, 'a>(name: &[u8], tokens: &'t [Placed<'a>]) -> Option<&'t [Placed<'a>]>
    ensures { option_map (λ rest. spots_of rest.now) result ≡ behind_name name.now (spots_of tokens.now) }
{
    match tokens {
        [first, second, rest @ ..] => match (first.token, second.token) {
            (Token::Mark(Mark::Percent), Token::Word(word)) if word == name && begins_open(rest) =>
                { Some(rest) }
            _ => None,
        },
        _ => None,
    }
}

/// Whether tokens begin with an opening parenthesis.
fn begins_open(tokens: &[Placed<'_>]) -> bool
    ensures { result ≡ begins_open (spots_of tokens.now) }
{
    match tokens.split_first() {
        Some((first, _)) => matches!(first.token, Token::Mark(Mark::Open)),
        None => false,
    }
}
