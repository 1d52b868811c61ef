//! Operands of instructions, as their tokens say.
ghost use Rattle.asm_tokens.specs.Readings.{spots_of};
ghost use Rattle.std.specs.Prelude.{◌≡◌, ◌≤◌, option_map, length};
ghost use Rattle.asm_expressions.specs.Symbols.{context_of};
ghost use Rattle.asm_instructions.specs.Operands.{base_behind, base_in, before_comma, behind_comma, expression, operand_front, more_operands, offset_of, operand_in, operands_in, word_operand, only_word};

use crate::csrs::csr_named;
use crate::taken::{Takes, taken_offset, taken_value};
use asm_expressions::{Fault, Scope};
use asm_tokens::{Mark, Placed, Token, register_number};
use rv64_instructions::Csr;

/// A CSR by its name.
#[derive(Clone, Copy, PartialEq, Eq)]
pub enum CsrName {
    /// One whose copy guests keep.
    Kept(Csr),
    /// sip, which the board keeps alone.
    Sip,
}

/// An operand of an instruction.
#[derive(Clone, Copy)]
pub enum Operand {
    /// A register, by its number.
    Register(u8),
    /// The value of an expression.
    Value(u64),
    /// `offset(register)`, or `(register)`.
    Memory(u64, u8),
    /// A CSR, where the instruction takes one.
    Csr(CsrName),
}

/// The operands of an instruction.
#[derive(Clone, Copy)]
pub enum Operands {
    /// None.
    Nothing,
    /// One.
    One(Operand),
    /// Two.
    Two(Operand, Operand),
    /// Three.
    Three(Operand, Operand, Operand),
}

/// The operands that a statement's tokens behind the mnemonic are; there are commas between them.
pub(crate) fn read_operands(
    scope: &Scope<'_, '_>,
    takes: Takes,
    tokens: &[Placed<'_>],
) -> Result<Operands, Fault>
    ensures { result ≡ operands_in (context_of scope.now) takes (spots_of tokens.now) }
{
    if tokens.is_empty() {
        return Ok(Operands::Nothing);
    }
    let (front, behind) = first_operand(tokens);
    let first = read_operand(scope, takes, front)?;
    match behind {
        Some(rest) => more_operands(scope, takes, first, rest),
        None => Ok(Operands::One(first)),
    }
}

/// The first operand, and those behind its comma.
fn more_operands(
    scope: &Scope<'_, '_>,
    takes: Takes,
    first: Operand,
    tokens: &[Placed<'_>],
) -> Result<Operands, Fault>
    ensures { result ≡ more_operands (context_of scope.now) takes first (spots_of tokens.now) }
{
    let (front, behind) = first_operand(tokens);
    let second = read_operand(scope, takes, front)?;
    let Some(rest) = behind else {
        return Ok(Operands::Two(first, second));
    };
    let third = read_operand(scope, takes, rest)?;
    Ok(Operands::Three(first, second, third))
}

/// The operand that tokens are.
fn read_operand(
    scope: &Scope<'_, '_>,
    takes: Takes,
    tokens: &[Placed<'_>],
) -> Result<Operand, Fault>
    ensures { result ≡ operand_in (context_of scope.now) takes (spots_of tokens.now) }
{
    if let Some(named) = word_operand(takes, tokens) {
        return Ok(named);
    }
    match base(tokens) {
        Some((front, register)) => {
            let offset = offset_of(scope, takes, front)?;
            Ok(Operand::Memory(offset, register))
        }
        None => expression(scope, takes, tokens),
    }
}

/// The operand that one word is: a register, or a CSR where the instruction takes one.
fn word_operand(takes: Takes, tokens: &[Placed<'_>]) -> Option<Operand>
    ensures { result ≡ word_operand takes (spots_of tokens.now) }
{
    let word = only_word(tokens)?;
    match register_number(word) {
        Some(register) => Some(Operand::Register(register)),
        None if matches!(takes, Takes::Csrs) => Some(Operand::Csr(csr_named(word)?)),
        None => None,
    }
}

/// The one word that tokens are.
fn only_word<'a>(tokens: &[Placed<'a>]) -> Option<&'a [u8]>
    ensures { option_map (λ word. word.now) result ≡ only_word (spots_of tokens.now) }
{
    match tokens {
        [only] => match only.token {
            Token::Word(word) => Some(word),
            _ => None,
        },
        _ => None,
    }
}

/// The value of an expression, as an operand.
fn expression(scope: &Scope<'_, '_>, takes: Takes, tokens: &[Placed<'_>]) -> Result<Operand, Fault>
    ensures { result ≡ expression (context_of scope.now) takes (spots_of tokens.now) }
{
    let value = taken_value(scope, takes, tokens)?;
    Ok(Operand::Value(value))
}

/// The offset before a base: no tokens are 0.
fn offset_of(scope: &Scope<'_, '_>, takes: Takes, tokens: &[Placed<'_>]) -> Result<u64, Fault>
    ensures { result ≡ offset_of (context_of scope.now) takes (spots_of tokens.now) }
{
    if tokens.is_empty() {
        return Ok(0);
    }
    taken_offset(scope, takes, tokens)
}

/// The base that tokens end with, a register in parentheses, and the tokens before it.
#[tactic(auto, using(crate::proofs::Spots::spots_length, crate::proofs::Spots::spots_front, crate::proofs::Spots::spots_behind))]
pub(crate) fn base<'t, 'a>(tokens: &'t [Placed<'a>]) -> Option<(&'t [Placed<'a>], u8)>
    ensures { option_map (λ found. (spots_of found.0.now, found.1)) result ≡ base_in (spots_of tokens.now) }
{
    let (front, back) = tokens.split_at(tokens.len().saturating_sub(3));
    Some((front, base_behind(back)?))
}

/// The register that these tokens are in parentheses.
#[tactic(auto, using(crate::proofs::Spots::spots_length, crate::proofs::Spots::base_longer, crate::proofs::Spots::base_shorter))]
fn base_behind(tokens: &[Placed<'_>]) -> Option<u8>
    ensures { result ≡ base_behind (spots_of tokens.now) }
{
    match tokens {
        [open, name, close] => match (open.token, name.token, close.token) {
            (Token::Mark(Mark::Open), Token::Word(word), Token::Mark(Mark::Close)) => {
                register_number(word)
            }
            _ => None,
        },
        _ => None,
    }
}

/// The tokens of the first operand, and those behind its comma, if there is one.
#[tactic(auto, using(std::proofs::lemmas::List::take_rest, crate::proofs::Spots::spots_length, crate::proofs::Spots::spots_front, crate::proofs::Spots::spots_behind))]
pub fn first_operand<'t, 'a>(
    tokens: &'t [Placed<'a>],
) -> (&'t [Placed<'a>], Option<&'t [Placed<'a>]>)
    ensures front { spots_of result.0.now ≡ operand_front (spots_of tokens.now) }
    ensures behind { option_map (λ behind. spots_of behind.now) result.1 ≡ behind_comma (spots_of tokens.now) }
{
    let n = before_comma(tokens);
    if n < tokens.len() {
        (&tokens[..n], Some(&tokens[n + 1..]))
    } else {
        (tokens, None)
    }
}

/// The number of tokens before the first comma.
fn before_comma(tokens: &[Placed<'_>]) -> usize
    ensures before { result ≡ before_comma (spots_of tokens.now) }
    ensures within { result ≤ length tokens.now }
{
    for (i, placed) in tokens.iter().enumerate() {
        if matches!(placed.token, Token::Mark(Mark::Comma)) {
            return i;
        }
    }
    tokens.len()
}
