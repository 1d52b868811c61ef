//! What the operands of a form can be beside registers, expressions, and offsets with their bases.
ghost use Rattle.asm_expressions.specs.Symbols.{context_of};
ghost use Rattle.asm_tokens.specs.Readings.{spots_of};
ghost use Rattle.std.specs.Prelude.{◌≡◌};
ghost use Rattle.asm_instructions.specs.Taken.{is_plt, taken_offset, taken_value, takes_of, without_plt};

use crate::pcrel::{high_value, low_value};
use asm_expressions::{Fault, Scope, value_of};
use asm_mnemonics::OperandForm;
use asm_tokens::{Mark, Placed, Token};

/// What an operand can be beside a register, an expression, and an offset with its base.
#[derive(Clone, Copy, PartialEq, Eq)]
pub(crate) enum Takes {
    /// Nothing else.
    Values,
    /// A CSR.
    Csrs,
    /// `symbol@plt`.
    Plt,
    /// `%pcrel_hi(..)`.
    HighParts,
    /// `%pcrel_lo(..)`, also as an offset.
    LowParts,
    /// `%pcrel_lo(..)` as an offset.
    LowOffsets,
}

/// What an operand of this form can be.
pub(crate) fn takes_of(form: OperandForm) -> Takes
    ensures { result ≡ takes_of form }
{
    match form {
        OperandForm::Csr(_) | OperandForm::CsrImmediate(_) => Takes::Csrs,
        OperandForm::ReadCsr => Takes::Csrs,
        OperandForm::WriteCsr(_) | OperandForm::WriteCsrImmediate(_) => Takes::Csrs,
        OperandForm::Jal | OperandForm::Goto => Takes::Plt,
        OperandForm::Call | OperandForm::Tail => Takes::Plt,
        OperandForm::Auipc => Takes::HighParts,
        OperandForm::Immediate(_) | OperandForm::Jalr => Takes::LowParts,
        OperandForm::JumpRegister | OperandForm::Load(_) => Takes::LowOffsets,
        OperandForm::StoreDouble | OperandForm::StoreNarrow(_) => Takes::LowOffsets,
        OperandForm::Fetch => Takes::LowOffsets,
        _ => Takes::Values,
    }
}

/// The value of an operand that is no register and has no base.
pub(crate) fn taken_value(
    scope: &Scope<'_, '_>,
    takes: Takes,
    tokens: &[Placed<'_>],
) -> Result<u64, Fault>
    ensures { result ≡ taken_value (context_of scope.now) takes (spots_of tokens.now) }
{
    match takes {
        Takes::Plt => value_of(scope, without_plt(tokens)),
        Takes::HighParts => high_value(scope, tokens),
        Takes::LowParts => low_value(scope, tokens),
        _ => value_of(scope, tokens),
    }
}

/// The value of an offset before a base.
pub(crate) fn taken_offset(
    scope: &Scope<'_, '_>,
    takes: Takes,
    tokens: &[Placed<'_>],
) -> Result<u64, Fault>
    ensures { result ≡ taken_offset (context_of scope.now) takes (spots_of tokens.now) }
{
    match takes {
        Takes::LowParts | Takes::LowOffsets => low_value(scope, tokens),
        _ => value_of(scope, tokens),
    }
}

/// The tokens without `@plt` at their end.
#[tactic(auto, using(std::proofs::lemmas::List::take_rest, crate::proofs::Spots::spots_length, crate::proofs::Spots::spots_front, crate::proofs::Spots::spots_behind))]
fn without_plt<'t, 'a>(tokens: &'t [Placed<'a>]) -> &'t [Placed<'a>]
    ensures { spots_of result.now ≡ without_plt (spots_of tokens.now) }
{
    let n = tokens.len().saturating_sub(2);
    if is_plt(&tokens[n..]) {
        &tokens[..n]
    } else {
        tokens
    }
}

/// Whether tokens are `@plt`.
fn is_plt(tokens: &[Placed<'_>]) -> bool
    ensures { result ≡ is_plt (spots_of tokens.now) }
{
    match tokens {
        [first, second] => match (first.token, second.token) {
            (Token::Mark(Mark::At), Token::Word(word)) => word == b"plt".as_slice(),
            _ => false,
        },
        _ => false,
    }
}
