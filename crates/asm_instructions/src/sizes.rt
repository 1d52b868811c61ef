//! How many instructions the assembler writes for one of the text.
ghost use Rattle.asm_tokens.specs.Readings.{spots_of};
ghost use Rattle.std.specs.Prelude.{◌≡◌};
ghost use Rattle.asm_expressions.specs.Symbols.{context_of};
ghost use Rattle.asm_instructions.specs.Sizes.{count_of, li_size, near_or_far};

use crate::operands::{base, first_operand};
use crate::ranges::li_count;
use asm_expressions::{Fault, Scope, Wrong, value_of};
use asm_mnemonics::OperandForm;
use asm_tokens::Placed;

/// How many instructions the assembler writes for a form and its operands. Only `li` asks for a value.
///
/// # Errors
///
/// The first fault of the value that `li` loads.
pub fn count_of(
    scope: &Scope<'_, '_>,
    form: OperandForm,
    tokens: &[Placed<'_>],
) -> Result<u64, Fault>
    ensures { result ≡ count_of (context_of scope.now) form (spots_of tokens.now) }
{
    match form {
        OperandForm::LoadImmediate => li_size(scope, tokens),
        OperandForm::LoadAddress | OperandForm::Call | OperandForm::Tail => Ok(2),
        OperandForm::Extended(_, _) => Ok(2),
        OperandForm::Load(_) => Ok(near_or_far(tokens)),
        OperandForm::StoreDouble => Ok(near_or_far(tokens)),
        OperandForm::StoreNarrow(_) => Ok(near_or_far(tokens)),
        _ => Ok(1),
    }
}

/// How many instructions `li` takes for its value, the second operand.
fn li_size(scope: &Scope<'_, '_>, tokens: &[Placed<'_>]) -> Result<u64, Fault>
    ensures { result ≡ li_size (context_of scope.now) (spots_of tokens.now) }
{
    match first_operand(tokens).1 {
        Some(second) => {
            let value = value_of(scope, second)?;
            Ok(u64::from(li_count(value)))
        }
        None => Err(Fault {
            wrong: Wrong::NoValue,
            left: scope.end,
        }),
    }
}

/// One instruction for an access at an offset from a register, and two for one at a symbol.
fn near_or_far(tokens: &[Placed<'_>]) -> u64
    ensures { result ≡ near_or_far (spots_of tokens.now) }
{
    match base(tokens) {
        Some(_) => 1,
        None => 2,
    }
}
