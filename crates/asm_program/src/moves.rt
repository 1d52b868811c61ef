//! How far directives and instructions reach.
ghost use Rattle.std.specs.Prelude.{◌≡◌, ◌≤◌, length};
ghost use Rattle.asm_expressions.specs.Symbols.{context_of};
ghost use Rattle.asm_tokens.specs.Readings.{spots_of};
ghost use Rattle.asm_program.specs.Moves.{behind_directive, behind_instruction, behind_org, commas, moved_by, how_many_numbers, aligned_to, up_to_power};

use crate::directives::Directive;
use crate::forms::fault;
use crate::strings::string_size;
use asm_expressions::{Fault, Scope, Wrong, value_of};
use asm_instructions::count_of;
use asm_mnemonics::OperandForm;
use asm_tokens::{Mark, Placed, Token};

/// The address behind an instruction; each has 4 bytes.
pub(crate) fn behind_instruction(
    scope: &Scope<'_, '_>,
    form: OperandForm,
    left: usize,
    operands: &[Placed<'_>],
) -> Result<u64, Fault>
    ensures { result ≡ behind_instruction (context_of scope.now) form left (spots_of operands.now) }
{
    let count = count_of(scope, form, operands)?;
    moved_by(scope.here, 4, count, left)
}

/// The address behind a directive that moves on.
pub(crate) fn behind_directive(
    scope: &Scope<'_, '_>,
    directive: Directive,
    left: usize,
    operands: &[Placed<'_>],
) -> Result<u64, Fault>
    ensures { result ≡ behind_directive (context_of scope.now) directive left (spots_of operands.now) }
{
    match directive {
        Directive::Data(size) => { moved_by(scope.here, size, how_many_numbers(operands), left) }
        Directive::Ascii(is_ended) => {
            let size = string_size(is_ended, left, operands)?;
            moved_by(scope.here, 1, size, left)
        }
        Directive::Space => {
            let size = value_of(scope, operands)?;
            moved_by(scope.here, 1, size, left)
        }
        Directive::Align => {
            let bits = value_of(scope, operands)?;
            up_to_power(scope.here, left, bits)
        }
        Directive::Balign => {
            let size = value_of(scope, operands)?;
            aligned_to(scope.here, size, left)
        }
        _ => Ok(scope.here),
    }
}

/// `.org ADDRESS`, which doesn't go back; `before` is the address behind the one before.
pub(crate) fn behind_org(
    scope: &Scope<'_, '_>,
    before: u64,
    left: usize,
    operands: &[Placed<'_>],
) -> Result<u64, Fault>
    ensures { result ≡ behind_org (context_of scope.now) before left (spots_of operands.now) }
{
    let to = value_of(scope, operands)?;
    if to < before {
        return Err(fault(Wrong::Backwards, left));
    }
    Ok(to)
}

/// The address behind so many pieces of this size.
pub(crate) fn moved_by(here: u64, size: u64, count: u64, left: usize) -> Result<u64, Fault>
    ensures { result ≡ moved_by here size count left }
{
    match size.checked_mul(count) {
        Some(bytes) => match here.checked_add(bytes) {
            Some(next) => Ok(next),
            None => Err(fault(Wrong::Backwards, left)),
        },
        None => Err(fault(Wrong::Backwards, left)),
    }
}

/// The next multiple; of 0 the address itself.
pub(crate) fn aligned_to(here: u64, size: u64, left: usize) -> Result<u64, Fault>
    ensures { result ≡ aligned_to here size left }
{
    if size == 0 || here % size == 0 {
        return Ok(here);
    }
    moved_by(here, 1, size - here % size, left)
}

/// The next multiple of a power of 2.
fn up_to_power(here: u64, left: usize, bits: u64) -> Result<u64, Fault>
    ensures { result ≡ up_to_power here left bits }
{
    if bits >= 64 {
        return Err(fault(Wrong::OutOfRange, left));
    }
    aligned_to(here, 1 << bits, left)
}

/// How many numbers there are: one more than commas, or none.
fn how_many_numbers(operands: &[Placed<'_>]) -> u64
    ensures { result ≡ how_many_numbers (spots_of operands.now) }
{
    if operands.is_empty() {
        return 0;
    }
    commas(operands) + 1
}

/// How many commas there are.
fn commas(operands: &[Placed<'_>]) -> u64
    ensures commas { result ≡ commas (spots_of operands.now) }
    ensures few { result ≤ length operands.now }
{
    let mut count = 0;
    for placed in operands {
        if matches!(placed.token, Token::Mark(Mark::Comma)) {
            count += 1;
        }
    }
    count
}
