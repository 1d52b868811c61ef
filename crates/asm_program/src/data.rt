//! The data of a program, and the clock's ticks.
ghost use Rattle.std.specs.Prelude.{◌≡◌, ◌<◌, IfErr, OnOk};
ghost use Rattle.asm_expressions.specs.Symbols.{context_of};
ghost use Rattle.asm_program.specs.Data.{low_of, number_of, listed_numbers, listed_ticks};
ghost use Rattle.asm_program.specs.Inside.Passes.{StopsAt, with_before};
ghost use Rattle.asm_tokens.specs.Readings.{spots_of};

use crate::forms::fault;
use crate::stop::Stop;
use asm_expressions::{Fault, Scope, Wrong, value_of};
use asm_instructions::first_operand;
use asm_tokens::Placed;

/// A number in memory, its lowest byte first.
#[derive(Clone, Copy, PartialEq, Eq)]
pub struct Datum {
    /// The address of its lowest byte.
    pub at: u64,
    /// The number of its bytes; 0 for a number of the board.
    pub size: u64,
    /// The number, below 2^(8 size).
    pub value: u64,
}

/// Adds numbers with commas between them, one behind the other.
#[tactic(auto, using(crate::proofs::More::numbers_more, crate::proofs::More::before_one, crate::proofs::More::before_none, crate::proofs::More::spots_length))]
pub(crate) fn add_numbers(
    numbers: &mut Vec<Datum>,
    scope: &Scope<'_, '_>,
    size: u64,
    left: usize,
    operands: &[Placed<'_>],
) -> Result<(), Stop>
    ensures added { OnOk result (with_before numbers.old.items (listed_numbers (context_of scope.now) size left (spots_of operands.now)) ≡ Ok numbers.new.items) }
    ensures fault { IfErr result (StopsAt (with_before numbers.old.items (listed_numbers (context_of scope.now) size left (spots_of operands.now)))) }
{
    let (_, mut rest) = operands.split_at(0);
    let mut at = scope.here;
    let mut most = operands.len();
    'numbers: while most > 0 {
        let (front, behind) = first_operand(rest);
        let value = number_of(scope, size, left, front)?;
        numbers.push(Datum { at, size, value })?;
        let Some(behind) = behind else {
            return Ok(());
        };
        rest = behind;
        at = at.wrapping_add(size);
        most -= 1;
    }
    Ok(())
}

/// Adds ticks of the clock with commas between them.
#[tactic(auto, using(crate::proofs::More::ticks_more, crate::proofs::More::before_one, crate::proofs::More::before_none, crate::proofs::More::spots_length))]
pub(crate) fn add_ticks(
    ticks: &mut Vec<u64>,
    scope: &Scope<'_, '_>,
    operands: &[Placed<'_>],
) -> Result<(), Stop>
    ensures added { OnOk result (with_before ticks.old.items (listed_ticks (context_of scope.now) (spots_of operands.now)) ≡ Ok ticks.new.items) }
    ensures fault { IfErr result (StopsAt (with_before ticks.old.items (listed_ticks (context_of scope.now) (spots_of operands.now)))) }
{
    let (_, mut rest) = operands.split_at(0);
    let mut most = operands.len();
    'ticks: while most > 0 {
        let (front, behind) = first_operand(rest);
        let value = value_of(scope, front)?;
        ticks.push(value)?;
        let Some(behind) = behind else {
            return Ok(());
        };
        rest = behind;
        most -= 1;
    }
    Ok(())
}

/// A number of so many bytes: a value, or a negative one by its two's complement.
fn number_of(
    scope: &Scope<'_, '_>,
    size: u64,
    left: usize,
    tokens: &[Placed<'_>],
) -> Result<u64, Fault>
    ensures { result ≡ number_of (context_of scope.now) size left (spots_of tokens.now) }
{
    let value = value_of(scope, tokens)?;
    match size {
        1 => low_of(value, 0x100, left),
        2 => low_of(value, 0x1_0000, left),
        4 => low_of(value, 0x1_0000_0000, left),
        _ => Ok(value),
    }
}

/// The low bytes of a value below a limit, or of one that is not lower than minus half of it.
fn low_of(value: u64, limit: u64, left: usize) -> Result<u64, Fault>
    requires { 0 < limit }
    ensures { result ≡ low_of value limit left }
{
    if value < limit || value.wrapping_add(limit / 2) < limit / 2 {
        Ok(value % limit)
    } else {
        Err(fault(Wrong::OutOfRange, left))
    }
}
