//! Rules of CSR instructions, fences, and the supervisor's instructions.
ghost use Rattle.asm_tokens.specs.Readings.{spots_of};
ghost use Rattle.std.specs.Prelude.{◌≡◌};
ghost use Rattle.std.specs.List.{list_all};
ghost use Rattle.asm_instructions.specs.Supervisor.{alone_rule, csr_made, csr_rule, fence_rule, is_access_set, is_of_fence, is_order, read_csr_rule, sfence_rule, sip_made, source, write_csr_rule};
ghost use Rattle.asm_tokens.specs.Tokens.{lexeme_of};

use crate::made::Made;
use crate::operands::{CsrName, Operand, Operands};
use crate::shapes::{csr, one_register, register, two_registers, value};
use asm_expressions::Wrong;
use asm_tokens::{Mark, Placed, Token};
use rv64_instructions::{CsrHow, CsrSource, Instruction, Register};

/// `rd, csr, rs1`, or an immediate of 5 bits in place of the register.
pub(crate) fn on_csr(how: CsrHow, takes_register: bool, operands: &Operands) -> Result<Made, Wrong>
    ensures { result ≡ csr_rule how takes_register operands.now }
{
    let Operands::Three(first, second, third) = operands else {
        return Err(Wrong::BadOperands);
    };
    let rd = register(first).ok_or(Wrong::BadOperands)?;
    let name = csr(second).ok_or(Wrong::BadOperands)?;
    let from = source(takes_register, third)?;
    csr_made(how, name, rd, from)
}

/// `rd, csr`: a read alone.
pub(crate) fn read_csr(operands: &Operands) -> Result<Made, Wrong>
    ensures { result ≡ read_csr_rule operands.now }
{
    let Operands::Two(first, second) = operands else {
        return Err(Wrong::BadOperands);
    };
    let rd = register(first).ok_or(Wrong::BadOperands)?;
    let name = csr(second).ok_or(Wrong::BadOperands)?;
    csr_made(CsrHow::Set, name, rd, CsrSource::Register(Register::zero()))
}

/// `csr, rs1`, or an immediate of 5 bits in place of the register: a write without a result.
pub(crate) fn write_csr(
    how: CsrHow,
    takes_register: bool,
    operands: &Operands,
) -> Result<Made, Wrong>
    ensures { result ≡ write_csr_rule how takes_register operands.now }
{
    let Operands::Two(first, second) = operands else {
        return Err(Wrong::BadOperands);
    };
    let name = csr(first).ok_or(Wrong::BadOperands)?;
    let from = source(takes_register, second)?;
    csr_made(how, name, Register::zero(), from)
}

/// The operand of a CSR instruction.
fn source(takes_register: bool, operand: &Operand) -> Result<CsrSource, Wrong>
    ensures { result ≡ source takes_register operand.now }
{
    if let Some(n) = value(operand) {
        if n >= 32 {
            return Err(Wrong::OutOfRange);
        }
        return Ok(CsrSource::Immediate(n as u8));
    }
    if !takes_register {
        return Err(Wrong::BadOperands);
    }
    let rs1 = register(operand).ok_or(Wrong::BadOperands)?;
    Ok(CsrSource::Register(rs1))
}

/// The instruction on a CSR. Of sip it reads, or it clears and has no result.
fn csr_made(how: CsrHow, name: CsrName, rd: Register, from: CsrSource) -> Result<Made, Wrong>
    ensures { result ≡ csr_made how name rd from }
{
    match name {
        CsrName::Kept(csr) => Ok(Made::One(Instruction::Csr { how, csr, rd, from })),
        CsrName::Sip => sip_made(how, rd, from),
    }
}

/// The instruction on sip.
fn sip_made(how: CsrHow, rd: Register, from: CsrSource) -> Result<Made, Wrong>
    ensures { result ≡ sip_made how rd from }
{
    if !how.writes(&from) {
        return Ok(Made::One(Instruction::ReadSip { rd }));
    }
    match how {
        CsrHow::Clear if rd.number() == 0 => Ok(Made::One(Instruction::ClearSip { from })),
        _ => Err(Wrong::SipWrite),
    }
}

/// `rs1, rs2`, `rs1`, or nothing: SFENCE.VMA.
pub(crate) fn sfence(operands: &Operands) -> Result<Made, Wrong>
    ensures { result ≡ sfence_rule operands.now }
{
    match operands {
        Operands::Nothing => Ok(Made::One(Instruction::SfenceVma {
            rs1: Register::zero(),
            rs2: Register::zero(),
        })),
        Operands::One(_) => {
            let rs1 = one_register(operands).ok_or(Wrong::BadOperands)?;
            Ok(Made::One(Instruction::SfenceVma {
                rs1,
                rs2: Register::zero(),
            }))
        }
        _ => {
            let (rs1, rs2) = two_registers(operands).ok_or(Wrong::BadOperands)?;
            Ok(Made::One(Instruction::SfenceVma { rs1, rs2 }))
        }
    }
}

/// No operands.
pub(crate) fn alone(instruction: Instruction, operands: &Operands) -> Result<Made, Wrong>
    ensures { result ≡ alone_rule instruction operands.now }
{
    match operands {
        Operands::Nothing => Ok(Made::One(instruction)),
        _ => Err(Wrong::BadOperands),
    }
}

/// Two sets of `iorw`, or nothing: FENCE.
pub(crate) fn fence(tokens: &[Placed<'_>]) -> Result<Made, Wrong>
    ensures { result ≡ fence_rule (spots_of tokens.now) }
{
    if is_of_fence(tokens) {
        Ok(Made::One(Instruction::Fence))
    } else {
        Err(Wrong::BadOperands)
    }
}

/// Whether tokens are two sets of accesses, or nothing.
fn is_of_fence(tokens: &[Placed<'_>]) -> bool
    ensures { result ≡ is_of_fence (spots_of tokens.now) }
{
    match tokens {
        [] => true,
        [first, comma, second] => {
            is_access_set(first.token)
                && matches!(comma.token, Token::Mark(Mark::Comma))
                && is_access_set(second.token)
        }
        _ => false,
    }
}

/// Whether a token is a set of accesses: letters of `iorw`.
fn is_access_set(token: Token<'_>) -> bool
    ensures { result ≡ is_access_set (lexeme_of token.entry) }
{
    match token {
        Token::Word(word) => are_orders(word),
        _ => false,
    }
}

/// Whether each letter names a kind of accesses.
fn are_orders(word: &[u8]) -> bool
    ensures { result ≡ list_all is_order word.now }
{
    for letter in word {
        if !is_order(*letter) {
            return false;
        }
    }
    true
}

/// Whether a letter names a kind of accesses: input, output, reads or writes.
fn is_order(letter: u8) -> bool
    ensures { result ≡ is_order letter }
{
    matches!(letter, b'i' | b'o' | b'r' | b'w')
}
