//! Rules of instructions that compute.
ghost use Rattle.std.specs.Prelude.{◌≡◌, ◌≤◌};
ghost use Rattle.asm_instructions.specs.Compute.{auipc_rule, extended_rule, fixed_immediate_rule, from_zero_rule, immediate_rule, la_rule, li_rule, lui_rule, nop_rule, registers_rule, shift_bits, shift_rule, turned_registers_rule, with_zero_rule};

use crate::made::Made;
use crate::operands::Operands;
use crate::ranges::{far_base, far_low, is_far, li_count, short};
use crate::shapes::{register_value, registers_value, three_registers, two_registers};
use asm_expressions::Wrong;
use rv64_alu::{AluOp, auipc, lui};
use rv64_instructions::{Instruction, Register};

/// `rd, rs1, rs2`
pub(crate) fn registers(op: AluOp, operands: &Operands) -> Result<Made, Wrong>
    ensures { result ≡ registers_rule op operands.now }
{
    let (rd, rs1, rs2) = three_registers(operands).ok_or(Wrong::BadOperands)?;
    Ok(Made::One(Instruction::Compute { op, rd, rs1, rs2 }))
}

/// `rd, rs1, rs2`, of which the second is the first operand
pub(crate) fn turned_registers(op: AluOp, operands: &Operands) -> Result<Made, Wrong>
    ensures { result ≡ turned_registers_rule op operands.now }
{
    let (rd, rs1, rs2) = three_registers(operands).ok_or(Wrong::BadOperands)?;
    Ok(Made::One(Instruction::Compute {
        op,
        rd,
        rs1: rs2,
        rs2: rs1,
    }))
}

/// `rd, rs1, imm`
pub(crate) fn immediate(op: AluOp, operands: &Operands) -> Result<Made, Wrong>
    ensures { result ≡ immediate_rule op operands.now }
{
    let (rd, rs1, value) = registers_value(operands).ok_or(Wrong::BadOperands)?;
    let immediate = short(value).ok_or(Wrong::OutOfRange)?;
    Ok(Made::One(Instruction::ComputeImmediate {
        op,
        rd,
        rs1,
        immediate,
    }))
}

/// `rd, rs1, shamt`
pub(crate) fn shift(op: AluOp, operands: &Operands) -> Result<Made, Wrong>
    ensures { result ≡ shift_rule op operands.now }
{
    let (rd, rs1, value) = registers_value(operands).ok_or(Wrong::BadOperands)?;
    if value >= shift_bits(op) {
        return Err(Wrong::OutOfRange);
    }
    Ok(Made::One(Instruction::ComputeImmediate {
        op,
        rd,
        rs1,
        immediate: value as i32,
    }))
}

/// The number of bits that a shift can shift.
fn shift_bits(op: AluOp) -> u64
    ensures bits { result ≡ shift_bits op }
    ensures few { result ≤ 64 }
{
    match op {
        AluOp::Word(_) => 32,
        _ => 64,
    }
}

/// `rd, imm`: LUI.
pub(crate) fn upper(operands: &Operands) -> Result<Made, Wrong>
    ensures { result ≡ lui_rule operands.now }
{
    let (rd, value) = register_value(operands).ok_or(Wrong::BadOperands)?;
    if value >= 0x10_0000 {
        return Err(Wrong::OutOfRange);
    }
    Ok(Made::One(Instruction::Value {
        rd,
        value: lui(value as u32),
    }))
}

/// `rd, imm`: AUIPC.
pub(crate) fn upper_here(here: u64, operands: &Operands) -> Result<Made, Wrong>
    ensures { result ≡ auipc_rule here operands.now }
{
    let (rd, value) = register_value(operands).ok_or(Wrong::BadOperands)?;
    if value >= 0x10_0000 {
        return Err(Wrong::OutOfRange);
    }
    Ok(Made::One(Instruction::Value {
        rd,
        value: auipc(here, value as u32),
    }))
}

/// `rd, symbol`: AUIPC and ADDI.
pub(crate) fn load_address(here: u64, operands: &Operands) -> Result<Made, Wrong>
    ensures { result ≡ la_rule here operands.now }
{
    let (rd, to) = register_value(operands).ok_or(Wrong::BadOperands)?;
    if is_far(here, to) {
        return Err(Wrong::OutOfReach);
    }
    let first = Instruction::Value {
        rd,
        value: far_base(here, to),
    };
    let second = Instruction::ComputeImmediate {
        op: AluOp::Add,
        rd,
        rs1: rd,
        immediate: far_low(here, to),
    };
    Ok(Made::Pair(first, second))
}

/// `rd, imm`: any value.
pub(crate) fn load_immediate(operands: &Operands) -> Result<Made, Wrong>
    ensures { result ≡ li_rule operands.now }
{
    let (rd, value) = register_value(operands).ok_or(Wrong::BadOperands)?;
    Ok(Made::Times(li_count(value), Instruction::Value { rd, value }))
}

/// NOP: ADDI of x0 and 0 to x0.
pub(crate) fn nop(operands: &Operands) -> Result<Made, Wrong>
    ensures { result ≡ nop_rule operands.now }
{
    match operands {
        Operands::Nothing => Ok(Made::One(Instruction::ComputeImmediate {
            op: AluOp::Add,
            rd: Register::zero(),
            rs1: Register::zero(),
            immediate: 0,
        })),
        _ => Err(Wrong::BadOperands),
    }
}

/// `rd, rs`: an operation on a register and an immediate that the mnemonic says.
pub(crate) fn fixed_immediate(op: AluOp, immediate: i32, operands: &Operands) -> Result<Made, Wrong>
    ensures { result ≡ fixed_immediate_rule op immediate operands.now }
{
    let (rd, rs1) = two_registers(operands).ok_or(Wrong::BadOperands)?;
    Ok(Made::One(Instruction::ComputeImmediate {
        op,
        rd,
        rs1,
        immediate,
    }))
}

/// `rd, rs`: an operation on x0 and a register.
pub(crate) fn from_zero(op: AluOp, operands: &Operands) -> Result<Made, Wrong>
    ensures { result ≡ from_zero_rule op operands.now }
{
    let (rd, rs2) = two_registers(operands).ok_or(Wrong::BadOperands)?;
    Ok(Made::One(Instruction::Compute {
        op,
        rd,
        rs1: Register::zero(),
        rs2,
    }))
}

/// `rd, rs`: an operation on a register and x0.
pub(crate) fn with_zero(op: AluOp, operands: &Operands) -> Result<Made, Wrong>
    ensures { result ≡ with_zero_rule op operands.now }
{
    let (rd, rs1) = two_registers(operands).ok_or(Wrong::BadOperands)?;
    Ok(Made::One(Instruction::Compute {
        op,
        rd,
        rs1,
        rs2: Register::zero(),
    }))
}

/// `rd, rs`: a shift to the left, and one back.
pub(crate) fn extended(op: AluOp, bits: i32, operands: &Operands) -> Result<Made, Wrong>
    ensures { result ≡ extended_rule op bits operands.now }
{
    let (rd, rs1) = two_registers(operands).ok_or(Wrong::BadOperands)?;
    let first = Instruction::ComputeImmediate {
        op: AluOp::Sll,
        rd,
        rs1,
        immediate: bits,
    };
    let second = Instruction::ComputeImmediate {
        op,
        rd,
        rs1: rd,
        immediate: bits,
    };
    Ok(Made::Pair(first, second))
}
