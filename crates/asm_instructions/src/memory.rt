//! Rules of instructions that access memory.
ghost use Rattle.std.specs.Prelude.{◌≡◌};
ghost use Rattle.asm_instructions.specs.Memory.{amo_rule, far_load, far_store, fetch_rule, load_rule, near_load, near_store, store_of, store_rule};

use crate::made::Made;
use crate::operands::Operands;
use crate::ranges::{far_base, far_low, is_far, short};
use crate::shapes::{register_memory, register_value, register_value_register, registers_memory};
use amo::AmoName;
use asm_expressions::Wrong;
use rv64_alu::LoadKind;
use rv64_instructions::{Instruction, Register};

/// A store of 8 bytes, or of fewer.
#[derive(Clone, Copy, PartialEq, Eq)]
pub(crate) enum StoreSize {
    /// SD.
    Double,
    /// SB, SH and SW.
    Narrow(AmoName),
}

/// `rd, offset(rs1)`, or `rd, symbol`: a load.
pub(crate) fn load(kind: LoadKind, here: u64, operands: &Operands) -> Result<Made, Wrong>
    ensures { result ≡ load_rule kind here operands.now }
{
    match register_memory(operands) {
        Some((rd, offset, rs1)) => near_load(kind, rd, offset, rs1),
        None => far_load(kind, here, operands),
    }
}

/// A load at an offset from a register.
fn near_load(kind: LoadKind, rd: Register, offset: u64, rs1: Register) -> Result<Made, Wrong>
    ensures { result ≡ near_load kind rd offset rs1 }
{
    let offset = short(offset).ok_or(Wrong::OutOfRange)?;
    Ok(Made::One(Instruction::Load {
        kind,
        rd,
        rs1,
        offset,
    }))
}

/// A load at a symbol: AUIPC, and the load.
fn far_load(kind: LoadKind, here: u64, operands: &Operands) -> Result<Made, Wrong>
    ensures { result ≡ far_load kind here operands.now }
{
    let (rd, to) = register_value(operands).ok_or(Wrong::BadOperands)?;
    if is_far(here, to) {
        return Err(Wrong::OutOfReach);
    }
    let first = Instruction::Value {
        rd,
        value: far_base(here, to),
    };
    let second = Instruction::Load {
        kind,
        rd,
        rs1: rd,
        offset: far_low(here, to),
    };
    Ok(Made::Pair(first, second))
}

/// `rs2, offset(rs1)`, or `rs2, symbol, rt`: a store.
pub(crate) fn store(size: StoreSize, here: u64, operands: &Operands) -> Result<Made, Wrong>
    ensures { result ≡ store_rule size here operands.now }
{
    match register_memory(operands) {
        Some((rs2, offset, rs1)) => near_store(size, rs2, offset, rs1),
        None => far_store(size, here, operands),
    }
}

/// A store at an offset from a register.
fn near_store(size: StoreSize, rs2: Register, offset: u64, rs1: Register) -> Result<Made, Wrong>
    ensures { result ≡ near_store size rs2 offset rs1 }
{
    let offset = short(offset).ok_or(Wrong::OutOfRange)?;
    Ok(Made::One(store_of(size, rs2, rs1, offset)))
}

/// A store at a symbol: AUIPC to a register of its own, and the store.
fn far_store(size: StoreSize, here: u64, operands: &Operands) -> Result<Made, Wrong>
    ensures { result ≡ far_store size here operands.now }
{
    let (rs2, to, rt) = register_value_register(operands).ok_or(Wrong::BadOperands)?;
    if is_far(here, to) {
        return Err(Wrong::OutOfReach);
    }
    let first = Instruction::Value {
        rd: rt,
        value: far_base(here, to),
    };
    let second = store_of(size, rs2, rt, far_low(here, to));
    Ok(Made::Pair(first, second))
}

/// The instruction of a store.
fn store_of(size: StoreSize, rs2: Register, rs1: Register, offset: i32) -> Instruction
    ensures { result ≡ store_of size rs2 rs1 offset }
{
    match size {
        StoreSize::Double => Instruction::StoreDouble { rs2, rs1, offset },
        StoreSize::Narrow(name) => Instruction::Amo {
            name,
            rd: Register::zero(),
            rs2,
            rs1,
            offset,
        },
    }
}

/// `rd, rs2, (rs1)`: an AMO.
pub(crate) fn atomic(name: AmoName, operands: &Operands) -> Result<Made, Wrong>
    ensures { result ≡ amo_rule name operands.now }
{
    let (rd, rs2, offset, rs1) = registers_memory(operands).ok_or(Wrong::BadOperands)?;
    if offset != 0 {
        return Err(Wrong::BadOperands);
    }
    Ok(Made::One(Instruction::Amo {
        name,
        rd,
        rs2,
        rs1,
        offset: 0,
    }))
}

/// `rd, offset(rs1)`: a fetch as a value.
pub(crate) fn fetch(operands: &Operands) -> Result<Made, Wrong>
    ensures { result ≡ fetch_rule operands.now }
{
    let (rd, offset, rs1) = register_memory(operands).ok_or(Wrong::BadOperands)?;
    let offset = short(offset).ok_or(Wrong::OutOfRange)?;
    Ok(Made::One(Instruction::Fetch { rd, rs1, offset }))
}
