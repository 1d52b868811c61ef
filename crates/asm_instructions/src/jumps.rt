//! Rules of branches and jumps.
ghost use Rattle.std.specs.Prelude.{◌≡◌};
ghost use Rattle.asm_instructions.specs.Jumps.{branch, branch_rule, branch_zero_rule, call_rule, far_jump, goto_rule, jal_rule, jalr, jalr_place, jalr_rule, jr_rule, jump, offset_and_base, return_rule, tail_rule};

use crate::made::Made;
use crate::operands::{Operand, Operands};
use crate::ranges::{far_base, far_low, is_far, is_within_reach, short};
use crate::shapes::{memory, one_value, register, register_value, value};
use asm_expressions::Wrong;
use rv64_alu::Comparison;
use rv64_instructions::{Instruction, Register};

/// `rs1, rs2, target`: a branch; or with its registers turned.
pub(crate) fn branch_registers(
    when: Comparison,
    is_turned: bool,
    here: u64,
    operands: &Operands,
) -> Result<Made, Wrong>
    ensures { result ≡ branch_rule when is_turned here operands.now }
{
    let Operands::Three(first, second, third) = operands else {
        return Err(Wrong::BadOperands);
    };
    let first = register(first).ok_or(Wrong::BadOperands)?;
    let second = register(second).ok_or(Wrong::BadOperands)?;
    let to = value(third).ok_or(Wrong::BadOperands)?;
    if is_turned {
        branch(when, second, first, here, to)
    } else {
        branch(when, first, second, here, to)
    }
}

/// `rs, target`: a branch that compares a register with 0, or 0 with it.
pub(crate) fn branch_zero(
    when: Comparison,
    is_turned: bool,
    here: u64,
    operands: &Operands,
) -> Result<Made, Wrong>
    ensures { result ≡ branch_zero_rule when is_turned here operands.now }
{
    let (rs, to) = register_value(operands).ok_or(Wrong::BadOperands)?;
    if is_turned {
        branch(when, Register::zero(), rs, here, to)
    } else {
        branch(when, rs, Register::zero(), here, to)
    }
}

/// A branch, whose target is less than 4 KiB away.
fn branch(when: Comparison, rs1: Register, rs2: Register, here: u64, to: u64) -> Result<Made, Wrong>
    ensures { result ≡ branch when rs1 rs2 here to }
{
    if !is_within_reach(0x1000, here, to) {
        return Err(Wrong::OutOfReach);
    }
    Ok(Made::One(Instruction::Branch { when, rs1, rs2, to }))
}

/// `rd, target`, or `target`: JAL.
pub(crate) fn jump_link(here: u64, operands: &Operands) -> Result<Made, Wrong>
    ensures { result ≡ jal_rule here operands.now }
{
    match one_value(operands) {
        Some(to) => jump(Register::ra(), here, to),
        None => {
            let (rd, to) = register_value(operands).ok_or(Wrong::BadOperands)?;
            jump(rd, here, to)
        }
    }
}

/// `target`: JAL without a link.
pub(crate) fn goto(here: u64, operands: &Operands) -> Result<Made, Wrong>
    ensures { result ≡ goto_rule here operands.now }
{
    let to = one_value(operands).ok_or(Wrong::BadOperands)?;
    jump(Register::zero(), here, to)
}

/// JAL, whose target is less than 1 MiB away.
fn jump(rd: Register, here: u64, to: u64) -> Result<Made, Wrong>
    ensures { result ≡ jump rd here to }
{
    if !is_within_reach(0x10_0000, here, to) {
        return Err(Wrong::OutOfReach);
    }
    Ok(Made::One(Instruction::Jump { rd, to }))
}

/// `rd, offset(rs1)`, `rd, rs1, offset`, `rd, rs1`, `offset(rs1)` or `rs1`: JALR, which links to ra if there is no rd.
pub(crate) fn jump_register_link(operands: &Operands) -> Result<Made, Wrong>
    ensures { result ≡ jalr_rule operands.now }
{
    let (rd, offset, rs1) = jalr_place(operands).ok_or(Wrong::BadOperands)?;
    jalr(rd, offset, rs1)
}

/// The link, the offset and the base of JALR.
fn jalr_place(operands: &Operands) -> Option<(Register, u64, Register)>
    ensures { result ≡ jalr_place operands.now }
{
    match operands {
        Operands::Nothing => None,
        Operands::One(first) => {
            let (offset, rs1) = place(first)?;
            Some((Register::ra(), offset, rs1))
        }
        Operands::Two(first, second) => {
            let rd = register(first)?;
            let (offset, rs1) = place(second)?;
            Some((rd, offset, rs1))
        }
        Operands::Three(first, second, third) => {
            let rd = register(first)?;
            let rs1 = register(second)?;
            let offset = value(third)?;
            Some((rd, offset, rs1))
        }
    }
}

/// `rs`, or `offset(rs)`: JALR without a link.
pub(crate) fn jump_register(operands: &Operands) -> Result<Made, Wrong>
    ensures { result ≡ jr_rule operands.now }
{
    let Operands::One(first) = operands else {
        return Err(Wrong::BadOperands);
    };
    let (offset, rs1) = place(first).ok_or(Wrong::BadOperands)?;
    jalr(Register::zero(), offset, rs1)
}

/// The offset and the base that an operand is; a register alone has the offset 0.
fn place(operand: &Operand) -> Option<(u64, Register)>
    ensures { result ≡ offset_and_base operand.now }
{
    match register(operand) {
        Some(rs1) => Some((0, rs1)),
        None => memory(operand),
    }
}

/// JALR.
fn jalr(rd: Register, offset: u64, rs1: Register) -> Result<Made, Wrong>
    ensures { result ≡ jalr rd offset rs1 }
{
    let offset = short(offset).ok_or(Wrong::OutOfRange)?;
    Ok(Made::One(Instruction::JumpRegister { rd, rs1, offset }))
}

/// RET: JALR to ra, without a link.
pub(crate) fn ret(operands: &Operands) -> Result<Made, Wrong>
    ensures { result ≡ return_rule operands.now }
{
    match operands {
        Operands::Nothing => Ok(Made::One(Instruction::JumpRegister {
            rd: Register::zero(),
            rs1: Register::ra(),
            offset: 0,
        })),
        _ => Err(Wrong::BadOperands),
    }
}

/// `symbol`, or `rd, symbol`: AUIPC and JALR. It goes by ra if it links there, and by t1 if it links to another register.
pub(crate) fn call(here: u64, operands: &Operands) -> Result<Made, Wrong>
    ensures { result ≡ call_rule here operands.now }
{
    match one_value(operands) {
        Some(to) => far_jump(Register::ra(), Register::ra(), here, to),
        None => {
            let (rd, to) = register_value(operands).ok_or(Wrong::BadOperands)?;
            far_jump(rd, Register::t1(), here, to)
        }
    }
}

/// `symbol`: AUIPC and JALR by t1, without a link.
pub(crate) fn tail(here: u64, operands: &Operands) -> Result<Made, Wrong>
    ensures { result ≡ tail_rule here operands.now }
{
    let to = one_value(operands).ok_or(Wrong::BadOperands)?;
    far_jump(Register::zero(), Register::t1(), here, to)
}

/// AUIPC and JALR: a jump to any symbol by a register.
fn far_jump(rd: Register, by: Register, here: u64, to: u64) -> Result<Made, Wrong>
    ensures { result ≡ far_jump rd by here to }
{
    if is_far(here, to) {
        return Err(Wrong::OutOfReach);
    }
    let first = Instruction::Value {
        rd: by,
        value: far_base(here, to),
    };
    let second = Instruction::JumpRegister {
        rd,
        rs1: by,
        offset: far_low(here, to),
    };
    Ok(Made::Pair(first, second))
}
