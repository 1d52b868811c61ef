//! Shapes of operands.
ghost use Rattle.std.specs.Prelude.{◌≡◌};
ghost use Rattle.asm_instructions.specs.Shapes.{csr_of, memory_of, one_register, one_value, register_at, register_memory, register_of, register_value, register_value_register, registers_memory, registers_value, three_registers, two_registers, plain_value};

use crate::operands::{CsrName, Operand, Operands};
use rv64_instructions::Register;

/// The register that an operand is.
pub(crate) fn register(operand: &Operand) -> Option<Register>
    ensures { result ≡ register_of operand.now }
{
    match operand {
        Operand::Register(number) => register_at(*number),
        _ => None,
    }
}

/// The register of this number.
fn register_at(number: u8) -> Option<Register>
    ensures { result ≡ register_at number }
{
    Register::new(number)
}

/// The value that an operand is.
pub(crate) fn value(operand: &Operand) -> Option<u64>
    ensures { result ≡ plain_value operand.now }
{
    match operand {
        Operand::Value(value) => Some(*value),
        _ => None,
    }
}

/// The offset and the base that an operand is.
pub(crate) fn memory(operand: &Operand) -> Option<(u64, Register)>
    ensures { result ≡ memory_of operand.now }
{
    match operand {
        Operand::Memory(offset, number) => Some((*offset, register_at(*number)?)),
        _ => None,
    }
}

/// The CSR that an operand is.
pub(crate) fn csr(operand: &Operand) -> Option<CsrName>
    ensures { result ≡ csr_of operand.now }
{
    match operand {
        Operand::Csr(name) => Some(*name),
        _ => None,
    }
}

/// `rd, rs1, rs2`
pub(crate) fn three_registers(operands: &Operands) -> Option<(Register, Register, Register)>
    ensures { result ≡ three_registers operands.now }
{
    match operands {
        Operands::Three(first, second, third) => {
            Some((register(first)?, register(second)?, register(third)?))
        }
        _ => None,
    }
}

/// `rd, rs`
pub(crate) fn two_registers(operands: &Operands) -> Option<(Register, Register)>
    ensures { result ≡ two_registers operands.now }
{
    match operands {
        Operands::Two(first, second) => Some((register(first)?, register(second)?)),
        _ => None,
    }
}

/// `rs`
pub(crate) fn one_register(operands: &Operands) -> Option<Register>
    ensures { result ≡ one_register operands.now }
{
    match operands {
        Operands::One(first) => register(first),
        _ => None,
    }
}

/// `target`
pub(crate) fn one_value(operands: &Operands) -> Option<u64>
    ensures { result ≡ one_value operands.now }
{
    match operands {
        Operands::One(first) => value(first),
        _ => None,
    }
}

/// `rd, rs1, imm`
pub(crate) fn registers_value(operands: &Operands) -> Option<(Register, Register, u64)>
    ensures { result ≡ registers_value operands.now }
{
    match operands {
        Operands::Three(first, second, third) => {
            Some((register(first)?, register(second)?, value(third)?))
        }
        _ => None,
    }
}

/// `rd, imm`
pub(crate) fn register_value(operands: &Operands) -> Option<(Register, u64)>
    ensures { result ≡ register_value operands.now }
{
    match operands {
        Operands::Two(first, second) => Some((register(first)?, value(second)?)),
        _ => None,
    }
}

/// `rs2, symbol, rt`
pub(crate) fn register_value_register(operands: &Operands) -> Option<(Register, u64, Register)>
    ensures { result ≡ register_value_register operands.now }
{
    match operands {
        Operands::Three(first, second, third) => {
            Some((register(first)?, value(second)?, register(third)?))
        }
        _ => None,
    }
}

/// `rd, offset(rs1)`
pub(crate) fn register_memory(operands: &Operands) -> Option<(Register, u64, Register)>
    ensures { result ≡ register_memory operands.now }
{
    match operands {
        Operands::Two(first, second) => {
            let first = register(first)?;
            let (offset, base) = memory(second)?;
            Some((first, offset, base))
        }
        _ => None,
    }
}

/// `rd, rs2, (rs1)`
pub(crate) fn registers_memory(operands: &Operands) -> Option<(Register, Register, u64, Register)>
    ensures { result ≡ registers_memory operands.now }
{
    match operands {
        Operands::Three(first, second, third) => {
            let first = register(first)?;
            let second = register(second)?;
            let (offset, base) = memory(third)?;
            Some((first, second, offset, base))
        }
        _ => None,
    }
}
