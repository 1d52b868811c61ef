//! Operations on registers of 8 bytes.
ghost use Rattle.std.specs.Prelude.{◌≡◌};
ghost use Rattle.rv64_alu.specs.Table.{computed};

use crate::double::{divided, divided_signed, left_over, left_over_signed, shifted_right_signed};
use crate::high::{high_of_mixed, high_of_signed, high_of_unsigned};
use crate::word::{WordOp, extended, low_word};

/// An operation on two registers, or on a register and an immediate; both forms have one name, without `i` (unprivileged ISA
/// 2.4, 5.2, 7.1, 7.2).
#[derive(Clone, Copy, PartialEq, Eq)]
pub enum AluOp {
    /// ADD and ADDI: the sum.
    Add,
    /// SUB: the first minus the second.
    Sub,
    /// SLL and SLLI: the first, shifted left by the low 6 bits of the second.
    Sll,
    /// SLT and SLTI: 1 if the first is below the second as a signed number, else 0.
    Slt,
    /// SLTU and SLTIU: 1 if the first is below the second as an unsigned number, else 0.
    Sltu,
    /// XOR and XORI: the bitwise exclusive OR.
    Xor,
    /// SRL and SRLI: the first, shifted right by the low 6 bits of the second; zeros come in.
    Srl,
    /// SRA and SRAI: the first, shifted right by the low 6 bits of the second; copies of its sign come in.
    Sra,
    /// OR and ORI: the bitwise OR.
    Or,
    /// AND and ANDI: the bitwise AND.
    And,
    /// MUL: the low 8 bytes of the product.
    Mul,
    /// MULH: the high 8 bytes of the product of signed numbers.
    Mulh,
    /// MULHSU: the high 8 bytes of the product of the first, a signed number, and the second, an unsigned one.
    Mulhsu,
    /// MULHU: the high 8 bytes of the product of unsigned numbers.
    Mulhu,
    /// DIV: the quotient of signed numbers, rounded towards zero.
    Div,
    /// DIVU: the quotient of unsigned numbers.
    Divu,
    /// REM: the remainder of DIV; it has the sign of the first.
    Rem,
    /// REMU: the remainder of DIVU.
    Remu,
    /// An operation whose name ends in `w`: it takes the low 4 bytes of its operands, and sign-extends its result.
    Word(WordOp),
}

impl AluOp {
    /// What it makes of its operands.
    pub fn of(self, a: u64, b: u64) -> u64
        ensures { result ≡ computed self a b }
    {
        match self {
            AluOp::Add => a.wrapping_add(b),
            AluOp::Sub => a.wrapping_sub(b),
            AluOp::Sll => a << (b % 64),
            AluOp::Slt => u64::from(a.cast_signed() < b.cast_signed()),
            AluOp::Sltu => u64::from(a < b),
            AluOp::Xor => a ^ b,
            AluOp::Srl => a >> (b % 64),
            AluOp::Sra => shifted_right_signed(a, b),
            AluOp::Or => a | b,
            AluOp::And => a & b,
            AluOp::Mul => a.wrapping_mul(b),
            AluOp::Mulh => high_of_signed(a, b),
            AluOp::Mulhsu => high_of_mixed(a, b),
            AluOp::Mulhu => high_of_unsigned(a, b),
            AluOp::Div => divided_signed(a, b),
            AluOp::Divu => divided(a, b),
            AluOp::Rem => left_over_signed(a, b),
            AluOp::Remu => left_over(a, b),
            AluOp::Word(op) => extended(op.of(low_word(a), low_word(b))),
        }
    }
}
