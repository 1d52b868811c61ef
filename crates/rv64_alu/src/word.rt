//! Operations on the low 4 bytes of registers.
ghost use Rattle.std.specs.Prelude.{◌≡◌, ◌%◌, ◌^◌};
ghost use Rattle.std.specs.Int.{cast_signed, int_shr, w32};
ghost use Rattle.rv64_alu.specs.Functions.{divided, divided_signed, left_over, left_over_signed, shifted_right_signed};
ghost use Rattle.rv64_alu.specs.Table.{computed_word};
ghost use Rattle.rv64_alu.specs.Words.{extended, low_word};

/// An operation on the low 4 bytes of two registers, by its name without `w` (unprivileged ISA 5.2, 7.1, 7.2).
#[derive(Clone, Copy, PartialEq, Eq)]
pub enum WordOp {
    /// ADDW and ADDIW: the sum.
    Add,
    /// SUBW: the first minus the second.
    Sub,
    /// SLLW and SLLIW: the first, shifted left by the low 5 bits of the second.
    Sll,
    /// SRLW and SRLIW: the first, shifted right by the low 5 bits of the second; zeros come in.
    Srl,
    /// SRAW and SRAIW: the first, shifted right by the low 5 bits of the second; copies of its sign come in.
    Sra,
    /// MULW: the low 4 bytes of the product.
    Mul,
    /// DIVW: the quotient of signed numbers, rounded towards zero.
    Div,
    /// DIVUW: the quotient of unsigned numbers.
    Divu,
    /// REMW: the remainder of DIVW; it has the sign of the first.
    Rem,
    /// REMUW: the remainder of DIVUW.
    Remu,
}

impl WordOp {
    /// What it makes of 4 bytes of each operand, before the sign-extension.
    pub(crate) fn of(self, a: u32, b: u32) -> u32
        ensures { result ≡ computed_word self a b }
    {
        match self {
            WordOp::Add => a.wrapping_add(b),
            WordOp::Sub => a.wrapping_sub(b),
            WordOp::Sll => a << (b % 32),
            WordOp::Srl => a >> (b % 32),
            WordOp::Sra => shifted_right_signed(a, b),
            WordOp::Mul => a.wrapping_mul(b),
            WordOp::Div => divided_signed(a, b),
            WordOp::Divu => divided(a, b),
            WordOp::Rem => left_over_signed(a, b),
            WordOp::Remu => left_over(a, b),
        }
    }
}

/// The low 4 bytes of a register.
pub(crate) fn low_word(a: u64) -> u32
    ensures { result ≡ low_word a }
{
    (a % (1 << 32)) as u32
}

/// The sign-extension of 4 bytes to 8.
pub(crate) fn extended(n: u32) -> u64
    ensures { result ≡ extended n }
{
    i64::from(n.cast_signed()).cast_unsigned()
}

/// The first, shifted right by the low 5 bits of the second; copies of its sign come in.
fn shifted_right_signed(a: u32, b: u32) -> u32
    ensures { result ≡ shifted_right_signed w32 a b }
{
    a.cast_signed().wrapping_shr(b).cast_unsigned()
}

/// The quotient of unsigned numbers; by 0 all ones.
fn divided(a: u32, b: u32) -> u32
    ensures { result ≡ divided w32 a b }
{
    if b == 0 { u32::MAX } else { a / b }
}

/// The remainder of unsigned numbers; by 0 the first.
fn left_over(a: u32, b: u32) -> u32
    ensures { result ≡ left_over w32 a b }
{
    if b == 0 { a } else { a % b }
}

/// The quotient of signed numbers; by 0 all ones.
fn divided_signed(a: u32, b: u32) -> u32
    ensures { result ≡ divided_signed w32 a b }
{
    if b == 0 {
        return u32::MAX;
    }
    let quotient = a.cast_signed().wrapping_div(b.cast_signed());
    quotient.cast_unsigned()
}

/// The remainder of signed numbers; by 0 the first.
fn left_over_signed(a: u32, b: u32) -> u32
    ensures { result ≡ left_over_signed w32 a b }
{
    if b == 0 {
        return a;
    }
    let remainder = a.cast_signed().wrapping_rem(b.cast_signed());
    remainder.cast_unsigned()
}
