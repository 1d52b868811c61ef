//! Shifts, quotients and remainders of 8 bytes.
ghost use Rattle.std.specs.Prelude.{◌≡◌};
ghost use Rattle.std.specs.Int.{w64};
ghost use Rattle.rv64_alu.specs.Functions.{divided, divided_signed, left_over, left_over_signed, shifted_right_signed};

/// The first, shifted right by the low 6 bits of the second; copies of its sign come in.
pub(crate) fn shifted_right_signed(a: u64, b: u64) -> u64
    ensures { result ≡ shifted_right_signed w64 a b }
{
    a.cast_signed()
        .wrapping_shr((b % 64) as u32)
        .cast_unsigned()
}

/// The quotient of unsigned numbers; by 0 all ones.
pub(crate) fn divided(a: u64, b: u64) -> u64
    ensures { result ≡ divided w64 a b }
{
    if b == 0 { u64::MAX } else { a / b }
}

/// The remainder of unsigned numbers; by 0 the first.
pub(crate) fn left_over(a: u64, b: u64) -> u64
    ensures { result ≡ left_over w64 a b }
{
    if b == 0 { a } else { a % b }
}

/// The quotient of signed numbers; by 0 all ones.
pub(crate) fn divided_signed(a: u64, b: u64) -> u64
    ensures { result ≡ divided_signed w64 a b }
{
    if b == 0 {
        return u64::MAX;
    }
    let quotient = a.cast_signed().wrapping_div(b.cast_signed());
    quotient.cast_unsigned()
}

/// The remainder of signed numbers; by 0 the first.
pub(crate) fn left_over_signed(a: u64, b: u64) -> u64
    ensures { result ≡ left_over_signed w64 a b }
{
    if b == 0 {
        return a;
    }
    let remainder = a.cast_signed().wrapping_rem(b.cast_signed());
    remainder.cast_unsigned()
}
