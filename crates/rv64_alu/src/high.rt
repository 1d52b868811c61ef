//! The high 8 bytes of products.
ghost use Rattle.std.specs.Prelude.{◌≡◌, ◌*◌, ◌*ℤ◌, ◌≤◌, ◌<◌, ◌^◌, pos, unsigned_abs};
ghost use Rattle.std.specs.Int.{cast_signed, w64};
ghost use Rattle.rv64_alu.specs.Functions.{high};

/// The high 8 bytes of the product of signed numbers.
pub(crate) fn high_of_signed(a: u64, b: u64) -> u64
    ensures { result ≡ high (cast_signed w64 a *ℤ cast_signed w64 b) }
{
    high(product(i128::from(a.cast_signed()), i128::from(b.cast_signed())))
}

/// The high 8 bytes of the product of a signed number and an unsigned one.
pub(crate) fn high_of_mixed(a: u64, b: u64) -> u64
    ensures { result ≡ high (cast_signed w64 a *ℤ pos b) }
{
    high(product(i128::from(a.cast_signed()), i128::from(b)))
}

/// The high 8 bytes of the product of unsigned numbers.
pub(crate) fn high_of_unsigned(a: u64, b: u64) -> u64
    ensures { result ≡ high (pos (a * b)) }
{
    ((u128::from(a) * u128::from(b)) >> 64) as u64
}

/// The product of a signed number of 8 bytes and one that is signed or unsigned.
fn product(a: i128, b: i128) -> i128
    requires first { unsigned_abs a ≤ 2 ^ 63 }
    requires second { unsigned_abs b < 2 ^ 64 }
    ensures { result ≡ a *ℤ b }
{
    a * b
}

/// The high 8 bytes of 16.
fn high(product: i128) -> u64
    ensures { result ≡ high product }
{
    (product.cast_unsigned() >> 64) as u64
}
