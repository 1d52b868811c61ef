//! The hexadecimal digits of a number, sixteen at once.
ghost use Rattle.std.specs.Prelude.{◌≡◌, ◌+◌, ◌≤◌, ◌<◌, ◌++◌, false, length, map, take};
ghost use Rattle.std.specs.Fmt.{digit_glyph, digits};
ghost use Rattle.std.specs.Simd.Lanes.{Each1};
ghost use Rattle.printed_lines.specs.Inside.HexDigits.{last_digits};

use std::simd::prelude::*;

/// Writes the hexadecimal digits of `n` from `start` on, and returns their end. It writes sixteen bytes, so no branch depends on
/// how many digits there are.
#[inline(always)]
pub fn write_hex(n: u64, bytes: &mut [u8], start: usize) -> usize
    requires { start + 16 ≤ length bytes.old }
    ensures end { result ≡ start + length (digits 16 false n) }
    ensures bound { result ≤ start + 16 }
    ensures text { take result bytes.new ≡ take start bytes.old ++ digits 16 false n }
    ensures len { length bytes.new ≡ length bytes.old }
{
    let places = hex_places(n);
    let text = glyphs(sixteen_digits(n << (64 - 4 * places)));
    text.copy_to_slice(&mut bytes[start..]);
    start + places
}

/// The number of hexadecimal digits of `n`.
#[inline(always)]
pub fn hex_places(n: u64) -> usize
    ensures places { result ≡ length (digits 16 false n) }
    ensures least { 1 ≤ result }
    ensures bound { result ≤ 16 }
{
    if n == 0 {
        return 1;
    }
    (n.ilog2() / 4 + 1) as usize
}

/// The sixteen hexadecimal digits of `n`, with zeros in front, as values.
#[inline(always)]
fn sixteen_digits(n: u64) -> u8x16
    ensures values { result ≡ last_digits 16 n }
    ensures bound { Each1 (λ digit. digit < 16) result }
{
    let pairs = u8x8::from_array(n.to_be_bytes());
    let high = pairs >> 4;
    let low = pairs & u8x8::splat(15);
    high.shuffle(low, [0, 8, 1, 9, 2, 10, 3, 11, 4, 12, 5, 13, 6, 14, 7, 15])
}

/// The bytes of hexadecimal digits, in lower case.
#[inline(always)]
fn glyphs(digits: u8x16) -> u8x16
    requires { Each1 (λ digit. digit < 16) digits }
    ensures { result ≡ map (digit_glyph false) digits }
{
    let more = digits
        .simd_ge(u8x16::splat(10))
        .select(u8x16::splat(b'a' - b'9' - 1), u8x16::splat(0));
    digits + u8x16::splat(b'0') + more
}
