//! The digits of a number in the form in which steps are printed.
ghost use Rattle.std.specs.Prelude.{◌≡◌, ◌<◌, ◌≤◌, ◌^◌, IfSome, length, map, not};
ghost use Rattle.std.specs.List.{prefix_len};
ghost use Rattle.std.specs.Simd.Lanes.{Each1, mask_l};
ghost use Rattle.guest_script.specs.Inside.HexDigits.{is_other, nibble, number_after};
ghost use Rattle.guest_script.specs.Inside.PlainLines.{BeginsDigits};

use line_words::push_digit;
use std::simd::prelude::*;

/// The number that the digits spell which the bytes begin with. Bytes that end with a digit have none.
#[inline(always)]
pub fn plain_digits(bytes: &[u8], radix: u32) -> Option<(u64, &[u8])>
    requires low { 2 ≤ radix }
    requires high { radix ≤ 36 }
    ensures number { IfSome result (λ found. BeginsDigits radix bytes.now found.0 found.1.now) }
    ensures small { IfSome result (λ found. found.0 < 2 ^ 64) }
    ensures shorter { IfSome result (λ found. length found.1.now ≤ length bytes.now) }
{
    let mut n = 0;
    for (i, byte) in bytes.iter().enumerate() {
        match push_digit(n, *byte, radix) {
            Some(more) => n = more,
            None if i == 0 => return None,
            None => return Some((n, &bytes[i..])),
        }
    }
    None
}

/// The same in radix 16, by digits in lower case. Of a number with three digits or more sixteen bytes are read at once, so no
/// branch depends on how many digits there are. Of more than sixteen digits it reads the first sixteen.
#[inline(always)]
pub fn plain_hex(bytes: &[u8]) -> Option<(u64, &[u8])>
    ensures number { IfSome result (λ found. BeginsDigits 16 bytes.now found.0 found.1.now) }
    ensures small { IfSome result (λ found. found.0 < 2 ^ 64) }
    ensures shorter { IfSome result (λ found. length found.1.now ≤ length bytes.now) }
{
    if bytes.len() < 16 || bytes[1] <= b' ' || bytes[2] <= b' ' {
        return plain_digits(bytes, 16);
    }
    let text = u8x16::from_slice(bytes);
    let count = digit_count(text);
    if count == 0 {
        return None;
    }
    let n = number(nibbles(text)) >> (64 - 4 * count);
    Some((n, &bytes[count as usize..]))
}

/// The number of hexadecimal digits in lower case that the bytes begin with.
#[inline(always)]
fn digit_count(text: u8x16) -> u32
    ensures count { result ≡ prefix_len (λ byte. not (is_other byte)) text }
    ensures most { result ≤ 16 }
    ensures bytes { Each1 (λ byte. byte < 256) text }
{
    let others = others(text);
    if others == 0 {
        16
    } else {
        others.trailing_zeros()
    }
}

/// A bit for each byte that is no hexadecimal digit in lower case.
#[inline(always)]
fn others(text: u8x16) -> u64
    ensures { result ≡ mask_l (map is_other text) }
{
    let is_other = (text - u8x16::splat(b'0')).simd_ge(u8x16::splat(10))
        & (text - u8x16::splat(b'a')).simd_ge(u8x16::splat(6));
    is_other.to_bitmask()
}

/// The value of each byte, if that is a hexadecimal digit in lower case.
#[inline(always)]
fn nibbles(text: u8x16) -> u8x16
    ensures value { result ≡ map nibble text }
    ensures bound { Each1 (λ x. x < 16) result }
{
    let more = text
        .simd_ge(u8x16::splat(b'a'))
        .select(u8x16::splat(9), u8x16::splat(0));
    ((text & u8x16::splat(15)) + more) & u8x16::splat(15)
}

/// The number that sixteen hexadecimal digits make, the first the highest.
#[inline(always)]
fn number(nibbles: u8x16) -> u64
    requires { Each1 (λ x. x < 16) nibbles }
    ensures { result ≡ number_after 0 nibbles }
{
    let high: u8x8 = nibbles.swizzle([0, 2, 4, 6, 8, 10, 12, 14]);
    let low: u8x8 = nibbles.swizzle([1, 3, 5, 7, 9, 11, 13, 15]);
    u64::from_be_bytes((high * u8x8::splat(16) + low).to_array())
}
