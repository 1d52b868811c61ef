//! The number of a hart, which most lines begin with.
ghost use Rattle.std.specs.Prelude.{◌≡◌, ◌+◌, ◌*◌, ◌%◌, ◌^◌, ◌<◌, ◌≤◌, IfSome, if◌then◌else◌, length};
ghost use Rattle.guest_script.specs.Inside.PlainLines.{BeginsDigits};

/// The number of at most three decimal digits that the bytes begin with, and what stands behind it. Three bytes are looked at
/// in any case, so no branch depends on how many digits there are.
#[inline(always)]
pub fn plain_hart(bytes: &[u8]) -> Option<(u64, &[u8])>
    ensures number { IfSome result (λ found. BeginsDigits 10 bytes.now found.0 found.1.now) }
    ensures shorter { IfSome result (λ found. length found.1.now ≤ length bytes.now) }
{
    let [first, second, third, ..] = bytes else {
        return None;
    };
    let one = digit_value(*first);
    if one > 9 {
        return None;
    }
    let two = digit_value(*second);
    let three = digit_value(*third);
    let has_two = two <= 9;
    let has_three = has_two & (three <= 9);
    let n = with_digit(one, two, has_two);
    let n = with_digit(n, three, has_three);
    let count = 1 + usize::from(has_two) + usize::from(has_three);
    Some((n, &bytes[count..]))
}

/// The value of a decimal digit; it is more than 9 for each other byte.
#[inline(always)]
fn digit_value(byte: u8) -> u64
    ensures value { result ≡ (byte + 208) % 256 }
    ensures small { result < 256 }
{
    u64::from(byte.wrapping_sub(b'0'))
}

/// The number with one more digit, if there is one.
#[inline(always)]
fn with_digit(n: u64, digit: u64, is_there: bool) -> u64
    requires number { n < 2 ^ 32 }
    requires digit { digit < 256 }
    ensures { result ≡ (if is_there then n * 10 + digit else n) }
{
    if is_there { n * 10 + digit } else { n }
}
