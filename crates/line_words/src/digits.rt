//! Numbers, as words spell them.
ghost use Rattle.std.specs.Prelude.{◌≡◌, ◌≤◌, neg_ℤ, pos, IfSome};
ghost use Rattle.std.specs.Char.{digit_value};
ghost use Rattle.line_words.specs.Words.{last_below};
ghost use Rattle.line_words.specs.Values.{digit_after, number_in, signed_in};
ghost use Rattle.line_words.specs.Inside.Scanning.{decimal_in, numeral_of, spelled_of};

/// The largest magnitude of a negative number.
pub const LAST_BELOW: u64 = 1 << 63;

/// The largest signed number.
pub const LAST_ABOVE: u64 = LAST_BELOW - 1;

/// The value of each byte as a digit: at most 35 for a digit or a letter, and 36 for any other byte.
static DIGIT_VALUES: [u8; 256] = [
    36, 36, 36, 36, 36, 36, 36, 36, 36, 36, 36, 36, 36, 36, 36, 36, 36, 36, 36, 36, 36, 36, 36, 36,
    36, 36, 36, 36, 36, 36, 36, 36, 36, 36, 36, 36, 36, 36, 36, 36, 36, 36, 36, 36, 36, 36, 36, 36,
    0, 1, 2, 3, 4, 5, 6, 7, 8, 9, 36, 36, 36, 36, 36, 36, 36, 10, 11, 12, 13, 14, 15, 16, 17, 18,
    19, 20, 21, 22, 23, 24, 25, 26, 27, 28, 29, 30, 31, 32, 33, 34, 35, 36, 36, 36, 36, 36, 36, 10,
    11, 12, 13, 14, 15, 16, 17, 18, 19, 20, 21, 22, 23, 24, 25, 26, 27, 28, 29, 30, 31, 32, 33, 34,
    35, 36, 36, 36, 36, 36, 36, 36, 36, 36, 36, 36, 36, 36, 36, 36, 36, 36, 36, 36, 36, 36, 36, 36,
    36, 36, 36, 36, 36, 36, 36, 36, 36, 36, 36, 36, 36, 36, 36, 36, 36, 36, 36, 36, 36, 36, 36, 36,
    36, 36, 36, 36, 36, 36, 36, 36, 36, 36, 36, 36, 36, 36, 36, 36, 36, 36, 36, 36, 36, 36, 36, 36,
    36, 36, 36, 36, 36, 36, 36, 36, 36, 36, 36, 36, 36, 36, 36, 36, 36, 36, 36, 36, 36, 36, 36, 36,
    36, 36, 36, 36, 36, 36, 36, 36, 36, 36, 36, 36, 36, 36, 36, 36, 36, 36, 36, 36, 36, 36, 36, 36,
    36, 36, 36, 36, 36, 36, 36, 36, 36, 36, 36, 36, 36, 36,
];

/// The number that a word spells (decimal digits, or `0x` and hexadecimal digits), if it is at most `limit`.
#[tactic(auto, using(crate::proofs::Numerals::of_spelled))]
pub fn number(word: &[u8], limit: u64) -> Option<u64>
    ensures within { IfSome result (λ n. n ≤ limit) }
    ensures value { result ≡ number_in limit word.now }
{
    match spelled(word) {
        Some(n) if n <= limit => Some(n),
        _ => None,
    }
}

/// The number that a word spells, if there is one below 2^64.
#[tactic(auto, unfolding(crate::specs::Inside::Scanning::spelled_of))]
fn spelled(word: &[u8]) -> Option<u64>
    ensures { result ≡ spelled_of word.now }
{
    match word.strip_prefix(b"0x") {
        Some(digits) => numeral(digits, 16),
        None => numeral(word, 10),
    }
}

/// The signed number that a word spells (decimal digits, with or without a `-`), if it fits into 64 bits.
#[tactic(auto, unfolding(crate::specs::Values::signed_in, crate::specs::Inside::Scanning::decimal_in))]
pub fn signed_number(word: &[u8]) -> Option<i64>
    ensures { result ≡ signed_in word.now }
{
    match word.strip_prefix(b"-") {
        Some(digits) => Some(below_zero(decimal(digits, LAST_BELOW)?)),
        None => Some(decimal(word, LAST_ABOVE)? as i64),
    }
}

/// The number that decimal digits spell, if it is at most `limit`.
#[tactic(auto, using(crate::proofs::Numerals::of_numeral))]
fn decimal(digits: &[u8], limit: u64) -> Option<u64>
    ensures value { result ≡ decimal_in limit digits.now }
    ensures within { IfSome result (λ n. n ≤ limit) }
{
    match numeral(digits, 10) {
        Some(n) if n <= limit => Some(n),
        _ => None,
    }
}

/// The number -n.
pub fn below_zero(n: u64) -> i64
    requires { n ≤ last_below }
    ensures { result ≡ neg_ℤ (pos n) }
{
    if n == 0 { 0 } else { -1 - (n - 1) as i64 }
}

/// The number that one digit or more spell in this radix, if it is below 2^64.
fn numeral(digits: &[u8], radix: u32) -> Option<u64>
    requires low { 2 ≤ radix }
    requires high { radix ≤ 36 }
    ensures { result ≡ numeral_of radix digits.now }
{
    if digits.is_empty() {
        return None;
    }
    let mut n = 0;
    for digit in digits {
        n = push_digit(n, *digit, radix)?;
    }
    Some(n)
}

/// The number whose digits are those of `n` and one more, if that is a digit of this radix and the number is below
/// 2^64.
#[inline(always)]
#[tactic(auto, unfolding(crate::specs::Values::digit_after))]
pub fn push_digit(n: u64, digit: u8, radix: u32) -> Option<u64>
    requires low { 2 ≤ radix }
    requires high { radix ≤ 36 }
    ensures { result ≡ digit_after radix n digit }
{
    let value = digit_value(digit);
    if value >= radix {
        return None;
    }
    n.checked_mul(u64::from(radix))?
        .checked_add(u64::from(value))
}

/// The value of a byte as a digit.
#[inline(always)]
#[tactic(auto, using(crate::proofs::DigitValues::digit_value_at))]
fn digit_value(digit: u8) -> u32
    ensures { result ≡ digit_value digit }
{
    u32::from(DIGIT_VALUES[usize::from(digit)])
}
