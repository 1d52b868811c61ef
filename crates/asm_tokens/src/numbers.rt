//! Numbers, as words spell them.
ghost use Rattle.std.specs.Prelude.{◌≡◌, ◌≤◌};
ghost use Rattle.asm_tokens.specs.Numbers.{asm_number_in, numeral_in};

use line_words::push_digit;

/// The number that a word spells, if it spells one below 2^64: decimal digits, `0x` and hexadecimal ones, `0b` and binary ones,
/// or a `0` and octal ones (GNU as, Integers).
#[tactic(auto, unfolding(crate::specs::Numbers::asm_number_in))]
pub fn asm_number(word: &[u8]) -> Option<u64>
    ensures { result ≡ asm_number_in word.now }
{
    if let Some(digits) = word.strip_prefix(b"0x") {
        return numeral(digits, 16);
    }
    if let Some(digits) = word.strip_prefix(b"0b") {
        return numeral(digits, 2);
    }
    match word.strip_prefix(b"0") {
        Some(_) => numeral(word, 8),
        None => numeral(word, 10),
    }
}

/// The number that one digit or more spell in this radix, if it is below 2^64.
fn numeral(digits: &[u8], radix: u32) -> Option<u64>
    requires low { 2 ≤ radix }
    requires high { radix ≤ 36 }
    ensures { result ≡ numeral_in radix digits.now }
{
    if digits.is_empty() {
        return None;
    }
    let mut n = 0;
    for digit in digits {
        n = push_digit(n, *digit, radix)?;
    }
    Some(n)
}
