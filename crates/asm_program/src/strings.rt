//! Strings, and their escapes.
ghost use Rattle.std.specs.Prelude.{◌≡◌, ◌∷◌, ◌++◌, [], IfErr, OnOk, length, option_map};
ghost use Rattle.asm_program.specs.declared.stop.Stop.TheVariants.{NoMemory};
ghost use Rattle.asm_program.specs.Data.{datum_at};
ghost use Rattle.asm_program.specs.Inside.Passes.{StopsAt, with_before};
ghost use Rattle.asm_program.specs.Strings.{byte_in, escape_in, is_octal, letter_escape, octal_escape, octal_in, only_text, placed_or, string_bytes, string_data, string_size, tail_of};
ghost use Rattle.asm_tokens.specs.Readings.{spots_of};

use crate::data::Datum;
use crate::forms::fault;
use crate::stop::Stop;
use asm_expressions::{Fault, Wrong};
use asm_tokens::{Placed, Token};

/// The number of bytes of a directive's string.
pub(crate) fn string_size(
    is_ended: bool,
    left: usize,
    operands: &[Placed<'_>],
) -> Result<u64, Fault>
    ensures { result ≡ string_size is_ended left (spots_of operands.now) }
{
    let Some(text) = only_text(operands) else {
        return Err(fault(Wrong::BadOperands, left));
    };
    match bytes_of(is_ended, text) {
        Some(size) => Ok(size),
        None => Err(fault(Wrong::BadOperands, left)),
    }
}

/// Adds the bytes of a directive's string, one behind the other.
pub(crate) fn add_string(
    numbers: &mut Vec<Datum>,
    at: u64,
    is_ended: bool,
    left: usize,
    operands: &[Placed<'_>],
) -> Result<(), Stop>
    ensures added { OnOk result (with_before numbers.old.items (string_data at is_ended left (spots_of operands.now)) ≡ Ok numbers.new.items) }
    ensures fault { IfErr result (StopsAt (with_before numbers.old.items (string_data at is_ended left (spots_of operands.now)))) }
{
    match only_text(operands) {
        Some(text) => add_bytes(numbers, at, is_ended, left, text),
        None => Err(Stop::At(fault(Wrong::BadOperands, left))),
    }
}

/// The string that these tokens are.
fn only_text<'a>(tokens: &[Placed<'a>]) -> Option<&'a [u8]>
    ensures { option_map (λ text. text.now) result ≡ only_text (spots_of tokens.now) }
{
    match tokens {
        [only] => match only.token {
            Token::Text(text) => Some(text),
            _ => None,
        },
        _ => None,
    }
}

/// The number of bytes of a string, with the 0 behind it; None: it has an escape that isn't known.
fn bytes_of(is_ended: bool, text: &[u8]) -> Option<u64>
    ensures { result ≡ option_map length (string_bytes (tail_of is_ended) text.now) }
{
    let (_, mut rest) = text.split_at(0);
    let mut size = 0;
    let mut most = text.len();
    'bytes: while most > 0 && !rest.is_empty() {
        let Some((_, behind)) = byte_in(rest) else {
            return None;
        };
        rest = behind;
        size += 1;
        most -= 1;
    }
    if is_ended { Some(size + 1) } else { Some(size) }
}

/// Adds the bytes of a string, with the 0 behind it.
fn add_bytes(
    numbers: &mut Vec<Datum>,
    at: u64,
    is_ended: bool,
    left: usize,
    text: &[u8],
) -> Result<(), Stop>
    ensures added { OnOk result (with_before numbers.old.items (placed_or at left (string_bytes (tail_of is_ended) text.now)) ≡ Ok numbers.new.items) }
    ensures fault { IfErr result (StopsAt (with_before numbers.old.items (placed_or at left (string_bytes (tail_of is_ended) text.now)))) }
{
    let (_, mut rest) = text.split_at(0);
    let mut next = at;
    let mut most = text.len();
    'bytes: while most > 0 && !rest.is_empty() {
        let Some((byte, behind)) = byte_in(rest) else {
            return Err(Stop::At(fault(Wrong::BadOperands, left)));
        };
        add_byte(numbers, next, byte)?;
        rest = behind;
        next = next.wrapping_add(1);
        most -= 1;
    }
    if is_ended {
        add_byte(numbers, next, 0)?;
    }
    Ok(())
}

/// Adds a byte.
fn add_byte(numbers: &mut Vec<Datum>, at: u64, byte: u8) -> Result<(), Stop>
    ensures added { OnOk result (numbers.new.items ≡ numbers.old.items ++ datum_at at 1 byte ∷ []) }
    ensures fault { IfErr result (λ stop. stop ≡ NoMemory) }
{
    numbers.push(Datum {
        at,
        size: 1,
        value: u64::from(byte),
    })?;
    Ok(())
}

/// The byte that a text begins with, and the text behind it.
fn byte_in(text: &[u8]) -> Option<(u8, &[u8])>
    ensures byte { option_map (λ one. (one.0, one.1.now)) result ≡ byte_in text.now }
{
    let (first, rest) = text.split_first()?;
    if *first == b'\\' {
        return escape_in(rest);
    }
    Some((*first, rest))
}

/// The byte of an escape, whose `\` stands before the text, and the text behind it.
fn escape_in(text: &[u8]) -> Option<(u8, &[u8])>
    ensures { option_map (λ one. (one.0, one.1.now)) result ≡ escape_in text.now }
{
    let (first, rest) = text.split_first()?;
    match letter_escape(*first) {
        Some(byte) => Some((byte, rest)),
        None => octal_in(*first, rest),
    }
}

/// `\b`, `\f`, `\n`, `\r`, `\t`; `\\` and `\"`.
fn letter_escape(letter: u8) -> Option<u8>
    ensures { result ≡ letter_escape letter }
{
    match letter {
        b'b' => Some(8),
        b'f' => Some(12),
        b'n' => Some(b'\n'),
        b'r' => Some(b'\r'),
        b't' => Some(b'\t'),
        b'\\' | b'"' => Some(letter),
        _ => None,
    }
}

/// The byte of three octal digits, and the text behind them.
fn octal_in(first: u8, text: &[u8]) -> Option<(u8, &[u8])>
    ensures { option_map (λ one. (one.0, one.1.now)) result ≡ octal_in first text.now }
{
    match text {
        [second, third, rest @ ..] => match octal_escape(first, *second, *third) {
            Some(byte) => Some((byte, rest)),
            None => None,
        },
        _ => None,
    }
}

/// `\000` to `\377`.
fn octal_escape(a: u8, b: u8, c: u8) -> Option<u8>
    ensures { result ≡ octal_escape a b c }
{
    if matches!(a, b'0'..=b'3') && is_octal(b) && is_octal(c) {
        Some((a - b'0') * 64 + (b - b'0') * 8 + (c - b'0'))
    } else {
        None
    }
}

/// Whether a byte is an octal digit.
fn is_octal(digit: u8) -> bool
    ensures { result ≡ is_octal digit }
{
    matches!(digit, b'0'..=b'7')
}
