//! Ranges of values, and how far targets are.
ghost use Rattle.std.specs.Prelude.{◌≡◌, ◌≤◌, ◌+◌, ◌*◌};
ghost use Rattle.asm_instructions.specs.Ranges.{distance, far_base, far_low, is_far, is_signed_word, li_count, li_parts, odd_upper, is_within_reach, short_of, word_parts};

use asm_expressions::low_part;
use rv64_alu::AluOp;

/// A value as an immediate of 12 bits, which is signed, if it is one (unprivileged ISA 2.3).
pub(crate) fn short(value: u64) -> Option<i32>
    ensures { result ≡ short_of value }
{
    let n = value.cast_signed();
    if -0x800 <= n && n < 0x800 {
        Some(n as i32)
    } else {
        None
    }
}

/// The distance of a target from an instruction.
pub(crate) fn distance(here: u64, to: u64) -> u64
    ensures { result ≡ distance here to }
{
    to.wrapping_sub(here)
}

/// Whether a target is less than `reach` bytes away, and at an even address.
pub(crate) fn is_within_reach(reach: u64, here: u64, to: u64) -> bool
    requires { reach ≤ 0x10_0000 }
    ensures { result ≡ is_within_reach reach here to }
{
    let away = distance(here, to);
    away.wrapping_add(reach) < 2 * reach && away % 2 == 0
}

/// Whether a symbol is too far away for AUIPC and 12 bits more.
pub(crate) fn is_far(here: u64, to: u64) -> bool
    ensures { result ≡ is_far here to }
{
    distance(here, to).wrapping_add(0x8000_0800) >= 0x1_0000_0000
}

/// The low 12 bits of the distance of a symbol, as a signed number.
pub(crate) fn far_low(here: u64, to: u64) -> i32
    ensures { result ≡ far_low here to }
{
    (distance(here, to).wrapping_add(0x800) % 0x1000) as i32 - 0x800
}

/// What AUIPC gives on the way to a symbol: the low part of the distance is missing.
pub(crate) fn far_base(here: u64, to: u64) -> u64
    ensures { result ≡ far_base here to }
{
    let low = distance(here, to).wrapping_add(0x800) % 0x1000;
    to.wrapping_sub(low).wrapping_add(0x800)
}

/// How many instructions the assembler writes for `li`: LUI, ADDIW, SLLI and ADDI, as the value needs them.
pub(crate) fn li_count(value: u64) -> u8
    ensures count { result ≡ li_count value }
    ensures few { result ≤ 8 }
{
    li_parts(3, value)
}

/// The number of instructions for a value: those of its upper part, SLLI, and ADDI for the low 12 bits if they aren't 0.
#[tactic(auto, using(crate::proofs::Parts::parts_more))]
fn li_parts(most: u8, value: u64) -> u8
    requires { most ≤ 3 }
    ensures count { result ≡ li_parts most value }
    ensures few { result ≤ 2 * most + 2 }
{
    if most == 0 || is_signed_word(value) {
        return word_parts(value);
    }
    li_parts(most - 1, odd_upper(value)) + if low_part(value) == 0 { 1 } else { 2 }
}

/// Whether a value is a signed number of 4 bytes.
fn is_signed_word(value: u64) -> bool
    ensures { result ≡ is_signed_word value }
{
    value.wrapping_add(0x8000_0000) < 0x1_0000_0000
}

/// The number of instructions for a signed number of 4 bytes: LUI and ADDIW, or one of them.
fn word_parts(value: u64) -> u8
    ensures count { result ≡ word_parts value }
    ensures few { result ≤ 2 }
{
    if short(value).is_some() || low_part(value) == 0 {
        1
    } else {
        2
    }
}

/// What is above the low 12 bits of a value, shifted right until it is odd.
fn odd_upper(value: u64) -> u64
    ensures { result ≡ odd_upper value }
{
    let upper = value.wrapping_sub(low_part(value));
    AluOp::Sra.of(upper, u64::from(upper.trailing_zeros()))
}
