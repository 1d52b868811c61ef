//! Operations on the word of 8 bytes around an address.
ghost use Rattle.std.specs.Prelude.{◌≡◌};
ghost use Rattle.std.specs.Int.{cast_signed, cast_unsigned, w32, w64};
ghost use Rattle.amo.specs.Amos.{amo_size, new_word, old_value, reads};
ghost use Rattle.amo.specs.Parts.{word_at, word_part};

use crate::function::AmoFunction;
use crate::part::{with_part, word_part};

/// An operation that reads and writes the word of 8 bytes around its address in one step.
#[derive(Clone, Copy, Debug, PartialEq, Eq)]
pub enum Amo {
    /// An AMO on 8 bytes: the function, and its operand (unprivileged ISA 8.4).
    Double(AmoFunction, u64),
    /// An AMO on 4 bytes: the function, and its operand, of which the low 4 bytes count (unprivileged ISA 8.4).
    Half(AmoFunction, u64),
    /// A compare-and-swap on 8 bytes: the value expected, and the one written if it is there (Zacas, AMOCAS.D).
    Cas(u64, u64),
    /// A store of 1 byte: of the value its low byte (unprivileged ISA 2.6).
    Store1(u64),
    /// A store of 2 bytes: of the value its low 2 bytes (unprivileged ISA 2.6).
    Store2(u64),
    /// A store of 4 bytes: of the value its low 4 bytes (unprivileged ISA 2.6).
    Store4(u64),
}

impl Amo {
    /// The number of bytes that it reads or writes. Its address must be aligned to it.
    pub fn size(self) -> u64
        ensures { result ≡ amo_size self }
    {
        match self {
            Amo::Double(..) | Amo::Cas(..) => 8,
            Amo::Half(..) | Amo::Store4(_) => 4,
            Amo::Store2(_) => 2,
            Amo::Store1(_) => 1,
        }
    }

    /// Whether it reads the old value. A store only writes.
    pub fn reads(self) -> bool
        ensures { result ≡ reads self }
    {
        match self {
            Amo::Double(..) | Amo::Half(..) | Amo::Cas(..) => true,
            Amo::Store1(_) | Amo::Store2(_) | Amo::Store4(_) => false,
        }
    }

    /// The address of the word of 8 bytes around its address. An address that isn't aligned stays as it is.
    pub fn word_at(self, at: u64) -> u64
        ensures { result ≡ word_at (amo_size self) at }
    {
        if at % self.size() == 0 {
            at - at % 8
        } else {
            at
        }
    }

    /// The old value that it reads from the word. One of 4 bytes is sign-extended. A store reads 0.
    pub fn old_value(self, at: u64, word: u64) -> u64
        ensures { result ≡ old_value self at word }
    {
        match self {
            Amo::Double(..) | Amo::Cas(..) => word,
            Amo::Half(..) => sign_extended(half(at, word)),
            Amo::Store1(_) | Amo::Store2(_) | Amo::Store4(_) => 0,
        }
    }

    /// The word after it. (A function of its own, so the board's other steps stay short.)
    #[inline(never)]
    pub fn new_word(self, at: u64, word: u64) -> u64
        ensures { result ≡ new_word self at word }
    {
        match self {
            Amo::Double(function, operand) => function.on_double(word, operand),
            Amo::Half(function, operand) => {
                let made = function.on_half(half(at, word), (operand % (1 << 32)) as u32);
                with_part(4, at, word, u64::from(made))
            }
            Amo::Cas(expected, value) => { if word == expected { value } else { word } }
            Amo::Store1(value) => with_part(1, at, word, value),
            Amo::Store2(value) => with_part(2, at, word, value),
            Amo::Store4(value) => with_part(4, at, word, value),
        }
    }
}

/// The half of the word that has the address.
fn half(at: u64, word: u64) -> u32
    ensures { result ≡ word_part 4 at word }
{
    word_part(4, at, word) as u32
}

/// The sign-extension of 4 bytes to 8.
fn sign_extended(half: u32) -> u64
    ensures { result ≡ cast_unsigned w64 (cast_signed w32 half) }
{
    i64::from(half.cast_signed()).cast_unsigned()
}
