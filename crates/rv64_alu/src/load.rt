//! What loads take from a word of 8 bytes.
ghost use Rattle.std.specs.Prelude.{◌≡◌, ◌≤◌, ◌+◌, ◌*◌, ◌⊎◌};
ghost use Rattle.rv64_alu.specs.Loads.{load_size, loaded, loaded_part, lower_bits};

use crate::word::extended;

/// A load, by its name (unprivileged ISA 2.6, 5.3).
#[derive(Clone, Copy, PartialEq, Eq)]
pub enum LoadKind {
    /// LB: 1 byte, sign-extended.
    Lb,
    /// LH: 2 bytes, sign-extended.
    Lh,
    /// LW: 4 bytes, sign-extended.
    Lw,
    /// LD: 8 bytes.
    Ld,
    /// LBU: 1 byte; zeros above.
    Lbu,
    /// LHU: 2 bytes; zeros above.
    Lhu,
    /// LWU: 4 bytes; zeros above.
    Lwu,
}

impl LoadKind {
    /// The number of bytes that it loads. An address is naturally aligned if it is a multiple of it.
    pub fn size(self) -> u64
        ensures { result ≡ load_size self }
    {
        match self {
            LoadKind::Lb | LoadKind::Lbu => 1,
            LoadKind::Lh | LoadKind::Lhu => 2,
            LoadKind::Lw | LoadKind::Lwu => 4,
            LoadKind::Ld => 8,
        }
    }

    /// What it loads, from the word of 8 bytes around its address.
    pub fn of(self, at: u64, word: u64) -> u64
        ensures { result ≡ loaded self at word }
    {
        match self {
            LoadKind::Lb => {
                i64::from((loaded_part(1, at, word) as u8).cast_signed()).cast_unsigned()
            }
            LoadKind::Lh => {
                i64::from((loaded_part(2, at, word) as u16).cast_signed()).cast_unsigned()
            }
            LoadKind::Lw => extended(loaded_part(4, at, word) as u32),
            LoadKind::Ld => word,
            LoadKind::Lbu => loaded_part(1, at, word),
            LoadKind::Lhu => loaded_part(2, at, word),
            LoadKind::Lwu => loaded_part(4, at, word),
        }
    }
}

/// The number of bits below the part of so many bytes that has the address.
fn lower_bits(size: u64, at: u64) -> u64
    requires { (size ≡ 1) ⊎ (size ≡ 2) ⊎ (size ≡ 4) }
    ensures below { result ≡ lower_bits size at }
    ensures within { result + 8 * size ≤ 64 }
{
    8 * (at % 8 - at % size)
}

/// The part of the word, of so many bytes, that has the address.
fn loaded_part(size: u64, at: u64, word: u64) -> u64
    requires { (size ≡ 1) ⊎ (size ≡ 2) ⊎ (size ≡ 4) }
    ensures { result ≡ loaded_part size at word }
{
    (word >> lower_bits(size, at)) % (1 << (8 * size))
}
