//! Parts of values: `%hi(..)` and `%lo(..)`.
ghost use Rattle.std.specs.Prelude.{◌≡◌};
ghost use Rattle.asm_expressions.specs.Parts.{has_high_part, high_part, low_part, part_named, part_of};

/// A part of a value.
#[derive(Clone, Copy, PartialEq, Eq)]
pub(crate) enum Part {
    /// All of it.
    Whole,
    /// `%hi(..)`: what LUI takes, so that the low part added to it gives the value.
    High,
    /// `%lo(..)`: the low 12 bits as a signed number.
    Low,
}

impl Part {
    /// The part of a value; None of `%hi` if LUI can't give it.
    pub(crate) fn of(self, value: u64) -> Option<u64>
        ensures { result ≡ part_of self value }
    {
        match self {
            Part::Whole => Some(value),
            Part::High if has_high_part(value) => Some(high_part(value)),
            Part::High => None,
            Part::Low => Some(low_part(value)),
        }
    }

    /// The part of this name.
    pub(crate) fn named(name: &[u8]) -> Option<Part>
        ensures { result ≡ part_named name.now }
    {
        if name == b"hi".as_slice() {
            return Some(Part::High);
        }
        if name == b"lo".as_slice() {
            return Some(Part::Low);
        }
        None
    }
}

/// The low 12 bits of a value as a signed number, sign-extended to 8 bytes.
pub fn low_part(value: u64) -> u64
    ensures { result ≡ low_part value }
{
    (value.wrapping_add(0x800) % 0x1000).wrapping_sub(0x800)
}

/// The 20 bits that LUI takes, so that the low part added to them gives the low 4 bytes of the value.
pub fn high_part(value: u64) -> u64
    ensures { result ≡ high_part value }
{
    value.wrapping_add(0x800) / 0x1000 % 0x10_0000
}

/// Whether LUI, which gives a signed number of 4 bytes, and a low part give the value.
fn has_high_part(value: u64) -> bool
    ensures { result ≡ has_high_part value }
{
    value.wrapping_add(0x8000_0800) < 0x1_0000_0000
}
