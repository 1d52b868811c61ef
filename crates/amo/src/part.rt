//! Parts of a word of 8 bytes.
ghost use Rattle.std.specs.Prelude.{◌≡◌, ◌≤◌, ◌+◌, ◌*◌, ◌⊎◌};
ghost use Rattle.amo.specs.Parts.{bits_below, with_part, word_part};

/// The number of bits below the part of so many bytes that has the address.
fn bits_below(size: u64, at: u64) -> u64
    requires { (size ≡ 1) ⊎ (size ≡ 2) ⊎ (size ≡ 4) }
    ensures below { result ≡ bits_below size at }
    ensures within { result + 8 * size ≤ 64 }
{
    8 * (at % 8 - at % size)
}

/// The part of the word, of so many bytes, that has the address.
pub fn word_part(size: u64, at: u64, word: u64) -> u64
    requires { (size ≡ 1) ⊎ (size ≡ 2) ⊎ (size ≡ 4) }
    ensures { result ≡ word_part size at word }
{
    (word >> bits_below(size, at)) % (1 << (8 * size))
}

/// The word with the value's low bytes as that part. The bytes above and below stay.
pub fn with_part(size: u64, at: u64, word: u64, value: u64) -> u64
    requires { (size ≡ 1) ⊎ (size ≡ 2) ⊎ (size ≡ 4) }
    ensures { result ≡ with_part size at word value }
{
    let below = bits_below(size, at);
    let bits = 8 * size;
    let above = word >> below >> bits;
    let upper = (above << bits) + value % (1 << bits);
    (upper << below) + word % (1 << below)
}
