//! What `.map` and `.map48` say.
ghost use Rattle.asm_tokens.specs.Readings.{spots_of};
ghost use Rattle.std.specs.Prelude.{◌≡◌, ◌==◌, ◌≤◌, option_map};
ghost use Rattle.std.specs.List.{list_any};
ghost use Rattle.asm_program.specs.Maps.{letter_bits, ending_of, letter_bit, flags_and_name, leaf_bits, has_letter, is_leaf_word, letters, map_said, map_said_of};

use asm_instructions::first_operand;
use asm_tokens::{Mark, Placed, Token};

/// What a `.map` says.
#[derive(Clone, Copy)]
pub(crate) struct MapText<'t, 'a> {
    /// The address of its root table.
    pub root: &'t [Placed<'a>],
    /// The page's address.
    pub page: &'t [Placed<'a>],
    /// Where it lies.
    pub to: &'t [Placed<'a>],
    /// What it allows, and a name.
    pub end: MapEnd<'a>,
}

/// The last operands of a `.map`.
#[derive(Clone, Copy)]
pub(crate) struct MapEnd<'a> {
    /// The letters of what it allows.
    pub flags: &'a [u8],
    /// The name of its last entry.
    pub name: Option<&'a [u8]>,
    /// The place of the name, or of the letters.
    pub left: usize,
}

/// What the operands of a `.map` say: `ROOT, PAGE, TO, FLAGS`, or these and `, NAME`.
pub(crate) fn map_text<'t, 'a>(operands: &'t [Placed<'a>]) -> Option<MapText<'t, 'a>>
    ensures { option_map map_said_of result ≡ map_said (spots_of operands.now) }
{
    let (root, behind) = first_operand(operands);
    let (page, behind) = first_operand(behind?);
    let (to, behind) = first_operand(behind?);
    let end = flags_and_name(behind?)?;
    Some(MapText {
        root,
        page,
        to,
        end,
    })
}

/// The last operands: letters, or letters and a name.
fn flags_and_name<'a>(tokens: &[Placed<'a>]) -> Option<MapEnd<'a>>
    ensures { option_map ending_of result ≡ flags_and_name (spots_of tokens.now) }
{
    match tokens {
        [flags] => match flags.token {
            Token::Word(word) => Some(MapEnd {
                flags: word,
                name: None,
                left: flags.left,
            }),
            _ => None,
        },
        [flags, comma, name] => match (flags.token, comma.token, name.token) {
            (Token::Word(word), Token::Mark(Mark::Comma), Token::Word(symbol)) => Some(MapEnd {
                flags: word,
                name: Some(symbol),
                left: name.left,
            }),
            _ => None,
        },
        _ => None,
    }
}

/// The low bits of the entry that these letters say: V, and one for each of r, w, x, g, a and d.
pub(crate) fn leaf_bits(word: &[u8]) -> Option<u64>
    ensures bits { result ≡ leaf_bits word.now }
{
    if is_leaf_word(word) {
        Some(letter_bits(word))
    } else {
        None
    }
}

/// Whether each letter is one of these, and there at most once; and they are those of a leaf.
fn is_leaf_word(word: &[u8]) -> bool
    ensures { result ≡ is_leaf_word word.now }
{
    letters(word) == word.len() as u64
        && (has_letter(word, b'r') || (has_letter(word, b'x') && !has_letter(word, b'w')))
}

/// How many of these letters there are.
fn letters(word: &[u8]) -> u64
    ensures { result ≡ letters word.now }
{
    letter_bit(word, b'r', 1)
        + letter_bit(word, b'w', 1)
        + letter_bit(word, b'x', 1)
        + letter_bit(word, b'g', 1)
        + letter_bit(word, b'a', 1)
        + letter_bit(word, b'd', 1)
}

/// V, and the bits of the letters.
fn letter_bits(word: &[u8]) -> u64
    ensures bits { result ≡ letter_bits word.now }
    ensures few { result ≤ 239 }
{
    1 + letter_bit(word, b'r', 2)
        + letter_bit(word, b'w', 4)
        + letter_bit(word, b'x', 8)
        + letter_bit(word, b'g', 32)
        + letter_bit(word, b'a', 64)
        + letter_bit(word, b'd', 128)
}

/// The bit, if a word has the letter.
fn letter_bit(word: &[u8], letter: u8, bit: u64) -> u64
    ensures letter_bit { result ≡ letter_bit word.now letter bit }
    ensures few { result ≤ bit }
{
    if has_letter(word, letter) { bit } else { 0 }
}

/// Whether a word has the letter.
fn has_letter(word: &[u8], letter: u8) -> bool
    ensures { result ≡ has_letter letter word.now }
{
    for byte in word {
        if *byte == letter {
            return true;
        }
    }
    false
}
