//! Names of registers.
ghost use Rattle.std.specs.Prelude.{◌≡◌, ◌<◌, ◌∷◌, [], IfSome, MatchOption};
ghost use Rattle.asm_tokens.specs.Registers.{digit_in, family_number, index_in, named_number, numbered, register_in};

/// The number of the register of this name, if there is one: `x0` to `x31`, or its name in the ABI (RISC-V psABI, Integer
/// Register Convention).
pub fn register_number(word: &[u8]) -> Option<u8>
    ensures number { result ≡ register_in word.now }
    ensures within { IfSome result (λ n. n < 32) }
{
    match named_number(word) {
        Some(n) => Some(n),
        None => numbered(word),
    }
}

/// The number of a register with a name of its own.
fn named_number(word: &[u8]) -> Option<u8>
    ensures number { result ≡ named_number word.now }
    ensures within { IfSome result (λ n. n < 32) }
{
    if word == b"zero".as_slice() {
        return Some(0);
    }
    if word == b"ra".as_slice() {
        return Some(1);
    }
    if word == b"sp".as_slice() {
        return Some(2);
    }
    if word == b"gp".as_slice() {
        return Some(3);
    }
    if word == b"tp".as_slice() {
        return Some(4);
    }
    if word == b"fp".as_slice() {
        return Some(8);
    }
    None
}

/// The number of a register named by a letter and an index.
fn numbered(word: &[u8]) -> Option<u8>
    ensures number { result ≡ numbered word.now }
    ensures within { IfSome result (λ n. n < 32) }
{
    let (letter, digits) = word.split_first()?;
    family_number(*letter, index(digits)?)
}

/// The number of the register with this letter and index.
fn family_number(letter: u8, index: u8) -> Option<u8>
    requires { index < 100 }
    ensures number { result ≡ family_number letter index }
    ensures within { IfSome result (λ n. n < 32) }
{
    match letter {
        b'x' if index <= 31 => Some(index),
        b'a' if index <= 7 => Some(10 + index),
        b's' if index <= 1 => Some(8 + index),
        b's' if index <= 11 => Some(16 + index),
        b't' if index <= 2 => Some(5 + index),
        b't' if index <= 6 => Some(25 + index),
        _ => None,
    }
}

/// The number of one or two decimal digits; two don't begin with 0.
fn index(digits: &[u8]) -> Option<u8>
    ensures index { result ≡ index_in digits.now }
    ensures within { IfSome result (λ n. n < 100) }
{
    match digits {
        [one] => digit(*one),
        [b'0', _] => None,
        [ten, one] => Some(10 * digit(*ten)? + digit(*one)?),
        _ => None,
    }
}

/// The value of a decimal digit.
fn digit(byte: u8) -> Option<u8>
    ensures digit { result ≡ digit_in byte }
    ensures within { IfSome result (λ n. n < 10) }
{
    match byte {
        b'0'..=b'9' => Some(byte - b'0'),
        _ => None,
    }
}
