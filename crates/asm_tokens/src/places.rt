//! Lines and columns.
ghost use Rattle.std.specs.Prelude.{◌≡◌, ◌≤◌, length};
ghost use Rattle.asm_tokens.specs.Places.{place_in};

/// A place in a text.
#[derive(Clone, Copy, PartialEq, Eq)]
pub struct TextPlace {
    /// The line, from 1.
    pub line: usize,
    /// The column, in bytes from 1.
    pub column: usize,
}

/// The place from which so many bytes are left to the end.
pub fn place_at(text: &[u8], left: usize) -> TextPlace
    requires { left ≤ length text.now }
    ensures { result ≡ place_in text.now left }
{
    let front = &text[..text.len() - left];
    let mut line = 1;
    let mut column = 1;
    for byte in front {
        if *byte == b'\n' {
            line += 1;
            column = 1;
        } else {
            column += 1;
        }
    }
    TextPlace { line, column }
}
