//! Marks between words.
ghost use Rattle.std.specs.Prelude.{◌≡◌};
ghost use Rattle.asm_tokens.specs.Marks.{mark_of_byte};

/// A mark between words: punctuation, or a part of an operator.
#[derive(Clone, Copy, PartialEq, Eq)]
pub enum Mark {
    /// `,`
    Comma,
    /// `:`
    Colon,
    /// `(`
    Open,
    /// `)`
    Close,
    /// `+`
    Plus,
    /// `-`
    Minus,
    /// `*`
    Star,
    /// `/`
    Slash,
    /// `%`
    Percent,
    /// `<`
    Less,
    /// `>`
    Greater,
    /// `&`
    And,
    /// `|`
    Or,
    /// `^`
    Caret,
    /// `~`
    Tilde,
    /// `=`
    Equals,
    /// `@`
    At,
}

/// The mark that a byte is, except `/`, which can begin a comment.
pub(crate) fn mark_of_byte(byte: u8) -> Option<Mark>
    ensures { result ≡ mark_of_byte byte }
{
    Some(match byte {
        b',' => Mark::Comma,
        b':' => Mark::Colon,
        b'(' => Mark::Open,
        b')' => Mark::Close,
        b'+' => Mark::Plus,
        b'-' => Mark::Minus,
        b'*' => Mark::Star,
        b'%' => Mark::Percent,
        b'<' => Mark::Less,
        b'>' => Mark::Greater,
        b'&' => Mark::And,
        b'|' => Mark::Or,
        b'^' => Mark::Caret,
        b'~' => Mark::Tilde,
        b'=' => Mark::Equals,
        b'@' => Mark::At,
        _ => return None,
    })
}
