//! `and` and `or`.
ghost use Rattle.std.specs.Prelude.{◌≡◌, option_map};
ghost use Rattle.asm_tokens.specs.Readings.{spots_of};
ghost use Rattle.asm_tokens.specs.Tokens.{lexeme_of};
ghost use Rattle.end_conditions.specs.Connectives.{connective_of, connective_in, connected, connects_at, of_word};

use asm_tokens::{Mark, Placed, Token};

/// How tightly connectives bind.
#[derive(Clone, Copy, PartialEq, Eq)]
pub(crate) enum Level {
    /// `or`.
    Either,
    /// `and`, which binds tighter.
    Both,
    /// What stands between them.
    Single,
}

/// What joins two claims.
#[derive(Clone, Copy, PartialEq, Eq)]
pub(crate) enum Connective {
    /// `and`, `&`
    And,
    /// `or`, `|`
    Or,
}

impl Connective {
    /// What it makes of two claims.
    pub(crate) fn of(self, first: bool, second: bool) -> bool
        ensures { result ≡ connected self first second }
    {
        match self {
            Connective::And => first && second,
            Connective::Or => first || second,
        }
    }

    /// The level of its claims.
    fn is_at(self, level: Level) -> bool
        ensures { result ≡ connects_at level self }
    {
        match (level, self) {
            (Level::Either, Connective::Or) | (Level::Both, Connective::And) => true,
            _ => false,
        }
    }
}

/// The connective of this level that tokens begin with, and the tokens behind it.
pub(crate) fn next_connective<'t, 'a>(
    level: Level,
    tokens: &'t [Placed<'a>],
) -> Option<(Connective, &'t [Placed<'a>])>
    ensures { option_map (λ found. (found.0, spots_of found.1.now)) result ≡ connective_in level (spots_of tokens.now) }
{
    let (first, behind) = tokens.split_first()?;
    let connective = connective_of(first.token)?;
    if connective.is_at(level) {
        Some((connective, behind))
    } else {
        None
    }
}

/// The connective that a token is.
fn connective_of(token: Token<'_>) -> Option<Connective>
    ensures { result ≡ connective_of (lexeme_of token.entry) }
{
    match token {
        Token::Mark(Mark::And) => Some(Connective::And),
        Token::Mark(Mark::Or) => Some(Connective::Or),
        Token::Word(word) => of_word(word),
        _ => None,
    }
}

/// The connective that a word is.
fn of_word(word: &[u8]) -> Option<Connective>
    ensures { result ≡ of_word word.now }
{
    if word == b"and".as_slice() {
        return Some(Connective::And);
    }
    if word == b"or".as_slice() {
        return Some(Connective::Or);
    }
    None
}
