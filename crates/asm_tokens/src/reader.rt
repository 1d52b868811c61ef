//! Reads all tokens of a text.
ghost use Rattle.std.specs.Prelude.{◌≡◌, ◌∷◌, ◌++◌, [], IfErr, IfOk, OnOk, map};
ghost use Rattle.asm_tokens.specs.declared.reader.TokensFault.TheVariants.{NoMemory};
ghost use Rattle.asm_tokens.specs.Readings.{AreTokens, IsReadFault, token_spot};

use crate::tokens::{BadText, First, Token, first_token};
use std::alloc::{AllocFailed, Global};

/// A token, and its place.
#[derive(Clone, Copy)]
pub struct Placed<'a> {
    /// The token.
    pub token: Token<'a>,
    /// The number of bytes from its first one to the end of the text.
    pub left: usize,
}

/// What is wrong with a text, and its place.
#[derive(Clone, Copy, PartialEq, Eq)]
pub struct TokenFault {
    /// What is wrong.
    pub wrong: BadText,
    /// The number of bytes from there to the end of the text.
    pub left: usize,
}

/// Why a text wasn't read.
#[derive(Clone, Copy, PartialEq, Eq)]
pub enum TokensFault {
    /// Its first fault.
    Wrong(TokenFault),
    /// Memory was refused.
    NoMemory,
}

impl<T: Drop> From<AllocFailed<T>> for TokensFault {
    ghost from_gives = { λ _ fault. fault ≡ NoMemory };

    fn from(_refused: AllocFailed<T>) -> TokensFault {
        TokensFault::NoMemory
    }
}

/// All tokens of a text, in order.
///
/// # Errors
///
/// The text's first fault; or out of memory.
pub fn read_tokens(alloc: Global, text: &[u8]) -> Result<Vec<Placed<'_>>, TokensFault>
    ensures tokens { IfOk result (λ tokens. AreTokens text.now (map token_spot tokens.items)) }
    ensures fault { IfErr result (λ fault. IsReadFault text.now fault) }
{
    let mut tokens = Vec::new(alloc);
    let mut rest = text;
    'parts: loop {
        let left = rest.len();
        match first_token(rest) {
            First::Over => return Ok(tokens),
            First::Gap(after) => rest = after,
            First::Begins(token, after) => {
                tokens.push(Placed { token, left })?;
                rest = after;
            }
            First::Wrong(wrong) => return Err(TokensFault::Wrong(TokenFault { wrong, left })),
        }
    }
}
