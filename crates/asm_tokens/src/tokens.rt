//! The first token of a text.
ghost use Rattle.std.specs.Prelude.{◌≡◌, ◌∷◌, ◌<◌, ◌≤◌, ◌+◌, [], length, MatchOption};
ghost use Rattle.asm_tokens.specs.Tokens.{LeavesLess, comment_of, first, reading_of, slash_of, string_of, word_reading};
ghost use Rattle.asm_tokens.specs.Runs.{drop_run};

use crate::bytes::{ByteClass, class_of};
use crate::marks::Mark;
use crate::runs::{Run, behind_comment, closing_quote, run_len};

/// A token of a text.
#[derive(Clone, Copy)]
pub enum Token<'a> {
    /// A name, a mnemonic, a directive or a number.
    Word(&'a [u8]),
    /// A string: what stands between its quotes, with its escapes.
    Text(&'a [u8]),
    /// A mark.
    Mark(Mark),
    /// The end of a statement.
    End,
}

/// What is wrong with a text, at its first byte.
#[derive(Clone, Copy, PartialEq, Eq)]
pub enum BadText {
    /// A byte that begins no token.
    BadByte,
    /// A string that isn't closed on its line.
    OpenString,
    /// A comment that isn't closed.
    OpenComment,
}

/// What a text begins with, and the text behind it.
#[derive(Clone, Copy)]
pub enum First<'a> {
    /// Nothing: the text is empty.
    Over,
    /// Blanks or a comment.
    Gap(&'a [u8]),
    /// A token.
    Begins(Token<'a>, &'a [u8]),
    /// Something wrong.
    Wrong(BadText),
}

/// What a text begins with.
pub fn first_token(text: &[u8]) -> First<'_>
    ensures reading { reading_of result ≡ first text.now }
    ensures shorter { LeavesLess result (length text.now) }
{
    let Some((byte, after)) = first_byte(text) else {
        return First::Over;
    };
    match class_of(byte) {
        ByteClass::Blank => First::Gap(behind(Run::Blanks, after)),
        ByteClass::Letter => word(text, after),
        ByteClass::End => First::Begins(Token::End, after),
        ByteClass::Hash => First::Gap(behind(Run::Line, after)),
        ByteClass::Quote => string(after),
        ByteClass::Slash => slash(after),
        ByteClass::Mark(mark) => First::Begins(Token::Mark(mark), after),
        ByteClass::Other => First::Wrong(BadText::BadByte),
    }
}

/// The first byte, and the text behind it.
fn first_byte(text: &[u8]) -> Option<(u8, &[u8])>
    ensures { MatchOption result (text.now ≡ []) (λ parts. text.now ≡ parts.0 ∷ parts.1.now) }
{
    let (byte, after) = text.split_first()?;
    Some((*byte, after))
}

/// The text behind the run that it begins with.
fn behind(run: Run, text: &[u8]) -> &[u8]
    ensures behind { result.now ≡ drop_run run text.now }
    ensures shorter { length result.now ≤ length text.now }
{
    &text[run_len(run, text)..]
}

/// The word that a text begins with; `after` is the text behind its first byte.
fn word<'a>(text: &'a [u8], after: &'a [u8]) -> First<'a>
    requires { length text.now ≡ length after.now + 1 }
    ensures reading { reading_of result ≡ word_reading text.now after.now }
    ensures shorter { LeavesLess result (length text.now) }
{
    let n = run_len(Run::Word, after);
    First::Begins(Token::Word(&text[..n + 1]), &after[n..])
}

/// The string whose opening quote stands before a text.
fn string(after: &[u8]) -> First<'_>
    ensures reading { reading_of result ≡ string_of after.now }
    ensures shorter { LeavesLess result (length after.now + 1) }
{
    match closing_quote(after) {
        Some(n) => First::Begins(Token::Text(&after[..n]), &after[n + 1..]),
        None => First::Wrong(BadText::OpenString),
    }
}

/// The comment or the mark whose `/` stands before a text.
fn slash(after: &[u8]) -> First<'_>
    ensures reading { reading_of result ≡ slash_of after.now }
    ensures shorter { LeavesLess result (length after.now + 1) }
{
    match first_byte(after) {
        Some((b'*', inside)) => comment(inside),
        _ => First::Begins(Token::Mark(Mark::Slash), after),
    }
}

/// The comment whose `/*` stands before a text.
fn comment(inside: &[u8]) -> First<'_>
    ensures reading { reading_of result ≡ comment_of inside.now }
    ensures shorter { LeavesLess result (length inside.now + 2) }
{
    match behind_comment(inside) {
        Some(behind) => First::Gap(behind),
        None => First::Wrong(BadText::OpenComment),
    }
}
