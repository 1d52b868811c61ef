//! The parts of a program: labels, and statements.
ghost use Rattle.std.specs.Prelude.{◌≡◌, ◌<◌, ◌≤◌, IfOk, length, map, true};
ghost use Rattle.asm_program.specs.Parts.{begins_with_end, behind_end, behind_part, part_length, place_of_end, first_part, parts_of, piece_of};
ghost use Rattle.asm_tokens.specs.Readings.{spots_of};

use asm_tokens::{Mark, Placed, Token};
use std::alloc::{AllocError, Global};

/// A label with its `:`, or the tokens of a statement.
#[derive(Clone, Copy)]
pub(crate) struct Part<'t, 'a> {
    /// Its tokens.
    pub tokens: &'t [Placed<'a>],
    /// The number of bytes from its end to the end of the text.
    pub end: usize,
}

/// The parts of a program, in order.
#[tactic(auto, using(crate::proofs::More::parts_none, crate::proofs::More::parts_step, crate::proofs::More::spots_length))]
pub(crate) fn parts<'t, 'a>(
    alloc: Global,
    tokens: &'t [Placed<'a>],
) -> Result<Vec<Part<'t, 'a>>, AllocError>
    ensures { IfOk result (λ parts. map piece_of parts.items ≡ parts_of (spots_of tokens.now)) }
{
    let mut parts = Vec::new(alloc);
    let (_, mut rest) = tokens.split_at(0);
    let mut most = tokens.len();
    'parts: while most > 0 {
        if rest.is_empty() {
            return Ok(parts);
        }
        let (part, behind) = first_part(rest);
        parts.push(part)?;
        rest = behind;
        most -= 1;
    }
    Ok(parts)
}

/// The first part, and the tokens behind it.
#[tactic(auto, using(crate::proofs::More::spots_front, crate::proofs::More::spots_behind))]
fn first_part<'t, 'a>(tokens: &'t [Placed<'a>]) -> (Part<'t, 'a>, &'t [Placed<'a>])
    ensures part { piece_of result.0 ≡ first_part (spots_of tokens.now) }
    ensures behind { spots_of result.1.now ≡ behind_part (spots_of tokens.now) }
{
    let (front, behind) = tokens.split_at(part_length(tokens));
    let part = Part {
        tokens: front,
        end: place_of_end(behind),
    };
    (part, behind_end(behind))
}

/// The number of tokens of the first part: up to the end of a statement, or with the `:` of a label.
fn part_length(tokens: &[Placed<'_>]) -> usize
    ensures part_length { result ≡ part_length (spots_of tokens.now) }
    ensures within { result ≤ length tokens.now }
{
    for (i, placed) in tokens.iter().enumerate() {
        match placed.token {
            Token::End => return i,
            Token::Mark(Mark::Colon) => return i + 1,
            _ => {}
        }
    }
    tokens.len()
}

/// The place of the first token, or of the end of the text.
fn place_of_end(tokens: &[Placed<'_>]) -> usize
    ensures { result ≡ place_of_end (spots_of tokens.now) }
{
    match tokens.split_first() {
        Some((first, _)) => first.left,
        None => 0,
    }
}

/// The tokens behind the end of a statement, if they begin with one.
#[tactic(auto, using(std::proofs::lemmas::List::take_rest, crate::proofs::More::spots_length, crate::proofs::More::spots_behind))]
fn behind_end<'t, 'a>(tokens: &'t [Placed<'a>]) -> &'t [Placed<'a>]
    ensures { spots_of result.now ≡ behind_end (spots_of tokens.now) }
{
    if begins_with_end(tokens) {
        &tokens[1..]
    } else {
        tokens
    }
}

/// Whether tokens begin with the end of a statement.
fn begins_with_end(tokens: &[Placed<'_>]) -> bool
    ensures result { result ≡ begins_with_end (spots_of tokens.now) }
    ensures some { result ≡ true → 0 < length tokens.now }
{
    match tokens.split_first() {
        Some((first, _)) => matches!(first.token, Token::End),
        None => false,
    }
}
