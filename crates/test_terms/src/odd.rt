//! What is odd about a program.
use conditions::Keyword;
use diagnostics::{Case, number_in, said};
use guest_script::{next_word, without_return};
use outcome_statistics::{Spot, Visits};
use std::alloc::{AllocError, Global};
use std::collections::BTreeSet;
use std::str;
use test_report::Note;

/// What is odd about a program, by what its guests met: blocks that were not entered, calls whose every answer was an error, and
/// entries without a block.
pub fn oddities(alloc: Global, case: &Case<'_>, visits: &Visits) -> Result<Vec<Note>, AllocError> {
    let mut reading = Reading {
        visits,
        blocks: BTreeSet::new(alloc),
        at: None,
        odd: Vec::new(alloc),
    };
    for (i, text) in case.text.split(|b| *b == b'\n').enumerate() {
        reading.see(alloc, i as u64 + 1, without_return(text))?;
    }
    let Reading {
        visits: _,
        blocks,
        at: _,
        mut odd,
    } = reading;
    for addr in visits.entered.iter() {
        if !blocks.contains(addr) {
            odd.push(Note::NoBlock(*addr))?;
        }
    }
    Ok(odd)
}

/// A program that is read line by line.
#[derive(Drop)]
struct Reading<'a> {
    visits: &'a Visits,
    /// The addresses of the blocks so far.
    blocks: BTreeSet<u64>,
    /// The place in a block of the next operation.
    at: Option<Spot>,
    odd: Vec<Note>,
}

impl Reading<'_> {
    /// A line follows.
    fn see(&mut self, alloc: Global, line: u64, text: &[u8]) -> Result<(), AllocError> {
        let Some((word, after)) = next_word(text) else {
            return Ok(());
        };
        if word == b"at".as_slice()
            && let Some(addr) = number_in(after)
        {
            return self.see_block(line, addr);
        }
        if word == b"board".as_slice() || word == b"clock".as_slice() {
            self.at = None;
        }
        let Some(spot) = self.at else {
            return Ok(());
        };
        if self.visits.is_only_failed(&spot) {
            let said = String::from_str(alloc, said(str::from_utf8(text).unwrap_or("")))?;
            self.odd.push(Note::OnlyErrors(line, said))?;
        }
        self.at = Some(Spot {
            addr: spot.addr,
            before: spot.before.saturating_add(1),
        });
        Ok(())
    }

    /// A block of this address begins.
    fn see_block(&mut self, line: u64, addr: u64) -> Result<(), AllocError> {
        self.blocks.insert(addr)?;
        if !self.visits.entered.contains(&addr) {
            self.odd.push(Note::NotEntered(line, addr))?;
        }
        self.at = Some(Spot { addr, before: 0 });
        Ok(())
    }
}

/// What a line has from its comment's sign on.
fn comment_of(line: &[u8]) -> &[u8] {
    for (i, byte) in line.iter().enumerate() {
        if *byte == b'#' {
            return &line[i..];
        }
    }
    b""
}

/// The lines whose comment is a condition but for blanks behind its sign, each with the word there.
pub fn unasked<'a>(alloc: Global, case: &Case<'a>) -> Result<Vec<(u64, &'a str)>, AllocError> {
    let mut found = Vec::new(alloc);
    for (i, text) in case.text.split(|b| *b == b'\n').enumerate() {
        let text = without_return(text);
        if next_word(text).is_none()
            && let Some(asked) = asked_behind_blanks(comment_of(text))
        {
            found.push((i as u64 + 1, str::from_utf8(asked).unwrap_or("")))?;
        }
    }
    Ok(found)
}

/// The word of a condition that stands in a comment behind a sign and blanks.
fn asked_behind_blanks(comment: &[u8]) -> Option<&[u8]> {
    let (sign, after) = next_word(comment.strip_prefix(b"#")?)?;
    if !matches!(comment.get(1), Some(b' ' | b'\t')) {
        return None;
    }
    let asked = sign.strip_prefix(b"!")?;
    let word = if asked.is_empty() {
        next_word(after)?.0
    } else {
        asked
    };
    if word == b"maybe".as_slice() || Keyword::of(word).is_some() {
        Some(word)
    } else {
        None
    }
}
