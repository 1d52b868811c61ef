//! A script's text, with its conditions.
use conditions::Condition;
use guest_script::{next_word, unsigned_number, without_return};
use std::alloc::{AllocError, Global};
use std::str;

/// A file under test.
#[derive(Clone, Copy)]
pub struct Case<'a> {
    /// Its name, as given.
    pub file: &'a str,
    /// Its bytes.
    pub text: &'a [u8],
    /// Its conditions, in the order of their lines.
    pub conditions: &'a [Condition],
}

impl<'a> Case<'a> {
    /// The text of a line, without its comment.
    pub fn said_at(&self, line: u64) -> &'a str {
        said(self.line(line))
    }

    /// The text of a line's condition, without the comment behind it.
    pub fn asked_at(&self, line: u64) -> &'a str {
        let text = self.line(line).trim();
        let (asked, _) = parted(text.strip_prefix("#!").unwrap_or(text));
        asked.trim()
    }

    /// The text of the first or second pattern of a condition without `maybe`, with its reply if that counts.
    pub fn pattern_at(
        &self,
        alloc: Global,
        line: u64,
        is_second: bool,
        with_reply: bool,
    ) -> Result<String, AllocError> {
        let mut found = String::new(alloc);
        let mut is_here = !is_second;
        let mut is_left_out = false;
        let mut rest = behind_name(self.asked_at(line).as_bytes());
        for _ in 0..rest.len() {
            let Some((word, after)) = next_word(rest) else {
                break;
            };
            rest = after;
            let (said, is_last) = match word.strip_suffix(b",") {
                Some(said) => (said, true),
                None if word == b"after".as_slice() => (b"".as_slice(), true),
                None => (word, false),
            };
            is_left_out = is_left_out || !with_reply && said == b"->".as_slice();
            if is_here && !is_left_out && !said.is_empty() {
                if !found.is_empty() {
                    found.push(' ')?;
                }
                found.push_str(str::from_utf8(said).unwrap_or(""))?;
            }
            if is_last {
                is_here = is_second;
                is_left_out = false;
            }
        }
        Ok(found)
    }

    /// The line of an operation in the block at an address, with this many before it, and its text.
    pub fn op_line(&self, addr: u64, before: u64) -> Option<(u64, &'a str)> {
        let mut is_inside = false;
        let mut left = before;
        for (i, text) in self.text.split(|b| *b == b'\n').enumerate() {
            let Some((word, after)) = next_word(without_return(text)) else {
                continue;
            };
            match word {
                b"at" => is_inside = number_in(after) == Some(addr),
                b"board" | b"clock" => is_inside = false,
                _ if is_inside && left == 0 => return Some((
                    i as u64 + 1,
                    self.said_at(i as u64 + 1),
                )),
                _ if is_inside => left -= 1,
                _ => {}
            }
        }
        None
    }

    /// The text of a line, from 1.
    fn line(&self, line: u64) -> &'a str {
        for (i, found) in self.text.split(|b| *b == b'\n').enumerate() {
            if i as u64 + 1 == line {
                return str::from_utf8(without_return(found)).unwrap_or("");
            }
        }
        ""
    }
}

/// The texts of lines that are requested in ascending order, so that the text is read once.
#[derive(Drop)]
pub struct Walk<'a> {
    rest: &'a [u8],
    number: u64,
}

impl<'a> Walk<'a> {
    /// Before the first line.
    pub fn new(text: &'a [u8]) -> Walk<'a> {
        Walk {
            rest: text,
            number: 0,
        }
    }

    /// The text of a line, without its comment; nothing for an earlier line than the last.
    pub fn said_at(&mut self, line: u64) -> &'a str {
        let mut found: &'a [u8] = b"";
        for _ in self.number..line {
            found = self.next_line();
        }
        self.number = self.number.max(line);
        said(str::from_utf8(found).unwrap_or(""))
    }

    fn next_line(&mut self) -> &'a [u8] {
        let line = self.rest;
        match line.iter().position(|b| *b == b'\n') {
            Some(end) if end < line.len() => {
                self.rest = &line[end + 1..];
                &line[..end]
            }
            _ => {
                self.rest = b"";
                line
            }
        }
    }
}

/// The text behind the name of a condition.
fn behind_name(asked: &[u8]) -> &[u8] {
    match next_word(asked) {
        Some((_, after)) => after,
        None => asked,
    }
}

/// The number at the beginning of a text, such as the address behind `at`.
pub fn number_in(text: &[u8]) -> Option<u64> {
    let (word, _) = next_word(text)?;
    unsigned_number(word, u64::MAX)
}

/// The text of a line, without its comment.
pub fn said(line: &str) -> &str {
    let (said, _) = parted(line);
    said.trim()
}

/// The text before a comment, and the text behind its sign.
fn parted(text: &str) -> (&str, &str) {
    text.split_once('#').unwrap_or((text, ""))
}
