//! Messages about a text that can't be tested.
use crate::columns::{from_column, word_at};
use board_core::{Config, USUAL_ASID_LEN, USUAL_WIDTH};
use conditions::Fault;
use guest_script::{Misread, Wrong};
use script_lines::OpName;
use std::alloc::{AllocError, Global};
use std::str;

/// The message of a script's fault: line, column, what is wrong, and the word.
pub fn faulty(alloc: Global, text: &[u8], found: Misread) -> Result<String, AllocError> {
    let Misread {
        line,
        column,
        wrong,
    } = found;
    let fault = wrong.fault();
    let number = fault.number();
    if line == 0 {
        return format!(in alloc; ": {fault} (fault {number})");
    }
    if wrong == Wrong::BadByte {
        let what = bad_byte(from_column(text, line, column));
        return format!(in alloc; ":{line}:{column}: {what} (fault {number})");
    }
    let word = word_at(text, line, column);
    let what = what_is_wrong(wrong, word);
    match str::from_utf8(word) {
        Ok("") | Err(_) => format!(in alloc; ":{line}:{column}: {what} (fault {number})"),
        Ok(word) => format!(in alloc; ":{line}:{column}: {what} '{word}' (fault {number})"),
    }
}

/// What is wrong with a word, or that there is none.
fn what_is_wrong(wrong: Wrong, word: &[u8]) -> &'static str {
    match wrong {
        Wrong::UnknownOperation if OpName::of(word).is_some() => "its block allows no operation",
        Wrong::UnknownOperation => "unknown operation",
        Wrong::UnknownReply => "unknown reply",
        Wrong::BadNumber => "not a number, or too large:",
        Wrong::WordMissing if word.is_empty() => "a word is missing",
        Wrong::WordMissing => "a word is missing before",
        Wrong::WordTooMany => "a word too many:",
        Wrong::SecondBlock => "a second block of",
        Wrong::NoBoardLine => "no board line, but",
        Wrong::OtherKind => "a line of another kind:",
        Wrong::BadByte | Wrong::TooLong | Wrong::NoMemory => "",
    }
}

/// What is wrong with the first of these bytes of a line, which no script may have.
fn bad_byte(text: &[u8]) -> &'static str {
    if text.starts_with(b"\xef\xbb\xbf") {
        "a byte order mark"
    } else if text == b"\r".as_slice() {
        "a carriage return before no line feed"
    } else {
        "a byte that is neither printable ASCII nor a tab"
    }
}

/// The message of a condition's fault: line, column, why, and the word.
pub fn bad_condition(alloc: Global, text: &[u8], found: Fault) -> Result<String, AllocError> {
    let Fault {
        line,
        column,
        wrong,
    } = found;
    match str::from_utf8(word_at(text, line, column)) {
        Ok("") | Err(_) => format!(in alloc; ":{line}:{column}: {wrong}"),
        Ok(word) => format!(in alloc; ":{line}:{column}: {wrong}: '{word}'"),
    }
}

/// The message of a board line's first number that is outside its limits.
pub fn bad_board(alloc: Global, config: &Config) -> Result<String, AllocError> {
    let Config {
        harts,
        pages,
        limit,
        boot_hart,
        boot_addr,
        boot_opaque: _,
        asid_len,
        width,
    } = *config;
    if !(1..=128).contains(&harts) {
        outside(alloc, "HARTS", harts, 128)
    } else if !(1..=256).contains(&pages) {
        outside(alloc, "PAGES", pages, 256)
    } else if !(1..=1_000_000).contains(&limit) {
        outside(alloc, "LIMIT", limit, 1_000_000)
    } else if boot_hart >= harts {
        outside(alloc, "BOOTHART", boot_hart, harts.saturating_sub(1))
    } else if !with_usual_spaces(config).is_good() {
        format!(in alloc; ": bad board: BOOTADDR is {boot_addr:#x}, not an even address of the RAM")
    } else if asid_len > 16 {
        outside(alloc, "ASIDLEN", asid_len, 16)
    } else {
        format!(in alloc; ": bad board: WIDTH is {width}, not 39 or 48")
    }
}

/// The board with the default address spaces.
fn with_usual_spaces(config: &Config) -> Config {
    Config {
        asid_len: USUAL_ASID_LEN,
        width: USUAL_WIDTH,
        ..*config
    }
}

fn outside(alloc: Global, name: &str, number: u64, most: u64) -> Result<String, AllocError> {
    if number == 0 {
        return format!(in alloc; ": bad board: {name} is 0, at least 1");
    }
    format!(in alloc; ": bad board: {name} is {number}, at most {most}")
}
