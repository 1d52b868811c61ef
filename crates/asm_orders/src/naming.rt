//! Symbols in conditions, which stand for their values (profile).
use crate::ends::asked_of_ends;
use asm_expressions::Symbol;
use conditions::Fault;
use diagnostics::bad_condition;
use script_lines::{OpName, SaidName};
use std::alloc::{AllocError, Global};

/// Words of conditions, beside the names of operations and replies.
const WORDS: [&[u8]; 21] = [
    b"_",
    b"after",
    b"before",
    b"c",
    b"can",
    b"each",
    b"end",
    b"firm",
    b"lenient",
    b"maybe",
    b"missed",
    b"never",
    b"off",
    b"quiet",
    b"some",
    b"stale",
    b"steady",
    b"stuck",
    b"unfirm",
    b"unlenient",
    b"unsteady",
];

/// What a line says, behind its `#!`, of the machine on which all orders are explored.
#[derive(Clone, Copy, PartialEq, Eq)]
pub(crate) enum Machine {
    /// `wfi may return`: without a wake (Privileged 3.3.3).
    WfiReturns,
    /// `any tlb`: the board has any TLBs that the standard allows (Privileged 4.2.1, 4.3.2).
    AnyTlb,
}

const WFI_RETURNS: [&[u8]; 3] = [b"wfi", b"may", b"return"];

const ANY_TLB: [&[u8]; 2] = [b"any", b"tlb"];

/// Whether a line of a program says this of the machine.
pub(crate) fn has_machine(text: &[u8], machine: Machine) -> bool {
    text.split(|b| *b == b'\n')
        .any(|line| machine_of(line) == Some(machine))
}

/// What a line says of the machine.
fn machine_of(line: &[u8]) -> Option<Machine> {
    let asked = line.trim_ascii_start().strip_prefix(b"#!")?;
    let said = asked.split(|b| *b == b'#').next()?;
    if has_words(said, &WFI_RETURNS) {
        Some(Machine::WfiReturns)
    } else if has_words(said, &ANY_TLB) {
        Some(Machine::AnyTlb)
    } else {
        None
    }
}

/// Whether a text has just these words.
fn has_words(said: &[u8], words: &[&[u8]]) -> bool {
    said.split(|b| is_between(*b))
        .filter(|word| !word.is_empty())
        .eq(words.iter().copied())
}

/// A program's text in which the symbols of conditions are numbers. A line about the machine or about ends is
/// a plain comment there.
///
/// # Errors
///
/// Memory was refused.
pub(crate) fn with_numbers(
    alloc: Global,
    text: &[u8],
    symbols: &[Symbol<'_>],
) -> Result<Vec<u8>, AllocError> {
    let mut numbered = Vec::new(alloc);
    for (i, line) in text.split(|b| *b == b'\n').enumerate() {
        if i > 0 {
            numbered.push(b'\n')?;
        }
        put_line(alloc, line, symbols, &mut numbered)?;
    }
    Ok(numbered)
}

/// Adds a line, whose symbols are numbers if it is a condition.
fn put_line(
    alloc: Global,
    line: &[u8],
    symbols: &[Symbol<'_>],
    out: &mut Vec<u8>,
) -> Result<(), AllocError> {
    match line.trim_ascii_start().strip_prefix(b"#!") {
        Some(_) if machine_of(line).is_some() || asked_of_ends(line).is_some() => Ok(()),
        Some(asked) => {
            let front = line.len().saturating_sub(asked.len());
            out.extend_from_slice(line.get(..front).unwrap_or(b""))?;
            put_asked(alloc, asked, symbols, out)
        }
        None => out.extend_from_slice(line),
    }
}

/// Adds the text of a condition behind its `#!`.
fn put_asked(
    alloc: Global,
    asked: &[u8],
    symbols: &[Symbol<'_>],
    out: &mut Vec<u8>,
) -> Result<(), AllocError> {
    let mut word = Vec::new(alloc);
    let mut is_comment = false;
    for byte in asked {
        is_comment = is_comment || *byte == b'#';
        if is_comment || is_between(*byte) {
            put_word(alloc, &word, symbols, out)?;
            word.clear();
            out.push(*byte)?;
        } else {
            word.push(*byte)?;
        }
    }
    put_word(alloc, &word, symbols, out)
}

/// Whether a byte stands between words.
fn is_between(byte: u8) -> bool {
    matches!(byte, b' ' | b'\t' | b'\r' | b',')
}

/// Adds a word, or the value of the symbol that it names.
fn put_word(
    alloc: Global,
    word: &[u8],
    symbols: &[Symbol<'_>],
    out: &mut Vec<u8>,
) -> Result<(), AllocError> {
    match value_of(word, symbols) {
        Some(value) => out.extend_from_slice(format!(in alloc; "{value:#x}")?.as_bytes()),
        None => out.extend_from_slice(word),
    }
}

/// The value of the symbol that a word names. A word of conditions names none, nor does a number.
fn value_of(word: &[u8], symbols: &[Symbol<'_>]) -> Option<u64> {
    let first = word.first()?;
    if first.is_ascii_digit() || is_of_conditions(word) {
        return None;
    }
    let symbol = symbols.iter().find(|symbol| symbol.name == word)?;
    Some(symbol.value)
}

fn is_of_conditions(word: &[u8]) -> bool {
    WORDS.iter().any(|it| *it == word) || OpName::of(word).is_some() || SaidName::of(word).is_some()
}

/// The message of a condition's fault, at its place in the text as it stands.
///
/// # Errors
///
/// Memory was refused.
pub(crate) fn bad_numbered(
    alloc: Global,
    text: &[u8],
    numbered: &[u8],
    found: Fault,
) -> Result<String, AllocError> {
    let column = column_in(
        line_of(text, found.line),
        line_of(numbered, found.line),
        found.column,
    );
    bad_condition(alloc, text, Fault { column, ..found })
}

/// The column in a line of the word that stands in this one of the same line with numbers, whose words are as many. Columns count
/// from 1.
fn column_in(line: &[u8], numbered: &[u8], column: u64) -> u64 {
    let at = column.saturating_sub(1) as usize;
    let front = numbered.get(..at).unwrap_or(numbered);
    if line.starts_with(front) {
        return column;
    }
    let before = (0..front.len())
        .filter(|i| begins_word(numbered, *i))
        .count();
    match (0..line.len())
        .filter(|i| begins_word(line, *i))
        .nth(before)
    {
        Some(i) => (i as u64).saturating_add(1),
        None => (line.trim_ascii_end().len() as u64).saturating_add(1),
    }
}

/// Whether a word of a condition begins in this place of a line. A comma is one.
fn begins_word(line: &[u8], at: usize) -> bool {
    let byte = line.get(at).copied().unwrap_or(b' ');
    let before = line.get(at.wrapping_sub(1)).copied().unwrap_or(b' ');
    byte == b',' || (!is_between(byte) && is_between(before))
}

/// A line of a text; both count from 1.
fn line_of(text: &[u8], line: u64) -> &[u8] {
    let before = line.saturating_sub(1) as usize;
    text.split(|b| *b == b'\n').nth(before).unwrap_or(b"")
}
