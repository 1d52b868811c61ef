//! Conditions on what orders leave at their ends: `exists` and `forall`, as litmus tests have them (profile).
ghost use Rattle.std.specs.Prelude.{◌≡◌};
ghost use Rattle.board_terms.specs.Limits.{IsGood};
ghost use Rattle.instruction_guests.specs.Places.{next_in_code, rest_in_code};

use crate::answers::{Always, Search, asking};
use crate::finding::Found;
use crate::judging::{Judged, by_answer};
use crate::loading::{faulty_at, statement_wrong, text_wrong};
use crate::reading::Unloaded;
use crate::sources::Sources;
use asm_expressions::{Scope, Symbol, Wrong};
use asm_guests::{AsmGuest, Code};
use asm_tokens::{TokensFault, read_tokens};
use board_core::Config;
use board_system::Play;
use conditions::NeedsMet;
use end_check::{Ask, EndQuestion, ask_of_ends};
use end_conditions::{FinalState, holds_at_end};
use std::alloc::{AllocError, Global};
use sv39::Ram;

/// A condition on the ends of all orders.
#[derive(Drop)]
pub(crate) struct EndCondition {
    /// Its line, from 1.
    pub(crate) line: u64,
    /// Of which ends its expression must be so.
    pub(crate) ask: Ask,
    /// Its expression, to the end of the line; `/\` is `& ` there, and `\/` is `| `.
    text: Vec<u8>,
}

/// What a line asks of ends, with the expression behind it.
pub(crate) fn asked_of_ends(line: &[u8]) -> Option<(Ask, &[u8])> {
    let asked = line.trim_ascii_start().strip_prefix(b"#!")?;
    let asked = asked.trim_ascii_start();
    if let Some(behind) = behind_word(asked, b"exists") {
        return Some((Ask::Exists, behind));
    }
    let behind = behind_word(asked, b"forall")?;
    Some((Ask::Forall, behind))
}

/// The text behind a word.
fn behind_word<'a>(text: &'a [u8], word: &[u8]) -> Option<&'a [u8]> {
    let behind = text.strip_prefix(word)?;
    match behind.first() {
        None | Some(b' ' | b'\t' | b'\r' | b'(' | b'~' | b'#') => Some(behind),
        Some(_) => None,
    }
}

/// The conditions on ends in a program's text.
///
/// # Errors
///
/// Memory was refused.
pub(crate) fn end_conditions(alloc: Global, text: &[u8]) -> Result<Vec<EndCondition>, AllocError> {
    let mut found = Vec::new(alloc);
    for (i, line) in text.split(|b| *b == b'\n').enumerate() {
        if let Some((ask, behind)) = asked_of_ends(line) {
            found.push(EndCondition {
                line: (i as u64).saturating_add(1),
                ask,
                text: with_marks(alloc, behind)?,
            })?;
        }
    }
    Ok(found)
}

/// A text in which `/\` and `\/` are marks of assembly.
fn with_marks(alloc: Global, text: &[u8]) -> Result<Vec<u8>, AllocError> {
    let mut marked = Vec::new(alloc);
    let mut is_second = false;
    for (i, byte) in text.iter().enumerate() {
        let next = text.get(i.saturating_add(1)).copied();
        let mark = match (*byte, next) {
            _ if is_second => b' ',
            (b'/', Some(b'\\')) => b'&',
            (b'\\', Some(b'/')) => b'|',
            _ => *byte,
        };
        is_second = !is_second && mark != *byte;
        marked.push(mark)?;
    }
    Ok(marked)
}

/// What is known where an expression stands.
fn scope_of<'s, 'a>(symbols: &'s [Symbol<'a>]) -> Scope<'s, 'a> {
    Scope {
        symbols,
        highs: &[],
        statement: 0,
        here: 0,
        end: 0,
    }
}

/// An end at which each register of a board's guests holds 0, and so does each word of its memory.
#[derive(Clone, Copy)]
struct Zeros<'a> {
    harts: u64,
    ram: &'a Ram,
}

impl FinalState for Zeros<'_> {
    ghost use Rattle.std.specs.Prelude.{if◌then◌else◌, nat_lt, Some, None};
    ghost use Rattle.sv39.specs.Memory.{word_in};

    ghost finals = { λ it. record {
      register = λ hart number. if nat_lt hart it.harts then Some 0 else None;
      word = word_in it.ram.now;
    } };

    fn register(&self, hart: u64, _number: u8) -> Option<u64> {
        if hart < self.harts { Some(0) } else { None }
    }

    fn word(&self, address: u64) -> Option<u64> {
        if self.ram.holds(address) {
            Some(self.ram.load(address))
        } else {
            None
        }
    }
}

/// Whether each condition on ends can be judged on a board; otherwise the first fault.
pub(crate) fn check_ends(
    alloc: Global,
    sources: &Sources,
    symbols: &[Symbol<'_>],
    board: &Config,
    conditions: &[EndCondition],
) -> Result<(), Unloaded>
    requires { IsGood board.now }
{
    let ram = Ram::new(alloc, board.pages)?;
    let end = Zeros {
        harts: board.harts,
        ram: &ram,
    };
    for condition in conditions {
        if let Some((left, why)) = fault_of(alloc, symbols, end, condition)? {
            return Err(faulty_at(alloc, sources, condition.line, left, why)?);
        }
    }
    Ok(())
}

/// A condition's first fault: the number of bytes from its place to the end of the line, and what is wrong.
fn fault_of(
    alloc: Global,
    symbols: &[Symbol<'_>],
    end: Zeros<'_>,
    condition: &EndCondition,
) -> Result<Option<(usize, &'static str)>, AllocError> {
    let tokens = match read_tokens(alloc, &condition.text) {
        Ok(tokens) => tokens,
        Err(TokensFault::NoMemory) => return Err(AllocError),
        Err(TokensFault::Wrong(fault)) => return Ok(Some((fault.left, text_wrong(fault.wrong)))),
    };
    match holds_at_end(&end, &scope_of(symbols), &tokens) {
        Ok(_) => Ok(None),
        Err(fault) => Ok(Some((fault.left, expression_wrong(fault.wrong)))),
    }
}

/// What is wrong with an expression, in words.
fn expression_wrong(wrong: Wrong) -> &'static str {
    match wrong {
        Wrong::OutOfRange => "the board has no such hart, and no such word",
        Wrong::BadOperands => "what is asked is HART:REGISTER=VALUE or ADDRESS=VALUE",
        Wrong::UnknownSymbol => "this is no register, and nothing defines this symbol",
        Wrong::Behind => "'and' or 'or' is missing before this",
        _ => statement_wrong(wrong),
    }
}

/// What is found of each condition on ends.
///
/// # Errors
///
/// Memory was refused.
pub(crate) fn judge_ends<C: Code, K: Play<AsmGuest>>(
    alloc: Global,
    search: &Search<'_, C>,
    found: &Found,
    all: &mut Vec<Judged>,
) -> Result<(), AllocError>
    requires good { IsGood search.now.widest.now }
    requires task { record { guests = next_in_code (C.listing search.now.guests.now.code.now); ticks = search.now.ticks.now } ≡ K.task }
    requires rest { rest_in_code (C.listing search.now.guests.now.code.now) ≡ K.rest }
{
    for condition in search.ends {
        all.push(judge_end::<C, K>(alloc, search, found, condition)?)?;
    }
    Ok(())
}

/// What is found of a condition on ends. (Its place is behind those of the other conditions.)
fn judge_end<C: Code, K: Play<AsmGuest>>(
    alloc: Global,
    search: &Search<'_, C>,
    found: &Found,
    condition: &EndCondition,
) -> Result<Judged, AllocError>
    requires good { IsGood search.now.widest.now }
    requires task { record { guests = next_in_code (C.listing search.now.guests.now.code.now); ticks = search.now.ticks.now } ≡ K.task }
    requires rest { rest_in_code (C.listing search.now.guests.now.code.now) ≡ K.rest }
{
    let tokens = match read_tokens(alloc, &condition.text) {
        Ok(tokens) => tokens,
        Err(_) => return Err(AllocError),
    };
    let scope = scope_of(search.symbols);
    let asked = EndQuestion {
        ask: condition.ask,
        scope: &scope,
        tokens: &tokens,
    };
    let mut asking = asking(alloc, search);
    let answer = ask_of_ends::<C, K, Always>(
        search.guests,
        search.ticks,
        search.widest,
        asked,
        &mut asking,
    )?;
    let place = search.case.conditions.len();
    by_answer(alloc, search, found, place, answer, NeedsMet::none())
}
