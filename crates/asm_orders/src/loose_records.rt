//! The record of an order on a board with any TLBs.
use crate::answers::Search;
use crate::records::{Followed, Record, follow};
use crate::standing::standing;
use asm_guests::Code;
use board_core::{Board, Entry, Event};
use script_lines::Doing;
use std::alloc::{AllocError, Global};
use std::fmt::Write;
use std::str;
use test_report::{RecordParts, record, step_line};

/// The first line of a record that is no trace of this board.
const NO_TRACE: &str = "# another TLB than this board's: `check` refuses these replies";

/// The record of these events, which this board answers otherwise: its board's line and their lines. Behind an access stands the TLB
/// entry that it used, if it used one, and behind each guest's step the instruction.
///
/// # Errors
///
/// Memory was refused.
pub(crate) fn loose_record<C: Code>(
    alloc: Global,
    search: &Search<'_, C>,
    board: &Board,
    events: &[Event],
) -> Result<Record, AllocError> {
    let Followed {
        notes,
        numbers,
        places,
    } = follow(alloc, search, events)?;
    let standing = standing(alloc, search, board, &places)?;
    let mut text = String::from_str(alloc, NO_TRACE)?;
    text.push('\n')?;
    put_head(alloc, board, &mut text)?;
    let mut steps = Vec::new(alloc);
    for (k, event) in events.iter().enumerate() {
        let said = said_of(alloc, event, notes.get(k))?;
        text.push_str(said.as_str())?;
        text.push('\n')?;
        steps.push(said)?;
    }
    Ok(Record {
        text,
        steps,
        numbers,
        standing,
    })
}

/// Adds the line of a board, which its record begins with.
fn put_head(alloc: Global, board: &Board, out: &mut String) -> Result<(), AllocError> {
    let bytes = record(alloc, RecordParts::of(board, None))?;
    let head = bytes.split(|b| *b == b'\n').next().unwrap_or(b"");
    out.push_str(str::from_utf8(head).unwrap_or(""))?;
    out.push('\n')
}

/// The line of an event, with the entry that it used and its instruction.
fn said_of(alloc: Global, event: &Event, note: Option<&String>) -> Result<String, AllocError> {
    let doing = Doing::Step {
        actor: event.actor(),
        op: event.op(),
    };
    let line = step_line(alloc, doing, Ok(event.reply()))?;
    let line = str::from_utf8(&line).unwrap_or("");
    let mut said = String::from_str(alloc, line.trim_ascii_end())?;
    let used = event.translation();
    let note = note.map_or("", |note| note.as_str());
    if used.is_none() && note.is_empty() {
        return Ok(said);
    }
    said.push_str("    #")?;
    if let Some(entry) = used {
        put_used(&entry, &mut said)?;
    }
    if !note.is_empty() {
        write!(said, " {note}")?;
    }
    Ok(said)
}

/// Adds the physical address of an entry's page, and its rights: ` used 0x80004000 rw-d;`.
fn put_used(entry: &Entry, out: &mut String) -> Result<(), AllocError> {
    let pa = entry.pa();
    let leaf = entry.leaf();
    write!(out, " used {pa:#x} ")?;
    for (has, letter) in [(leaf.r, 'r'), (leaf.w, 'w'), (leaf.x, 'x'), (leaf.d, 'd')] {
        out.push(if has { letter } else { '-' })?;
    }
    out.push(';')
}
