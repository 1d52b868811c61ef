//! The table of a board.
ghost use Rattle.std.specs.Prelude.{◌≡◌, ◌+◌, ◌*◌, ◌^◌, ◌<◌, ◌≤◌, [], ◌∷◌, ◌++◌, length};
ghost use Rattle.std.specs.List.{flat_map};
ghost use Rattle.board_core.specs.Course.{harts_of};
ghost use Rattle.board_core.specs.Fences.{waiting};
ghost use Rattle.printed_lines.specs.LineText.{decimal_room, fence_room, flush_room, hex_column_room, hex_column_work, line_room, power_room, reset_room, with_words};
ghost use Rattle.printed_lines.specs.Sinks.{Puts};
ghost use Rattle.monitor.specs.Table.{asid_words, deadline_cell, details, tlb_entries, entry_cells, entry_line, fence_cells, fence_line, shown_flush, hart_cells, head_cells, letter, outstanding_cell, power_word, shown_range, shown_reset, rights, row, state_name, table, time_cells, tlb_cells, tlb_line, totals_cells, word_cells, word_line, words};
ghost use Rattle.printed_lines.specs.Words.{as_line};

use board_core::{Board, Entry, EntryPoint, FetchWord, HartState, Reset, Totals};
use fence_queue::Request;
use hart_mask::HartSet;
use printed_lines::{Failed, LineText, Sink, bit_of};
use tlb_model::{Flush, Range};

/// Prints the board's table. Its lines are comments in a script.
///
/// # Errors
///
/// A write failed.
pub fn print<W: Sink>(board: &Board, sink: &mut W) -> Result<(), Failed>
    requires { W.failures sink.old < 2 ^ 63 }
    ensures { Puts W.written W.failures sink.old sink.new result
        (table board.now.opening board.now.past) }
{
    time_line(board).put(sink)?;
    totals_line(&board.totals()).put(sink)?;
    columns_line().put(sink)?;
    print_rows(board, sink)?;
    print_details(board, sink)
}

/// Prints each hart's row.
fn print_rows<W: Sink>(board: &Board, sink: &mut W) -> Result<(), Failed>
    requires { W.failures sink.old < 2 ^ 63 }
    ensures { Puts W.written W.failures sink.old sink.new result
        (flat_map (row board.now.opening board.now.past) (harts_of board.now.opening.config)) }
{
    for h in 0..board.config().harts {
        hart_line(board, h).put(sink)?;
    }
    Ok(())
}

/// Prints the lines after the rows: each hart's entry point, live items of its caches, and waiting fences.
fn print_details<W: Sink>(board: &Board, sink: &mut W) -> Result<(), Failed>
    requires { W.failures sink.old < 2 ^ 63 }
    ensures { Puts W.written W.failures sink.old sink.new result
        (flat_map (details board.now.opening board.now.past) (harts_of board.now.opening.config)) }
{
    for h in 0..board.config().harts {
        print_hart(board, h, sink)?;
    }
    Ok(())
}

/// Prints the lines after the rows of hart `h`.
fn print_hart<W: Sink>(board: &Board, h: u64, sink: &mut W) -> Result<(), Failed>
    requires failures { W.failures sink.old < 2 ^ 63 }
    requires is_hart { h < board.now.opening.config.harts }
    ensures { Puts W.written W.failures sink.old sink.new result (details board.now.opening board.now.past h) }
{
    print_entry(h, board.kept(h), sink)?;
    print_tlb(board, h, sink)?;
    print_fetched(board, h, sink)?;
    print_fences(board, h, sink)
}

/// Prints the live entries of a hart's TLB.
fn print_tlb<W: Sink>(board: &Board, h: u64, sink: &mut W) -> Result<(), Failed>
    requires failures { W.failures sink.old < 2 ^ 63 }
    requires is_hart { h < board.now.opening.config.harts }
    ensures { Puts W.written W.failures sink.old sink.new result
        (flat_map (tlb_line h) (tlb_entries board.now.opening board.now.past h)) }
{
    for fill in board.tlb(h) {
        tlb_line(h, &fill.item).put(sink)?;
    }
    Ok(())
}

/// Prints the live words of a hart's instruction cache.
fn print_fetched<W: Sink>(board: &Board, h: u64, sink: &mut W) -> Result<(), Failed>
    requires failures { W.failures sink.old < 2 ^ 63 }
    requires is_hart { h < board.now.opening.config.harts }
    ensures { Puts W.written W.failures sink.old sink.new result
        (flat_map (word_line h) (words board.now.opening board.now.past h)) }
{
    for fill in board.fetched(h) {
        word_line(h, &fill.item).put(sink)?;
    }
    Ok(())
}

/// Prints the fences that wait at a hart.
fn print_fences<W: Sink>(board: &Board, h: u64, sink: &mut W) -> Result<(), Failed>
    requires failures { W.failures sink.old < 2 ^ 63 }
    requires is_hart { h < board.now.opening.config.harts }
    ensures { Puts W.written W.failures sink.old sink.new result
        (flat_map (fence_line h) (waiting board.now.opening board.now.past h)) }
{
    for request in board.waiting(h) {
        fence_line(h, &request).put(sink)?;
    }
    Ok(())
}

/// Prints a hart's entry point, if it has one.
fn print_entry<W: Sink>(h: u64, kept: Option<EntryPoint>, sink: &mut W) -> Result<(), Failed>
    requires { W.failures sink.old < 2 ^ 63 }
    ensures { Puts W.written W.failures sink.old sink.new result (entry_line h kept) }
{
    match kept {
        Some(start) => entry_line(h, &start).put(sink),
        None => Ok(()),
    }
}

/// The line of the time, the events, the power and the last reset.
#[tactic(auto, unfolding(crate::specs::Table::time_cells))]
fn time_line(board: &Board) -> LineText
    ensures text { result ≡ with_words [] (time_cells board.now.opening board.now.past) }
    ensures some { 0 < length result }
    ensures room { length result < line_room }
{
    let mut line = LineText::new();
    line.word(b"#");
    line.word(b"time");
    line.hex_column(16, board.time());
    line.word(b"events");
    line.right_decimal(7, board.history().len() as u64);
    line.word(b"power");
    line.word(power(board.is_off()));
    line.word(b"reset");
    reset_onto(&mut line, board.last_reset());
    line
}

/// The word for the power.
fn power(is_off: bool) -> &'static [u8]
    ensures name { result.now ≡ power_word is_off }
    ensures len { length result.now ≤ 3 }
{
    if is_off { b"off" } else { b"on" }
}

/// Appends the type and the reason of the last reset.
fn reset_onto(line: &mut LineText, last: Option<Reset>)
    requires { length line.old ≤ power_room }
    ensures text { line.new ≡ with_words line.old (shown_reset last) }
    ensures len { length line.new ≤ length line.old + reset_room }
    ensures some { 0 < length line.new }
{
    match last {
        None => line.word(b"none"),
        Some(reset) => {
            line.hex_column(8, u64::from(reset.kind.number()));
            line.hex_column(8, u64::from(reset.reason));
        }
    }
}

/// The line of the counts.
#[tactic(auto, unfolding(crate::specs::Table::totals_cells))]
fn totals_line(totals: &Totals) -> LineText
    ensures text { result ≡ with_words [] (totals_cells totals.now) }
    ensures some { 0 < length result }
    ensures room { length result < line_room }
{
    let mut line = LineText::new();
    line.word(b"#");
    line.word(b"starts");
    line.decimal(totals.starts);
    line.word(b"entries");
    line.decimal(totals.entries);
    line.word(b"pending");
    line.decimal(totals.pending);
    line.word(b"asked");
    line.decimal(totals.asked);
    line.word(b"applied");
    line.decimal(totals.applied);
    line.word(b"waiting");
    line.decimal(totals.waiting);
    line
}

/// The line of the column heads.
#[tactic(auto, unfolding(crate::specs::Table::head_cells))]
fn columns_line() -> LineText
    ensures text { result ≡ with_words [] (head_cells) }
    ensures some { 0 < length result }
    ensures room { length result < line_room }
{
    let mut line = LineText::new();
    line.word(b"#");
    line.word(b"hart");
    line.left(15, b"state");
    line.word(b"wait");
    line.word(b"out");
    line.word(b"ss");
    line.word(b"st");
    line.word(b"ie");
    line.word(b"se");
    line.left(16, b"satp");
    line.left(16, b"deadline");
    line.word(b"tlb");
    line.word(b"ic");
    line
}

/// A hart's row.
#[tactic(auto, unfolding(crate::specs::Table::hart_cells))]
fn hart_line(board: &Board, h: u64) -> LineText
    requires { h < board.now.opening.config.harts }
    ensures text { result ≡ with_words [] (hart_cells board.now.opening board.now.past h) }
    ensures some { 0 < length result }
    ensures room { length result < line_room }
{
    let mut line = LineText::new();
    line.word(b"#");
    line.right_decimal(4, h);
    line.left(15, name(board.state(h)));
    line.right_decimal(4, board.waiting_len(h));
    outstanding_onto(&mut line, board.outstanding(h));
    line.right_decimal(2, bit_of(board.ssip(h)));
    line.right_decimal(2, bit_of(board.stip(h)));
    line.hex_column(2, board.sie(h).bits());
    line.right_decimal(2, bit_of(board.sstatus_sie(h)));
    line.hex_column(16, board.satp(h));
    deadline_onto(&mut line, board.deadline(h));
    line.right_decimal(3, entry_count(board, h));
    line.right_decimal(2, word_count(board, h));
    line
}

/// The number of live entries in a hart's TLB.
fn entry_count(board: &Board, h: u64) -> u64
    requires { h < board.now.opening.config.harts }
    ensures { result ≡ length (tlb_entries board.now.opening board.now.past h) }
{
    board.tlb(h).len() as u64
}

/// The number of live words in a hart's instruction cache.
fn word_count(board: &Board, h: u64) -> u64
    requires { h < board.now.opening.config.harts }
    ensures { result ≡ length (words board.now.opening board.now.past h) }
{
    board.fetched(h).len() as u64
}

/// Appends the number of harts that a fence call waits for, or a dash without a call.
fn outstanding_onto(line: &mut LineText, harts: Option<HartSet>)
    requires { length line.old + decimal_room ≤ line_room }
    ensures text { line.new ≡ line.old ++ 32 ∷ outstanding_cell harts }
    ensures len { length line.new ≤ length line.old + decimal_room }
{
    match harts {
        Some(harts) => line.right_decimal(3, harts.len()),
        None => line.right(3, b"-"),
    }
}

/// Appends a deadline, or dashes if there is none.
fn deadline_onto(line: &mut LineText, deadline: Option<u64>)
    requires { length line.old + hex_column_work ≤ line_room }
    ensures text { line.new ≡ line.old ++ 32 ∷ deadline_cell deadline }
    ensures len { length line.new ≤ length line.old + hex_column_room }
{
    match deadline {
        Some(deadline) => line.hex_column(16, deadline),
        None => line.word(&[b'-'; 16]),
    }
}

/// The line of a hart's entry point.
#[tactic(auto, unfolding(crate::specs::Table::entry_cells))]
fn entry_line(h: u64, start: &EntryPoint) -> LineText
    ensures text { result ≡ with_words [] (entry_cells h start.now) }
    ensures some { 0 < length result }
    ensures room { length result < line_room }
{
    let mut line = LineText::new();
    line.word(b"#");
    line.word(b"entry");
    line.right_decimal(3, h);
    line.hex_column(16, start.addr);
    line.hex_column(16, start.opaque);
    line
}

/// The line of a TLB entry.
#[tactic(auto, unfolding(crate::specs::Table::tlb_cells))]
fn tlb_line(h: u64, entry: &Entry) -> LineText
    ensures text { result ≡ with_words [] (tlb_cells h entry.now) }
    ensures some { 0 < length result }
    ensures room { length result < line_room }
{
    let leaf = entry.leaf();
    let mut line = LineText::new();
    line.word(b"#");
    line.word(b"tlb");
    line.right_decimal(3, h);
    line.hex_column(16, leaf.page);
    line.decimal(leaf.level.number());
    line.hex_column(4, u64::from(entry.asid()));
    line.word(&[letter(leaf.global, b'g')]);
    line.hex_column(16, leaf.pa);
    line.word(&rights(entry));
    line
}

/// The rights of an entry's page, one letter each.
fn rights(entry: &Entry) -> [u8; 4]
    ensures { result ≡ rights entry.now }
{
    let leaf = entry.leaf();
    [
        letter(leaf.r, b'r'),
        letter(leaf.w, b'w'),
        letter(leaf.x, b'x'),
        letter(leaf.d, b'd'),
    ]
}

/// A letter, or a dash if it doesn't apply.
fn letter(present: bool, byte: u8) -> u8
    ensures { result ≡ letter present byte }
{
    if present { byte } else { b'-' }
}

/// The line of a fetched word.
#[tactic(auto, unfolding(crate::specs::Table::word_cells))]
fn word_line(h: u64, fetched: &FetchWord) -> LineText
    ensures text { result ≡ with_words [] (word_cells h fetched.now) }
    ensures some { 0 < length result }
    ensures room { length result < line_room }
{
    let mut line = LineText::new();
    line.word(b"#");
    line.word(b"ic");
    line.right_decimal(3, h);
    line.hex_column(16, fetched.pa);
    line.hex_column(16, fetched.word);
    line
}

/// The line of a waiting fence.
#[tactic(auto, unfolding(crate::specs::Table::fence_cells))]
fn fence_line(h: u64, request: &Request<Flush>) -> LineText
    ensures text { result ≡ with_words [] (fence_cells h request.now) }
    ensures some { 0 < length result }
    ensures room { length result < line_room }
{
    let mut line = LineText::new();
    line.word(b"#");
    line.word(b"fence");
    line.right_decimal(3, h);
    line.word(b"from");
    line.right_decimal(3, request.from);
    flush_onto(&mut line, request.flush);
    line
}

/// Appends what a fence drops.
fn flush_onto(line: &mut LineText, flush: Flush)
    requires { length line.old ≤ fence_room }
    ensures text { line.new ≡ with_words line.old (shown_flush flush) }
    ensures len { length line.new ≤ length line.old + flush_room }
    ensures some { 0 < length line.new }
{
    match flush {
        Flush::Words => line.word(b"i"),
        Flush::Entries(fence) => {
            line.word(b"vma");
            range_onto(line, fence.range);
            asid_onto(line, fence.asid);
        }
    }
}

/// Appends the range of a fence.
fn range_onto(line: &mut LineText, range: Option<Range>)
    requires { length line.old ≤ fence_room + 4 }
    ensures text { line.new ≡ with_words line.old (shown_range range) }
    ensures len { length line.new ≤ length line.old + 2 * hex_column_room }
    ensures some { 0 < length line.new }
{
    match range {
        None => line.word(b"full"),
        Some(range) => {
            line.hex_column(16, range.start);
            line.hex_column(16, range.size);
        }
    }
}

/// Appends the ASID of a fence, if it has one.
fn asid_onto(line: &mut LineText, asid: Option<u16>)
    requires { length line.old ≤ fence_room + 4 + 2 * hex_column_room }
    ensures text { line.new ≡ with_words line.old (asid_words asid) }
    ensures len { length line.new ≤ length line.old + 5 + hex_column_room }
    ensures some { length line.old ≤ length line.new }
{
    if let Some(asid) = asid {
        line.word(b"asid");
        line.hex_column(4, u64::from(asid));
    }
}

/// The name of a hart's state (SBI 9).
fn name(state: HartState) -> &'static [u8]
    ensures name { result.now ≡ state_name state }
    ensures len { length result.now ≤ 15 }
{
    match state {
        HartState::Started => b"STARTED",
        HartState::Stopped => b"STOPPED",
        HartState::StartPending => b"START_PENDING",
        HartState::StopPending => b"STOP_PENDING",
        HartState::Suspended => b"SUSPENDED",
        HartState::SuspendPending => b"SUSPEND_PENDING",
        HartState::ResumePending => b"RESUME_PENDING",
    }
}
