//! The lines of boards, steps and cuts, and the words of replies.
ghost use Rattle.std.specs.Prelude.{◌≡◌, ◌+◌, ◌*◌, ◌^◌, ◌<◌, ◌≤◌, ◌∷◌, ◌++◌, length, map, decimal};
ghost use Rattle.std.specs.List.{join_with_byte};
ghost use Rattle.printed_lines.specs.LineText.{arguments_room, decimal_room, hex_room, line_room, op_room, page_room, reply_room, with_words};
ghost use Rattle.printed_lines.specs.Sinks.{Puts};
ghost use Rattle.printed_lines.specs.Words.{bit_of, hex, hex_or_dash, actor_word, board_line_words, event_words, as_line, line_words, op_words, reply_words, said_words, spaces_words};
ghost use Rattle.board_terms.specs.declared.op.Op.TheVariants as ops;
ghost use Rattle.board_terms.specs.declared.op.Op.TheVariants.{Ecall};
ghost use Rattle.script_lines.specs.declared.said.Said.TheVariants.{Entry, Ret, Value};
ghost use Rattle.script_lines.specs.declared.script.Doing.TheVariants.{Cut};

use crate::line_text::LineText;
use crate::page::Page;
use crate::sink::{Failed, Sink, write_all};
use amo::{Amo, AmoName};
use board_terms::{Actor, Config, Op, Refusal, Reply};
use sbi_abi::Regs;
use script_lines::{Doing, OpName, SaidName};

/// Prints the board line.
///
/// # Errors
///
/// A write failed.
pub fn print_head<W: Sink>(config: &Config, sink: &mut W) -> Result<(), Failed>
    requires { W.failures sink.old < 2 ^ 63 }
    ensures { Puts W.written W.failures sink.old sink.new result (as_line (board_line_words config.now)) }
{
    let mut line = LineText::new();
    line.word(b"board");
    line.decimal(config.harts);
    line.decimal(config.pages);
    line.decimal(config.limit);
    line.decimal(config.boot_hart);
    line.hex(config.boot_addr);
    line.hex(config.boot_opaque);
    spaces_onto(&mut line, config);
    line.put(sink)
}

/// Appends the last two numbers of a board, which its line leaves out if they have their defaults.
fn spaces_onto(line: &mut LineText, config: &Config)
    requires { length line.old + 2 * decimal_room ≤ page_room }
    ensures text { line.new ≡ with_words line.old (spaces_words config.now) }
    ensures len { length line.new ≤ length line.old + 2 * decimal_room }
{
    if !config.has_usual_spaces() {
        line.decimal(config.asid_len);
        line.decimal(config.width);
    }
}

/// Prints the line of a step or a cut, with its answer.
///
/// # Errors
///
/// A write failed.
pub fn print_line<W: Sink>(
    doing: Doing,
    answer: Result<Reply, Refusal>,
    sink: &mut W,
) -> Result<(), Failed>
    requires { W.failures sink.old < 2 ^ 63 }
    ensures { Puts W.written W.failures sink.old sink.new result (as_line (line_words doing answer)) }
{
    let mut page = Page::new();
    page.print_line(doing, answer, sink)?;
    page.put(sink)
}

/// Prints only the words of a reply or a refusal, without a line feed.
///
/// # Errors
///
/// A write failed.
pub fn print_reply<W: Sink>(answer: Result<Reply, Refusal>, sink: &mut W) -> Result<(), Failed>
    requires { W.failures sink.old < 2 ^ 63 }
    ensures { Puts W.written W.failures sink.old sink.new result
        (join_with_byte 32 (reply_words answer)) }
{
    let mut line = LineText::new();
    reply_onto(&mut line, answer);
    write_all(sink, line.without_blank())
}

/// Appends the line of a cut, with its answer. (A function of its own, so the code for steps is inlined.)
#[inline(never)]
pub fn cut_onto(line: &mut LineText, answer: Result<Reply, Refusal>)
    requires { length line.old + line_room ≤ page_room }
    ensures text { line.new ≡ line.old ++ as_line (line_words Cut answer) }
    ensures len { length line.new ≤ length line.old + line_room }
{
    line.text(b"cut ->");
    reply_onto(line, answer);
    line.text(b"\n");
}

/// Appends the line of a step, with its answer.
#[inline(always)]
pub fn step_onto(line: &mut LineText, actor: Actor, op: &Op, answer: Result<Reply, Refusal>)
    requires { length line.old + line_room ≤ page_room }
    ensures text { line.new ≡ line.old ++ as_line (event_words actor op.now answer) }
    ensures len { length line.new ≤ length line.old + line_room }
{
    actor_onto(line, actor);
    op_onto(line, op);
    line.word(b"->");
    reply_onto(line, answer);
    line.text(b"\n");
}

/// Appends the word for an actor.
#[inline(always)]
fn actor_onto(line: &mut LineText, actor: Actor)
    requires { length line.old + decimal_room ≤ page_room }
    ensures text { line.new ≡ line.old ++ actor_word actor }
    ensures len { length line.new ≤ length line.old + decimal_room }
{
    match actor {
        Actor::Hart(hart) => line.decimal_digits(hart),
        Actor::Clock => line.text(b"c"),
    }
}

/// Appends an operation's words, each after a blank.
#[inline(always)]
fn op_onto(line: &mut LineText, op: &Op)
    requires { length line.old + op_room ≤ page_room }
    ensures text { line.new ≡ with_words line.old (op_words op.now) }
    ensures len { length line.new ≤ length line.old + op_room }
{
    match op {
        Op::Ecall(regs) => ecall_onto(line, regs),
        Op::Load(va) => hex_onto(line, OpName::Load.word(), *va),
        Op::Store(va, value) => {
            hex_onto(line, OpName::Store.word(), *va);
            line.hex(*value);
        }
        Op::Fetch(va) => hex_onto(line, OpName::Fetch.word(), *va),
        Op::Amo(at, amo) => amo_onto(line, *at, amo),
        Op::WriteSatp(value) => hex_onto(line, OpName::Satp.word(), *value),
        Op::WriteSie(value) => hex_onto(line, OpName::Sie.word(), *value),
        Op::WriteSstatusSie(value) => decimal_onto(line, OpName::Sstatus.word(), bit_of(*value)),
        Op::ReadSip => line.word(OpName::Sip.word()),
        Op::ClearSsip => line.word(OpName::Clearssip.word()),
        Op::Sfence(va, asid) => {
            line.word(OpName::Sfence.word());
            hex_or_dash_onto(line, *va);
            hex_or_dash_onto(line, *asid);
        }
        Op::FenceI => line.word(OpName::Fencei.word()),
        Op::Wfi => line.word(OpName::Wfi.word()),
        Op::Poll => line.word(OpName::Poll.word()),
        Op::Serve => line.word(OpName::Serve.word()),
        Op::Advance => line.word(OpName::Advance.word()),
        Op::Tick(n) => hex_onto(line, OpName::Tick.word(), *n),
    }
}

/// Appends an operation on the word around its address.
#[inline(never)]
fn amo_onto(line: &mut LineText, at: u64, amo: &Amo)
    requires { length line.old + op_room ≤ page_room }
    ensures text { line.new ≡ with_words line.old (op_words (ops.Amo at amo.now)) }
    ensures len { length line.new ≤ length line.old + op_room }
{
    line.word(OpName::Amo(AmoName::of(*amo)).word());
    line.hex(at);
    match amo {
        Amo::Double(_, n) | Amo::Half(_, n) => line.hex(*n),
        Amo::Store1(n) | Amo::Store2(n) | Amo::Store4(n) => line.hex(*n),
        Amo::Cas(expected, value) => {
            line.hex(*expected);
            line.hex(*value);
        }
    }
}

/// Appends a call. (A function of its own, so only it reads the registers.)
#[inline(never)]
fn ecall_onto(line: &mut LineText, regs: &Regs)
    requires { length line.old + op_room ≤ page_room }
    ensures text { line.new ≡ with_words line.old (op_words (Ecall regs.now)) }
    ensures len { length line.new ≤ length line.old + op_room }
{
    line.word(OpName::Ecall.word());
    line.hex(regs.eid);
    line.hex(regs.fid);
    arguments_onto(line, &regs.a);
}

/// Appends a name and a number in hexadecimal digits.
#[inline(always)]
fn hex_onto(line: &mut LineText, name: &[u8], n: u64)
    requires name { length name.now ≤ 9 }
    requires room { length line.old + 10 + hex_room ≤ page_room }
    ensures text { line.new ≡ (line.old ++ 32 ∷ name.now) ++ 32 ∷ hex n }
    ensures len { length line.new ≤ length line.old + 10 + hex_room }
{
    line.word(name);
    line.hex(n);
}

/// Appends a name and a number in decimal digits.
#[inline(always)]
fn decimal_onto(line: &mut LineText, name: &[u8], n: u64)
    requires name { length name.now ≤ 9 }
    requires room { length line.old + 10 + decimal_room ≤ page_room }
    ensures text { line.new ≡ (line.old ++ 32 ∷ name.now) ++ 32 ∷ decimal n }
    ensures len { length line.new ≤ length line.old + 10 + decimal_room }
{
    line.word(name);
    line.decimal(n);
}

/// Appends a number, or a dash if it is absent.
fn hex_or_dash_onto(line: &mut LineText, n: Option<u64>)
    requires { length line.old + hex_room ≤ page_room }
    ensures text { line.new ≡ line.old ++ 32 ∷ hex_or_dash n }
    ensures len { length line.new ≤ length line.old + hex_room }
{
    match n {
        Some(n) => line.hex(n),
        None => line.word(b"-"),
    }
}

/// Appends the words of a reply or a refusal, each after a blank.
#[inline(always)]
fn reply_onto(line: &mut LineText, answer: Result<Reply, Refusal>)
    requires { length line.old + reply_room ≤ page_room }
    ensures text { line.new ≡ with_words line.old (reply_words answer) }
    ensures len { length line.new ≤ length line.old + reply_room }
    ensures some { 0 < length line.new }
{
    match answer {
        Ok(Reply::Ret(answer)) => ret_onto(line, answer.error, answer.value),
        Ok(Reply::Waiting) => line.word(SaidName::Waiting.word()),
        Ok(Reply::Gone) => line.word(SaidName::Gone.word()),
        Ok(Reply::Entry { addr, hart, opaque }) => entry_onto(line, addr, hart, opaque),
        Ok(Reply::Value(value)) => value_onto(line, value),
        Ok(Reply::Fault(cause)) => decimal_onto(line, SaidName::Fault.word(), cause.number()),
        Ok(Reply::Served) => line.word(SaidName::Served.word()),
        Ok(Reply::Moved(state)) => decimal_onto(line, SaidName::Moved.word(), state.number()),
        Ok(Reply::Done) => line.word(SaidName::Done.word()),
        Err(refusal) => decimal_onto(line, SaidName::Refused.word(), refusal.number()),
    }
}

/// Appends what a call returned. (Each reply with long numbers has a function of its own, so the code for the others is
/// inlined.)
#[inline(never)]
fn ret_onto(line: &mut LineText, error: i64, value: u64)
    requires { length line.old + reply_room ≤ page_room }
    ensures text { line.new ≡ with_words line.old (said_words (Ret error value)) }
    ensures len { length line.new ≤ length line.old + reply_room }
{
    line.word(SaidName::Ret.word());
    line.signed(error);
    line.hex(value);
}

/// Appends the value that was read.
#[inline(never)]
fn value_onto(line: &mut LineText, value: u64)
    requires { length line.old + reply_room ≤ page_room }
    ensures text { line.new ≡ with_words line.old (said_words (Value value)) }
    ensures len { length line.new ≤ length line.old + reply_room }
{
    hex_onto(line, SaidName::Value.word(), value);
}

/// Appends an entry.
#[inline(never)]
fn entry_onto(line: &mut LineText, addr: u64, hart: u64, opaque: u64)
    requires { length line.old + reply_room ≤ page_room }
    ensures text { line.new ≡ with_words line.old (said_words (Entry addr hart opaque)) }
    ensures len { length line.new ≤ length line.old + reply_room }
{
    line.word(SaidName::Entry.word());
    line.hex(addr);
    line.decimal(hart);
    line.hex(opaque);
}

/// A bit: 1 for true.
pub fn bit_of(value: bool) -> u64
    ensures { result ≡ bit_of value }
{
    u64::from(value)
}

/// Appends the arguments of a call. In most calls all but the first two are 0.
fn arguments_onto(line: &mut LineText, arguments: &[u64; 6])
    requires { length line.old + arguments_room ≤ page_room }
    ensures text { line.new ≡ with_words line.old (map hex arguments.now) }
    ensures len { length line.new ≤ length line.old + arguments_room }
{
    let [a0, a1, a2, a3, a4, a5] = *arguments;
    line.hex(a0);
    line.hex(a1);
    if a2 == 0 && a3 == 0 && a4 == 0 && a5 == 0 {
        line.text(b" 0x0 0x0 0x0 0x0");
    } else {
        line.hex(a2);
        line.hex(a3);
        line.hex(a4);
        line.hex(a5);
    }
}
