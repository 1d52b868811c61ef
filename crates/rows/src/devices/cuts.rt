//! Scripts that are cut anywhere, at once and in pieces, and scripts at the limit of their length.

ghost use Rattle.std.specs.Prelude.{◌≤◌, length, take};
ghost use Rattle.guest_script.specs.Pieces.{AreWhole};

use crate::judging::{ScriptTask, judged};
use anyhow::{Result, ensure};
use guest_script::{Reader, parse};
use sbiboard::{Device, Outcome};
use std::alloc::Global;
use std::io::{self, Read};

/// A script of each kind, of few bytes.
const CUT: [(&str, &[u8]); 3] = [
    (
        "schedule",
        b"board 1 1 10 0 0x80000000 0x0\n0 advance\n0 ecall 0x10 0\n",
    ),
    (
        "program",
        b"board 1 1 10 0 0x80000000 0x0\nat 0x80000000\nsip\nclock\ntick 3\n",
    ),
    (
        "trace",
        b"board 1 1 10 0 0x80000000 0x0\n0 advance -> entry 0x80000000 0 0\nc tick 3 -> done\n",
    ),
];

/// How many bytes a script may have.
const MOST_BYTES: usize = 16_777_216;

/// What is answered of bytes: a script, or its fault.
fn said(alloc: Global, bytes: &[u8]) -> Result<String> {
    match parse(alloc, bytes) {
        Ok(_) => Ok(format!(in alloc; "a script")?),
        Err(fault) => Ok(format!(in alloc; "line {}, fault {}", fault.line, fault.fault.number())?),
    }
}

/// Shows what each beginning of each script answers.
pub fn show_cuts<R: AllocGlobal + Print>(rt: &R) -> Result<()> {
    for (name, whole) in CUT {
        show_cut(rt, name, whole)?;
    }
    Ok(())
}

/// Prints the answer to each beginning of a script, grouped by equal answers. In whatever pieces of whole lines a reader gets
/// one, it answers the same script or the same fault.
fn show_cut<R: AllocGlobal + Print>(rt: &R, name: &str, whole: &[u8]) -> Result<()> {
    let mut first = 0;
    for size in 0..=whole.len() {
        check_pieces(rt.alloc(), &whole[..size])?;
        let answer = told(rt.alloc(), &whole[..size])?;
        let longer = size.saturating_add(1);
        let next = told(rt.alloc(), &whole[..longer.min(whole.len())])?;
        if size == whole.len() || next != answer {
            println!(rt; "{name}, {first} to {size} bytes: {answer}")?;
            first = longer;
        }
    }
    Ok(())
}

/// What is answered of bytes, and how their replay and their check end, which are the same in every two pieces. A fault is
/// one whatever is done with the script.
fn told(alloc: Global, bytes: &[u8]) -> Result<String> {
    let [replayed, checked] = [
        ended_in_two(alloc, bytes, ScriptTask::Replay)?,
        ended_in_two(alloc, bytes, ScriptTask::Check)?,
    ];
    match parse(alloc, bytes) {
        Ok(_) => Ok(format!(in alloc; "a script; replayed: {replayed}; checked: {checked}")?),
        Err(fault) => {
            let (line, number) = (fault.line, fault.fault.number());
            let wanted = Outcome::Script { line, number };
            ensure!(
                replayed == wanted && checked == wanted,
                "{replayed}, {checked}"
            );
            said(alloc, bytes)
        }
    }
}

/// How a replay or a check of bytes ends, the same for every two pieces.
fn ended_in_two(alloc: Global, bytes: &[u8], task: ScriptTask) -> Result<Outcome> {
    let (outcome, printed) = ended(alloc, b"", bytes, task);
    for at in 1..bytes.len() {
        let parted = ended(alloc, &bytes[..at], &bytes[at..], task);
        ensure!(
            parted.0 == outcome && parted.1 == printed,
            "parted at {at}: {}",
            parted.0
        );
    }
    Ok(outcome)
}

/// How a replay or a check ends of bytes that come in two pieces, and what it prints.
fn ended(alloc: Global, front: &[u8], rest: &[u8], task: ScriptTask) -> (Outcome, Vec<u8>) {
    let mut reader = Device::new(front.chain(rest));
    let mut writer = Device::new(Vec::new(alloc));
    let outcome = judged(alloc, task, &mut reader, &mut writer);
    (outcome, writer.into_inner())
}

/// A reader answers the same, at whichever line feed its pieces are parted.
fn check_pieces(alloc: Global, bytes: &[u8]) -> Result<()> {
    let whole = format!(in alloc; "{:?}", parse(alloc, bytes))?;
    let feeds = bytes.iter().filter(|byte| **byte == b'\n').count();
    for chosen in 0..1_u64 << feeds.min(8) {
        let parted = read_in_pieces(alloc, bytes, chosen)?;
        ensure!(
            parted == whole,
            "parted at {chosen:#b}: {parted}, not {whole}"
        );
    }
    Ok(())
}

/// What a reader answers to a piece up to each chosen line feed, and at the end the rest.
fn read_in_pieces(alloc: Global, bytes: &[u8], chosen: u64) -> Result<String> {
    let mut reader = Reader::expecting(0);
    let mut piece = Vec::new(alloc);
    for (place, line) in bytes.split_inclusive(|byte| *byte == b'\n').enumerate() {
        piece.extend_from_slice(line)?;
        if line.ends_with(b"\n") && place < 64 && chosen >> place & 1 == 1 {
            reader = reader.read(alloc, whole_lines(&piece))?;
            piece.clear();
        }
    }
    Ok(format!(in alloc; "{:?}", reader.end(alloc, &piece))?)
}

/// The bytes up to their last line feed.
fn whole_lines(bytes: &[u8]) -> &[u8]
    ensures { AreWhole result.now }
{
    let mut front = bytes;
    while let [rest @ .., last] = front {
        if *last == b'\n' {
            return front;
        }
        front = rest;
    }
    front
}

/// This many equal bytes.
fn filled(alloc: Global, size: usize, byte: u8) -> io::Result<Vec<u8>> {
    let mut bytes = Vec::new(alloc);
    bytes.resize(size, byte)?;
    Ok(bytes)
}

/// Shows what is answered of as many bytes as a script may have, and of one more; and of a byte that none may have.
pub fn show_lengths<R: AllocGlobal + Print>(rt: &R) -> Result<()> {
    let alloc = rt.alloc();
    for more in [0, 1] {
        let blanks = filled(alloc, MOST_BYTES + more, b' ')?;
        println!(rt; "{} blanks: {}", blanks.len(), said(alloc, &blanks)?)?;
    }
    let odd = b"board 1 1 10 0 0x80000000 0x0\n0 advance\n# \x80\n0 sip\n";
    println!(rt; "a byte 0x80 in a comment: {}", said(alloc, odd)?)?;
    Ok(())
}
