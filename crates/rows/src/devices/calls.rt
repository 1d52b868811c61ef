//! Devices over readers and writers that move a few bytes at a call, or fail.

use crate::devices::failing::{ANSWERS, Answer, Failing};
use crate::devices::failures::{LibraryTask, SCHEDULE};
use crate::judging::{ScriptTask, judged};
use anyhow::{Result, ensure};
use monitor::{Failed, Sink};
use sbiboard::{Device, Outcome, Source};
use std::alloc::Global;
use std::io;

/// What a read into five bytes answers, how many calls were made, and how much is left.
fn read_once(alloc: Global, most: usize, answer: Answer) -> (Result<usize, Failed>, u64, usize) {
    let mut device = Device::new(Failing::new(alloc, SCHEDULE, most, 0, answer));
    let answer = device.read(&mut [0; 5]);
    let system = device.into_inner();
    (answer, system.calls, system.rest.len())
}

/// What a write answers, how many calls were made, and how much was taken.
fn write_once(
    alloc: Global,
    piece: &[u8],
    most: usize,
    answer: Answer,
) -> (Result<usize, Failed>, u64, usize) {
    let mut device = Device::new(Failing::new(alloc, SCHEDULE, most, 0, answer));
    let answer = device.write(piece);
    let system = device.into_inner();
    (answer, system.calls, system.taken.len())
}

/// What a flush answers, how many calls were made, and how many of them were flushes.
fn flush_once(alloc: Global, answer: Answer) -> (Result<(), Failed>, u64, u64) {
    let mut device = Device::new(Failing::new(alloc, SCHEDULE, 5, 0, answer));
    let answer = device.flush();
    let system = device.into_inner();
    (answer, system.calls, system.flushes)
}

/// Prints what each call of a device answers, and how many calls of the system it makes.
pub fn show_calls<R: AllocGlobal + Print>(rt: &R) -> io::Result<()> {
    let alloc = rt.alloc();
    for most in [0, 1, 3, 5, 64] {
        let read = read_once(alloc, most, Answer::Moves);
        let written = write_once(alloc, b"bytes", most, Answer::Moves);
        println!(rt; "{most}: {read:?} {written:?}")?;
    }
    let empty = write_once(alloc, b"", 5, Answer::Moves);
    let flushed = flush_once(alloc, Answer::Moves);
    println!(rt; "empty: {empty:?} flush: {flushed:?}")?;
    for answer in ANSWERS {
        let read = read_once(alloc, 5, answer);
        let written = write_once(alloc, b"bytes", 5, answer);
        let flushed = flush_once(alloc, answer);
        println!(rt; "{answer:?}: {read:?} {written:?} {flushed:?}")?;
    }
    Ok(())
}

/// The schedule with comments of a length, one behind its board line and one at its end.
fn commented(alloc: Global, length: usize) -> Result<Vec<u8>> {
    let mut comment = Vec::new(alloc);
    comment.resize(length, b'#')?;
    let mut script = Vec::new(alloc);
    script.extend_from_slice(&SCHEDULE[..27])?;
    script.extend_from_slice(&comment)?;
    script.extend_from_slice(b"\n")?;
    script.extend_from_slice(&SCHEDULE[27..])?;
    script.extend_from_slice(&comment)?;
    Ok(script)
}

/// A schedule is replayed alike whose second line is a comment of any length, as no fault is, behind its end, and however
/// many bytes are expected. What has no end is too long.
pub fn show_pieces<R: AllocGlobal + Print>(rt: &R) -> Result<()> {
    let alloc = rt.alloc();
    let text = LibraryTask::Replay.text();
    for length in [0, 1, 65_000, 65_508, 65_509, 65_510, 65_536, 200_000] {
        let script = commented(alloc, length)?;
        for expected in [0, 1, 62, usize::MAX] {
            let mut reader = Device::expecting(script.as_slice(), expected);
            let mut writer = Device::new(Vec::new(alloc));
            let outcome = judged(alloc, ScriptTask::Replay, &mut reader, &mut writer);
            let is_right = outcome == Outcome::Good && writer.into_inner().as_slice() == text;
            ensure!(is_right, "{length}, {expected}: {outcome}");
        }
    }
    let mut endless = Device::new(io::repeat(b'#'));
    let outcome = judged(
        alloc,
        ScriptTask::Replay,
        &mut endless,
        &mut Device::new(Vec::new(alloc)),
    );
    println!(rt; "endless: {outcome:?}")?;
    Ok(())
}
