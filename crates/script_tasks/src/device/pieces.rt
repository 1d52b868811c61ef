//! A script, read from a device in pieces of whole lines.
ghost use Rattle.std.specs.Prelude.{◌≡◌, ◌==◌, ◌+◌, ◌-◌, ◌^◌, ◌<◌, ◌≤◌, ℕ, List, Option, drop, length, take, vec_len, [], IfErr, IfOk, not, true};
ghost use Rattle.std.specs.List.{list_all};
ghost use Rattle.std.specs.Io.KnownBytes.{IsAtEnd};
ghost use Rattle.guest_script.specs.Pieces.{AreWhole, HasRead};
ghost use Rattle.printed_lines.specs.Sinks.{CountsCall};
ghost use Rattle.script_tasks.specs.Sources.{CountsReading, HasTaken, HasTakenAll, Lacks, ReadsBehind, ReadsScript, ReadsUpTo, read_limit};
ghost use Rattle.script_tasks.specs.declared.device.pieces.ReadFault.TheVariants.{Failed as ReadFailed, Script as NoScript};
ghost use Rattle.guest_script.specs.FirstFault.{no_memory};

use super::source::Source;
use guest_script::{FaultKind, Reader, Script, ScriptFault};
use monitor::Failed;
use std::alloc::{AllocError, Global};
use thiserror::Error;

/// One byte more than a script may have.
const READ_LIMIT: usize = 16_777_217;

/// How many bytes there is room for; more where a line is longer.
const PIECE: usize = 65_536;

/// Why no script was read.
#[derive(Clone, Copy, Debug, PartialEq, Eq, Error)]
pub enum ReadFault {
    /// A call failed.
    #[error("input failed")]
    Failed,
    /// The bytes are no script, or memory was refused.
    #[error("{0}")]
    Script(ScriptFault),
}

impl From<Failed> for ReadFault {
    ghost from_gives = { λ _ fault. fault ≡ ReadFailed };

    fn from(_failed: Failed) -> ReadFault {
        ReadFault::Failed
    }
}

impl From<ScriptFault> for ReadFault {
    ghost from_gives = { λ found fault. fault ≡ NoScript found };

    fn from(found: ScriptFault) -> ReadFault {
        ReadFault::Script(found)
    }
}

impl From<AllocError> for ReadFault {
    ghost from_gives = { λ _ fault. fault ≡ NoScript no_memory };

    fn from(_refused: AllocError) -> ReadFault {
        ReadFault::Script(ScriptFault {
            line: 0,
            fault: FaultKind::NoMemory,
        })
    }
}

/// Reads a script to its end, piece by piece, and keeps only its lines. It reads at most 16,777,217 bytes, also if a read
/// fails, and goes on to the end after a fault.
///
/// # Errors
///
/// A read failed, or the bytes have a fault, or memory was refused.
pub fn read_script<S: Source>(alloc: Global, source: &mut S) -> Result<Script, ReadFault>
    requires { S.failures source.old < 2 ^ 63 }
    ensures script { ReadsScript (S.left source.old) result }
    ensures at_most { ReadsUpTo read_limit (S.left source.old) (S.left source.new) }
    ensures end { IfOk result (λ _. IsAtEnd (S.left source.new)) }
    ensures failed { CountsReading (S.failures source.old) (S.failures source.new) result }
{
    let reader = Reader::expecting(source.expected());
    let mut bytes = Vec::new(alloc);
    bytes.resize(PIECE, 0)?;
    let read = read_pieces(alloc, source, reader, &mut bytes)?;
    Ok(read.0.end(alloc, &bytes[..read.1])?)
}

/// Passes all lines of a source to the reader, except the bytes behind the last line feed, which are moved to the front.
/// Returns the reader, and how many bytes these are.
fn read_pieces<S: Source>(
    alloc: Global,
    source: &mut S,
    reader: Reader,
    bytes: &mut Vec<u8>,
) -> Result<(Reader, usize), ReadFault>
    requires counts { S.failures source.old < 2 ^ 63 }
    requires nothing { HasRead reader [] }
    requires room { 0 < vec_len bytes.old }
    ensures taken { IfOk result
        (λ read. HasTakenAll (S.left source.old) (S.left source.new) read.0 (take read.1 bytes.new.items)) }
    ensures within { IfOk result (λ read. read.1 ≤ vec_len bytes.new) }
    ensures lacks { IfErr result Lacks }
    ensures at_most { ReadsUpTo read_limit (S.left source.old) (S.left source.new) }
    ensures failed { CountsReading (S.failures source.old) (S.failures source.new) result }
{
    let mut reader = reader;
    let mut pending = 0;
    let mut left = READ_LIMIT;
    while left > 0 {
        let count = read_behind(source, bytes, pending, left)?;
        if count == 0 {
            return Ok((reader, pending));
        }
        left -= count;
        let handed = give_lines(alloc, reader, bytes, pending, pending + count)?;
        reader = handed.0;
        pending = handed.1;
    }
    Ok((reader, pending))
}

/// Reads once, at most this many bytes, behind the first `pending` ones. Returns how many came.
fn read_behind<S: Source>(
    source: &mut S,
    bytes: &mut Vec<u8>,
    pending: usize,
    most: usize,
) -> Result<usize, ReadFault>
    requires counts { S.failures source.old < 2 ^ 63 }
    requires within { pending ≤ vec_len bytes.old }
    requires some { 0 < vec_len bytes.old }
    requires most { 0 < most }
    ensures fits { IfOk result (λ count. pending + count ≤ vec_len bytes.new) }
    ensures most { IfOk result (λ count. count ≤ most) }
    ensures bytes { IfOk result
        (λ count. ReadsBehind pending (S.left source.old) (S.left source.new) bytes.old.items bytes.new.items count) }
    ensures lacks { IfErr result Lacks }
    ensures at_most { ReadsUpTo most (S.left source.old) (S.left source.new) }
    ensures end { IfOk result (λ count. count ≡ 0 → IsAtEnd (S.left source.new)) }
    ensures failed { CountsReading (S.failures source.old) (S.failures source.new) result }
{
    if pending == bytes.len() {
        bytes.resize(pending.saturating_mul(2), 0)?;
    }
    let end = bytes.len().min(pending.saturating_add(most));
    Ok(read_at(source, bytes.as_mut_slice(), pending, end)?)
}

/// Reads once into the bytes from `at` to `end`. Returns how many came.
fn read_at<S: Source>(
    source: &mut S,
    bytes: &mut [u8],
    at: usize,
    end: usize,
) -> Result<usize, Failed>
    requires counts { S.failures source.old < 2 ^ 63 }
    requires room { at < end }
    requires within { end ≤ length bytes.old }
    ensures len { length bytes.new ≡ length bytes.old }
    ensures fits { IfOk result (λ count. at + count ≤ end) }
    ensures bytes { IfOk result
        (λ count. ReadsBehind at (S.left source.old) (S.left source.new) bytes.old bytes.new count) }
    ensures at_most { ReadsUpTo (end - at) (S.left source.old) (S.left source.new) }
    ensures end { IfOk result (λ count. count ≡ 0 → IsAtEnd (S.left source.new)) }
    ensures failed { CountsCall (S.failures source.old) (S.failures source.new) result }
{
    source.read(&mut bytes[at..end])
}

/// Passes the whole lines of the first `filled` bytes to the reader. Returns the reader, and how many bytes are left, which are
/// moved to the front. There is no line feed among those up to `from`.
fn give_lines(
    alloc: Global,
    reader: Reader,
    bytes: &mut Vec<u8>,
    from: usize,
    filled: usize,
) -> Result<(Reader, usize), AllocError>
    requires from { from ≤ filled }
    requires within { filled ≤ vec_len bytes.old }
    ensures len { vec_len bytes.new ≡ vec_len bytes.old }
    ensures fits { IfOk result (λ handed. handed.1 ≤ filled) }
    ensures taken { (old new : Option (List ℕ)) → (count : ℕ)
        → HasTaken old new reader (take filled bytes.old.items) count
        → IfOk result (λ handed. HasTaken old new handed.0 (take handed.1 bytes.new.items) count) }
{
    let lines = whole_lines(&bytes[from..filled]);
    if lines == 0 {
        return Ok((reader, filled));
    }
    let end = from + lines;
    let reader = reader.read(alloc, &bytes[..end])?;
    bytes.copy_within(end..filled, 0);
    Ok((reader, filled - end))
}

/// How many of the bytes are whole lines: those up to the last line feed.
fn whole_lines(bytes: &[u8]) -> usize
    ensures whole { AreWhole (take result bytes.now) }
    ensures within { result ≤ length bytes.now }
    ensures last { list_all (λ b. not (b == 10)) (drop result bytes.now) ≡ true }
{
    let mut front = bytes;
    while let [rest @ .., last] = front {
        if *last == b'\n' {
            return front.len();
        }
        front = rest;
    }
    0
}
