//! A reader and a writer whose calls fail: one of the system, and a source and a sink by itself.

ghost use Rattle.std.specs.Prelude.{◌≡◌, ◌≤◌, IfOk, None, length};

use monitor::{Failed, Sink};
use sbiboard::Source;
use std::alloc::Global;
use std::io::{self, ErrorKind, Read, Write};

/// What a call answers in place of what it would do.
#[derive(Clone, Copy, Debug)]
pub enum Answer {
    /// As many bytes as it moves.
    Moves,
    /// No byte.
    Zero,
    /// A failure.
    Fails(ErrorKind),
}

pub const ANSWERS: [Answer; 5] = [
    Answer::Zero,
    Answer::Fails(ErrorKind::Interrupted),
    Answer::Fails(ErrorKind::WouldBlock),
    Answer::Fails(ErrorKind::OutOfMemory),
    Answer::Fails(ErrorKind::Other),
];

/// Moves a few bytes at a call. One of its calls, from 0, has another answer.
#[derive(Drop)]
pub struct Failing<'a> {
    /// What is to be read.
    pub rest: &'a [u8],
    /// What was written.
    pub taken: Vec<u8>,
    /// How many calls were made: reads, writes and flushes.
    pub calls: u64,
    /// How many of them were flushes.
    pub flushes: u64,
    most: usize,
    at: u64,
    answer: Answer,
    failures: u64,
    flushed: bool,
}

impl Failing<'_> {
    /// With the script to be read, and nothing written.
    pub fn new(
        alloc: Global,
        script: &'static [u8],
        most: usize,
        at: u64,
        answer: Answer,
    ) -> Failing<'static>
        ensures { result.failures ≡ 0 }
    {
        Failing {
            rest: script,
            taken: Vec::new(alloc),
            calls: 0,
            flushes: 0,
            most,
            at,
            answer,
            failures: 0,
            flushed: false,
        }
    }

    /// How many bytes a call moves that has room for `room`.
    fn moves(&mut self, room: usize) -> io::Result<usize>
        ensures { self.new.failures ≡ self.old.failures }
    {
        let call = self.calls;
        self.calls = call.wrapping_add(1);
        match self.answer {
            Answer::Zero if call == self.at => Ok(0),
            Answer::Fails(kind) if call == self.at => Err(io::Error::from(kind)),
            _ => Ok(room.min(self.most)),
        }
    }

    /// Gives the next bytes, or fails where its turn has come.
    fn give(&mut self, buffer: &mut [u8]) -> io::Result<usize>
        ensures bound { IfOk result (λ n. n ≤ length buffer.new) }
        ensures same { self.new.failures ≡ self.old.failures }
    {
        let count = self.moves(buffer.len())?.min(buffer.len());
        let count = count.min(self.rest.len());
        let (front, rest) = self.rest.split_at(count);
        buffer[..count].copy_from_slice(front);
        self.rest = rest;
        Ok(count)
    }

    /// Takes bytes, or fails where its turn has come.
    fn take(&mut self, piece: &[u8]) -> io::Result<usize>
        ensures bound { IfOk result (λ n. n ≤ length piece.now) }
        ensures same { self.new.failures ≡ self.old.failures }
    {
        let count = self.moves(piece.len())?.min(piece.len());
        self.taken.extend_from_slice(&piece[..count])?;
        Ok(count)
    }

    /// Passes on what was taken, or fails where its turn has come.
    fn pass_on(&mut self) -> io::Result<()>
        ensures { self.new.failures ≡ self.old.failures }
    {
        self.flushes = self.flushes.wrapping_add(1);
        let _ = self.moves(0)?;
        Ok(())
    }
}

impl Read for Failing<'_> {
    fn read(&mut self, buffer: &mut [u8]) -> io::Result<usize> {
        self.give(buffer)
    }
}

impl Write for Failing<'_> {
    fn write(&mut self, piece: &[u8]) -> io::Result<usize> {
        self.take(piece)
    }

    fn flush(&mut self) -> io::Result<()> {
        self.pass_on()
    }
}

impl Source for Failing<'_> {
    ghost left = { λ _. None };

    ghost failures = { λ f. f.failures };

    fn read(&mut self, buffer: &mut [u8]) -> Result<usize, Failed> {
        match self.give(buffer) {
            Ok(count) => Ok(count),
            Err(_) => {
                self.failures += 1;
                Err(Failed)
            }
        }
    }
}

impl Sink for Failing<'_> {
    ghost written = { λ _. None };

    ghost is_flushed = { λ f. f.flushed };

    ghost failures = { λ f. f.failures };

    fn write(&mut self, piece: &[u8]) -> Result<usize, Failed> {
        let answer = self.take(piece);
        self.flushed = false;
        match answer {
            Ok(count) => {
                if count == 0 && !piece.is_empty() {
                    self.failures += 1;
                }
                Ok(count)
            }
            Err(_) => {
                self.failures += 1;
                Err(Failed)
            }
        }
    }

    fn flush(&mut self) -> Result<(), Failed> {
        match self.pass_on() {
            Ok(()) => {
                self.flushed = true;
                Ok(())
            }
            Err(_) => {
                self.failures += 1;
                Err(Failed)
            }
        }
    }
}
