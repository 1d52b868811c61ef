//! What is read, and the devices behind readers and writers.

ghost use Rattle.std.specs.Prelude.{◌≡◌, ℕ, ◌^◌, ◌<◌, Bool, false, List, Option};
ghost use Rattle.printed_lines.specs.Sinks.{CountsWrite};
ghost use Rattle.script_tasks.specs.Devices.{Counted, HandsOn, HandsOnFlush, HandsOnWrite};

mod pieces;
mod source;

use monitor::{Failed, Sink};
pub use pieces::{ReadFault, read_script};
pub use source::Source;
use std::io::{self, Read, Write};
use std::marker::Model;

/// A reader or a writer of the system. Each call makes one call of it, and returns its answer. It counts failed calls, also
/// those that a signal interrupted, and knows whether a writer was flushed since the last write.
#[derive(Debug, Drop)]
pub struct Device<T> {
    inner: T,
    failures: u64,
    flushed: bool,
    expected: usize,
}

impl<T> Model for Device<T> {
    ghost Value = { Counted T };

    ghost view = { λ d. record { inner = d.inner; failures = d.failures; flushed = d.flushed } };
}

impl<T> Device<T> {
    /// A reader or a writer without failed calls. Earlier writes aren't known to be flushed.
    pub fn new(inner: T) -> Device<T>
        ensures { result ≡ record { inner = inner; failures = 0; flushed = false } }
    {
        Device::expecting(inner, 0)
    }

    /// The same, for a reader that has about this many bytes.
    pub fn expecting(inner: T, expected: usize) -> Device<T>
        ensures { result ≡ record { inner = inner; failures = 0; flushed = false } }
    {
        Device {
            inner,
            failures: 0,
            flushed: false,
            expected,
        }
    }

    /// The reader or the writer.
    pub fn into_inner(self) -> T
        ensures { result ≡ self.inner }
    {
        let Device {
            inner,
            failures: _,
            flushed: _,
            expected: _,
        } = self;
        inner
    }
}

/// Only these functions return what calls of the reader or the writer answered.
impl<T> Device<T> {
    /// Returns what a call answered.
    fn hand_on<A>(&mut self, answer: io::Result<A>) -> Result<A, Failed>
        requires { self.old.failures < 2 ^ 63 }
        ensures { HandsOn self.old self.new answer result }
    {
        match answer {
            Ok(value) => Ok(value),
            Err(_) => {
                self.failures += 1;
                Err(Failed)
            }
        }
    }

    /// Returns what a write of a piece answered.
    fn hand_on_write(&mut self, answer: io::Result<usize>, piece: &[u8]) -> Result<usize, Failed>
        requires { self.old.failures < 2 ^ 63 }
        ensures { HandsOnWrite self.old self.new answer piece.now result }
    {
        let taken = self.hand_on(answer)?;
        if taken == 0 && !piece.is_empty() {
            self.failures += 1;
        }
        Ok(taken)
    }

    /// Returns what a flush answered.
    fn hand_on_flush(&mut self, answer: io::Result<()>) -> Result<(), Failed>
        requires { self.old.failures < 2 ^ 63 }
        ensures handed { HandsOnFlush self.old self.new answer result }
        ensures inner { self.new.inner ≡ self.old.inner }
    {
        match answer {
            Ok(()) => {
                self.flushed = true;
                Ok(())
            }
            Err(error) => self.hand_on(Err(error)),
        }
    }
}

impl<T: Write> Sink for Device<T> {
    ghost written = { λ d. T.contents d.inner };

    ghost is_flushed = { λ d. d.flushed };

    ghost failures = { λ d. d.failures };

    fn write(&mut self, piece: &[u8]) -> Result<usize, Failed> {
        self.flushed = false;
        let answer = self.inner.write(piece);
        self.hand_on_write(answer, piece)
    }

    fn flush(&mut self) -> Result<(), Failed> {
        let answer = self.inner.flush();
        self.hand_on_flush(answer)
    }
}

impl<T: Read> Source for Device<T> {
    ghost left = { λ d. T.remaining d.inner };

    ghost failures = { λ d. d.failures };

    fn read(&mut self, buffer: &mut [u8]) -> Result<usize, Failed> {
        let answer = self.inner.read(buffer);
        self.hand_on(answer)
    }

    fn expected(&self) -> usize {
        self.expected
    }
}
