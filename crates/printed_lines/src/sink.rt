//! Sinks of bytes, whose writes can fail.
ghost use Rattle.std.specs.Prelude.{◌≡◌, ℕ, ◌^◌, ◌<◌, ◌≤◌, Bool, true, false, List, Option, length, IfOk, OnOk};
ghost use Rattle.std.specs.Io.KnownBytes.{Keeps, WriteAppends};
ghost use Rattle.printed_lines.specs.Sinks.{CountsCall, CountsWrite, Puts};

use thiserror::Error;

/// A write or a read failed.
#[derive(Clone, Copy, Debug, PartialEq, Eq, Error)]
#[error("input or output failed")]
pub struct Failed;

/// A sink, to which bytes are written.
pub trait Sink {
    // the bytes that were taken, if they are known
    ghost written: { Self → Option (List ℕ) };

    // whether it was flushed since the last write, so that it holds back no byte
    ghost is_flushed: { Self → Bool };

    // the number of calls that failed
    ghost failures: { Self → ℕ };

    /// Takes bytes from the front of `piece`, and returns their number. It can hold them back until the next flush.
    ///
    /// # Errors
    ///
    /// The write failed. Taking none of a non-empty piece counts as a failure too.
    fn write(&mut self, piece: &[u8]) -> Result<usize, Failed>
        requires { failures self.old < 2 ^ 63 }
        ensures bound { IfOk result (λ n. n ≤ length piece.now) }
        ensures taken { WriteAppends (written self.old) (written self.new) result piece.now }
        ensures unflushed { is_flushed self.new ≡ false }
        ensures failed { CountsWrite (failures self.old) (failures self.new) result piece.now };

    /// Passes on the bytes that the sink holds back.
    ///
    /// # Errors
    ///
    /// The flush failed.
    fn flush(&mut self) -> Result<(), Failed>
        requires { failures self.old < 2 ^ 63 }
        ensures bytes { Keeps (written self.old) (written self.new) }
        ensures flushed { OnOk result (is_flushed self.new ≡ true) }
        ensures failed { CountsCall (failures self.old) (failures self.new) result };
}

/// Writes the whole piece.
///
/// # Errors
///
/// A write failed, or took no byte.
pub fn write_all<W: Sink>(sink: &mut W, piece: &[u8]) -> Result<(), Failed>
    requires { W.failures sink.old < 2 ^ 63 }
    ensures { Puts W.written W.failures sink.old sink.new result piece.now }
{
    let mut rest = piece;
    while !rest.is_empty() {
        let taken = sink.write(rest)?;
        if taken == 0 {
            return Err(Failed);
        }
        rest = &rest[taken..];
    }
    Ok(())
}
