//! What gives bytes, and may fail.
ghost use Rattle.std.specs.Prelude.{◌≡◌, ℕ, ◌^◌, ◌<◌, ◌≤◌, List, Option, length, MatchResult, IfOk};
ghost use Rattle.std.specs.Io.KnownBytes.{ReadConsumes};
ghost use Rattle.printed_lines.specs.Sinks.{CountsCall};

use monitor::Failed;

/// What bytes are read from.
pub trait Source {
    // the bytes that are still to come, where they are known
    ghost left: { Self → Option (List ℕ) };

    // how many calls failed
    ghost failures: { Self → ℕ };

    /// Reads bytes into the front of `buffer`, and answers how many: none into a buffer that has
    /// room only at the end.
    fn read(&mut self, buffer: &mut [u8]) -> Result<usize, Failed>
        requires { failures self.old < 2 ^ 63 }
        ensures bound { IfOk result (λ n. n ≤ length buffer.new) }
        ensures bytes { ReadConsumes (left self.old) (left self.new) result buffer.new }
        ensures failed { CountsCall (failures self.old) (failures self.new) result };

    /// About how many bytes are still to come, or 0 if unknown: only a hint for how much memory to reserve at once.
    fn expected(&self) -> usize {
        0
    }
}
