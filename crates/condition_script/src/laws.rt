//! The law of reading.
ghost use Rattle.std.specs.Prelude.{ℕ, List};
ghost use Rattle.condition_script.specs.FirstFault.{HasOneReading};

/// Bytes have at most one list of conditions, at most one first line that can't be read, and never both.
pub fn one_reading()
    ensures { (bytes : List ℕ) → HasOneReading bytes }
{}
