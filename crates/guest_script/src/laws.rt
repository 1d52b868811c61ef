//! Laws of scripts: one reading, and where a first fault is.
ghost use Rattle.std.specs.Prelude.{◌≡◌, ℕ, List, Some};
ghost use Rattle.guest_script.specs.declared.fault.ScriptFault.{ScriptFault};
ghost use Rattle.guest_script.specs.FirstFault.{first_fault};
ghost use Rattle.guest_script.specs.ScriptLaws.{HasOneReading, IsPlaced};

/// Bytes are at most one script, and they are one if and only if there is no first fault.
pub fn one_reading()
    ensures { (bytes : List ℕ) → HasOneReading bytes }
{}

/// A first fault is at the first line after which the lines can't be a script's: the lines before it can. Its line is 0 if the
/// script is too long, or no line has words.
pub fn faults_are_first()
    ensures { (bytes : List ℕ) (e : ScriptFault) → first_fault bytes ≡ Some e → IsPlaced bytes e }
{}
