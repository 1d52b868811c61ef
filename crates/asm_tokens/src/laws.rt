//! Laws of tokens.
ghost use Rattle.std.specs.Prelude.{ℕ, List};
ghost use Rattle.asm_tokens.specs.Readings.{HasOneRow};

/// A text has one row of tokens, or one first fault. A law: there is nothing to run.
pub fn one_row()
    ensures { (text : List ℕ) → HasOneRow text }
{}
