//! Laws of programs.
ghost use Rattle.std.specs.Prelude.{ℕ, List};
ghost use Rattle.asm_program.specs.Laws.{HasOneAssembly};

use asm_tokens::one_row;

/// A text says one program, or it has one first fault. A law: there is nothing to run.
pub fn one_assembly()
    ensures { (text : List ℕ) → HasOneAssembly text }
{
    one_row();
}
