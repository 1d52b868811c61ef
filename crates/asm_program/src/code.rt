//! The instructions of a program.
ghost use Rattle.std.specs.Prelude.{◌≡◌, ◌++◌, OnOk};
ghost use Rattle.asm_program.specs.Code.{copies, code_lines};

use asm_instructions::Made;
use rv64_instructions::Instruction;
use std::alloc::AllocError;

/// An instruction at its address.
#[derive(Clone, Copy)]
pub struct CodeLine {
    /// The address.
    pub at: u64,
    /// The instruction.
    pub instruction: Instruction,
    /// The number of bytes from its mnemonic to the end of the text.
    pub left: usize,
}

/// Adds the machine's instructions that stand for one of the text.
pub(crate) fn add_lines(
    lines: &mut Vec<CodeLine>,
    made: Made,
    at: u64,
    left: usize,
) -> Result<(), AllocError>
    ensures { OnOk result (lines.new.items ≡ lines.old.items ++ code_lines made at left) }
{
    match made {
        Made::One(instruction) => add_copies(lines, 1, &instruction, at, left),
        Made::Pair(first, second) => {
            add_copies(lines, 1, &first, at, left)?;
            add_copies(lines, 1, &second, at.wrapping_add(4), left)
        }
        Made::Times(count, instruction) => add_copies(lines, count, &instruction, at, left),
    }
}

/// Adds so many copies of an instruction.
fn add_copies(
    lines: &mut Vec<CodeLine>,
    count: u8,
    instruction: &Instruction,
    at: u64,
    left: usize,
) -> Result<(), AllocError>
    ensures { OnOk result (lines.new.items ≡ lines.old.items ++ copies count instruction.now at left) }
{
    let mut next = at;
    for _copy in 0..count {
        lines.push(CodeLine {
            at: next,
            instruction: *instruction,
            left,
        })?;
        next = next.wrapping_add(4);
    }
    Ok(())
}
