//! The machine's instructions that stand for one of the text.
use rv64_instructions::Instruction;

/// The machine's instructions that stand for one of the text, each of 4 bytes.
#[derive(Clone, Copy)]
pub enum Made {
    /// One.
    One(Instruction),
    /// Two.
    Pair(Instruction, Instruction),
    /// The same one so many times: the parts of `li`, each of which gives the whole value (profile).
    Times(u8, Instruction),
}
