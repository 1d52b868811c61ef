//! What can be wrong with a statement.

/// What is wrong with a statement.
#[derive(Clone, Copy, PartialEq, Eq)]
pub enum Wrong {
    /// A value is missing: a number, a symbol, or an expression in parentheses.
    NoValue,
    /// A word begins with a digit, but spells no number below 2^64.
    BadNumber,
    /// No label or directive defines this symbol.
    UnknownSymbol,
    /// No function of values is called so: `%hi(..)` and `%lo(..)` are; `%pcrel_hi(..)` is an operand of `auipc`, and `%pcrel_lo(..)` of
    /// what adds 12 bits to a register.
    UnknownFunction,
    /// No `auipc` with `%pcrel_hi(..)` stands at this label.
    NoHighPart,
    /// A parenthesis isn't closed.
    OpenParenthesis,
    /// Too many parentheses and signs stand within one another.
    TooDeep,
    /// A division by 0.
    ByZero,
    /// Something stands behind an operand.
    Behind,
    /// The statement isn't a label, a directive or an instruction.
    NoStatement,
    /// No instruction has this mnemonic.
    UnknownMnemonic,
    /// The instruction isn't obeyed; the table of mnemonics says what to write instead.
    Refused,
    /// No CSR of the board or of guests is called so.
    UnknownCsr,
    /// sip is written otherwise than by `csrc sip, ..`: write `csrr`, then `csrc`.
    SipWrite,
    /// The operands aren't those that the instruction takes.
    BadOperands,
    /// A value doesn't fit into the instruction, or into the bytes of a directive.
    OutOfRange,
    /// The target is too far away, or at an odd address; or LUI can't give the value.
    OutOfReach,
    /// No directive is called so.
    UnknownDirective,
    /// The symbol is defined twice.
    DefinedTwice,
    /// `.org` goes back, or a program is larger than the address space.
    Backwards,
    /// No section is called so: `.text`, `.rodata`, `.data` and `.bss` are.
    UnknownSection,
    /// The letters of `.map` are no leaf: each of r, w, x, g, a and d at most once, with r, or with x and no w.
    BadFlags,
    /// The page is mapped twice under one root, or its root has maps of another mode.
    MappedTwice,
    /// The size of a section depends on where it stands.
    Unsettled,
}

/// What is wrong with a statement, and its place.
#[derive(Clone, Copy, PartialEq, Eq)]
pub struct Fault {
    /// What is wrong.
    pub wrong: Wrong,
    /// The number of bytes from there to the end of the text.
    pub left: usize,
}
