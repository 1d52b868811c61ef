//! Reads a program in assembly, its board and its conditions.
use crate::ends::{EndCondition, end_conditions};
use crate::loader::with_loader;
use crate::naming::{Machine, bad_numbered, has_machine, with_numbers};
use crate::reading::{Unloaded, unread};
use crate::sources::{SourceFile, Sources};
use asm_program::{
    Assembly, AssemblyError, CodeLine, Datum, ProgramFault, ProgramWrong, assemble_text,
};
use asm_tokens::TextPlace;
use board_core::{Config, USUAL_ASID_LEN, USUAL_WIDTH};
use conditions::{Condition, Wrong, conditions};
use diagnostics::said;
use marked_conditions::asks_of_marks;
use rv64_instructions::{Instruction, Register};
use std::alloc::{AllocError, Global};
use std::str;

/// A program that can be explored.
#[derive(Drop)]
pub(crate) struct Loaded<'a> {
    /// What its text says.
    pub(crate) program: Assembly<'a>,
    /// Its board's numbers.
    pub(crate) config: Config,
    /// Its conditions.
    pub(crate) conditions: Vec<Condition>,
    /// Those on the ends of all orders.
    pub(crate) ends: Vec<EndCondition>,
    /// Whether its board has any TLBs that the standard allows.
    pub(crate) any_tlb: bool,
}

/// The program that files say, with its board, and the conditions of its own file.
pub(crate) fn load<'a>(alloc: Global, sources: &'a Sources) -> Result<Loaded<'a>, Unloaded> {
    let mut program = match assemble_text(alloc, &sources.text) {
        Ok(program) => program,
        Err(AssemblyError::Faulty(fault)) => return Err(faulty(alloc, sources, fault)?),
        Err(AssemblyError::NoMemory) => return Err(Unloaded::NoMemory),
    };
    let name = sources.name();
    let Some(board) = board_of(program.data.as_slice()) else {
        return Err(unread(
            alloc,
            name,
            "it needs one board: .board HARTS, PAGES, LIMIT, BOOTHART, BOOTADDR, BOOTOPAQUE",
        )?);
    };
    let has_begin = program.code.iter().any(|line| line.at == board.boot_addr);
    if has_machine(sources.own(), Machine::WfiReturns) {
        return_from_wfi(&mut program.code);
    }
    let config = with_loader(alloc, name, &mut program, board)?;
    let conditions = asked(alloc, sources, &program)?;
    if board.is_good() && !has_begin {
        return Err(without_begin(alloc, name, board.boot_addr)?);
    }
    let ends = end_conditions(alloc, sources.own())?;
    let any_tlb = has_machine(sources.own(), Machine::AnyTlb);
    if any_tlb && let Some(why) = bad_for_any_tlb(alloc, &program.code, &conditions, &ends)? {
        return Err(Unloaded::File(format!(in alloc; "{name}{why}")?));
    }
    Ok(Loaded {
        program,
        config,
        conditions,
        ends,
        any_tlb,
    })
}

/// What a program with any TLBs can't have, if it has that: a condition on marks, which are of this board's TLB entries, or on what
/// ends leave, or a fetch.
fn bad_for_any_tlb(
    alloc: Global,
    code: &[CodeLine],
    conditions: &[Condition],
    ends: &[EndCondition],
) -> Result<Option<String>, AllocError> {
    if let Some(condition) = ends.first() {
        let line = condition.line;
        let why = format!(in alloc;
            ": line {line}: with 'any tlb' no condition is 'exists' or 'forall': ask it in a file without"
        )?;
        return Ok(Some(why));
    }
    for condition in conditions {
        if asks_of_marks(&condition.rule) {
            let line = condition.line;
            let why = format!(in alloc;
                ": line {line}: with 'any tlb' no condition asks of marks: ask it in a file without"
            )?;
            return Ok(Some(why));
        }
    }
    if code.iter().any(is_fetch) {
        let why = format!(in alloc; ": with 'any tlb' no guest fetches")?;
        return Ok(Some(why));
    }
    Ok(None)
}

/// Whether an instruction is the board's Fetch.
fn is_fetch(line: &CodeLine) -> bool {
    matches!(line.instruction, Instruction::Fetch { .. })
}

/// The conditions of a program's own file.
fn asked(
    alloc: Global,
    sources: &Sources,
    program: &Assembly<'_>,
) -> Result<Vec<Condition>, Unloaded> {
    let text = sources.own();
    let numbered = with_numbers(alloc, text, &program.symbols)?;
    match conditions(alloc, &numbered) {
        Ok(conditions) => Ok(conditions),
        Err(found) if found.wrong == Wrong::NoMemory => Err(Unloaded::NoMemory),
        Err(found) => {
            let name = sources.name();
            let why = bad_numbered(alloc, text, &numbered, found)?;
            Err(Unloaded::File(format!(in alloc; "{name}{why}")?))
        }
    }
}

/// Makes each WFI an instruction that reads sip, and does nothing with it: a step that needs no wake (Privileged 3.3.3).
fn return_from_wfi(code: &mut [CodeLine]) {
    for line in code {
        if line.instruction == Instruction::Wfi {
            line.instruction = Instruction::ReadSip {
                rd: Register::zero(),
            };
        }
    }
}

/// A program without an instruction where its boot hart begins.
fn without_begin(alloc: Global, name: &str, boot_addr: u64) -> Result<Unloaded, AllocError> {
    Ok(Unloaded::File(format!(in alloc;
        "{name}: no instruction stands at BOOTADDR, {boot_addr:#x}"
    )?))
}

/// A program with a fault: its file, line and column, what is wrong, and the rest of the line.
fn faulty(alloc: Global, sources: &Sources, fault: ProgramFault) -> Result<Unloaded, AllocError> {
    let (file, TextPlace { line, column }) = sources.place(sources.byte_at(fault.place));
    told(alloc, file, line, column, what_is(fault.wrong))
}

/// The same of a line of the program's own file, with the number of bytes from the fault to the line's end.
pub(crate) fn faulty_at(
    alloc: Global,
    sources: &Sources,
    line: u64,
    left: usize,
    what: &str,
) -> Result<Unloaded, AllocError> {
    let line = line as usize;
    let many = rest_of(sources.own(), line, 1).len();
    let column = many.saturating_sub(left).saturating_add(1);
    told(alloc, sources.own_file(), line, column, what)
}

/// A fault of a file, with its place, which counts from 1.
fn told(
    alloc: Global,
    file: &SourceFile,
    line: usize,
    column: usize,
    what: &str,
) -> Result<Unloaded, AllocError> {
    let name = &file.name;
    let rest = said(str::from_utf8(rest_of(&file.text, line, column)).unwrap_or(""));
    let rest = with_blanks(alloc, rest)?;
    Ok(Unloaded::File(format!(in alloc; "{name}:{line}:{column}: {what}: '{rest}'")?))
}

/// A text with blanks in place of its tabs.
fn with_blanks(alloc: Global, text: &str) -> Result<String, AllocError> {
    let mut blank = String::new(alloc);
    for letter in text.chars() {
        blank.push(if letter == '\t' { ' ' } else { letter })?;
    }
    Ok(blank)
}

/// The bytes of a line from a column on; both count from 1.
fn rest_of(text: &[u8], line: usize, column: usize) -> &[u8] {
    for (i, found) in text.split(|b| *b == b'\n').enumerate() {
        if i.saturating_add(1) == line {
            return found.get(column.saturating_sub(1)..).unwrap_or(b"");
        }
    }
    b""
}

/// What is wrong, in words.
fn what_is(wrong: ProgramWrong) -> &'static str {
    match wrong {
        ProgramWrong::InText(wrong) => text_wrong(wrong),
        ProgramWrong::InStatement(wrong) => statement_wrong(wrong),
    }
}

/// What is wrong with characters, in words.
pub(crate) fn text_wrong(wrong: asm_tokens::BadText) -> &'static str {
    match wrong {
        asm_tokens::BadText::BadByte => "no token begins so",
        asm_tokens::BadText::OpenString => "a string isn't closed on its line",
        asm_tokens::BadText::OpenComment => "a comment isn't closed",
    }
}

/// What is wrong with a statement, in words.
pub(crate) fn statement_wrong(wrong: asm_expressions::Wrong) -> &'static str {
    use asm_expressions::Wrong as Bad;
    match wrong {
        Bad::NoValue => "a value is missing",
        Bad::BadNumber => "this is no number below 2^64",
        Bad::UnknownSymbol => "nothing defines this symbol",
        Bad::UnknownFunction => "%hi and %lo are the functions of values",
        Bad::NoHighPart => "no auipc with %pcrel_hi stands at this label",
        Bad::OpenParenthesis => "a parenthesis isn't closed",
        Bad::TooDeep => "too many parentheses and signs stand within one another",
        Bad::ByZero => "a division by 0",
        Bad::Behind => "something stands behind an operand",
        Bad::NoStatement => "this is no label, directive or instruction",
        Bad::UnknownMnemonic => "no instruction has this mnemonic",
        Bad::Refused => "guests don't obey this instruction",
        Bad::UnknownCsr => "no CSR of guests is called so",
        Bad::SipWrite => "sip is cleared by csrc without a result: write csrr, then csrc",
        Bad::BadOperands => "these aren't the operands that it takes",
        Bad::OutOfRange => "a value doesn't fit",
        Bad::OutOfReach => "the target is too far away, or at an odd address",
        Bad::UnknownDirective => "no directive is called so",
        Bad::DefinedTwice => "the symbol is defined twice",
        Bad::Backwards => ".org goes back, or the program is too large",
        Bad::UnknownSection => ".text, .rodata, .data and .bss are the sections",
        Bad::BadFlags =>
            "a leaf has r, or x without w, and of r, w, x, g, a and d each at most once",
        Bad::MappedTwice => "the page is mapped twice, or its root by another mode",
        Bad::Unsettled => "the size of a section depends on where it stands",
    }
}

/// The board that `.board` says: six numbers, or all eight.
fn board_of(data: &[Datum]) -> Option<Config> {
    let mut numbers = [0, 0, 0, 0, 0, 0, USUAL_ASID_LEN, USUAL_WIDTH];
    let mut count = 0;
    for datum in data {
        if datum.size == 0 && count < 8 {
            numbers[count] = datum.value;
            count += 1;
        } else if datum.size == 0 {
            return None;
        }
    }
    if count != 6 && count != 8 {
        return None;
    }
    Some(Config {
        harts: numbers[0],
        pages: numbers[1],
        limit: numbers[2],
        boot_hart: numbers[3],
        boot_addr: numbers[4],
        boot_opaque: numbers[5],
        asid_len: numbers[6],
        width: numbers[7],
    })
}
