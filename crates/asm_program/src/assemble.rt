//! Assembles a text.
ghost use Rattle.std.specs.Prelude.{◌≡◌, ◌-◌, ◌≤◌, ◌++◌, IfErr, IfOk, OnOk};
ghost use Rattle.asm_program.specs.declared.assemble.AssemblyError.TheVariants.{Faulty};
ghost use Rattle.asm_program.specs.Assembles.{Assembles, IsUnassembled, image_of};
ghost use Rattle.asm_program.specs.Inside.Passes.{StopsAt, imaged, laid_of, program_in, stopped, sum_after, unread};
ghost use Rattle.asm_program.specs.Layout.{counters_in};
ghost use Rattle.asm_program.specs.Parts.{parts_of};
ghost use Rattle.asm_tokens.specs.Places.{place_in};
ghost use Rattle.asm_tokens.specs.Readings.{AreTokens, spots_of};

use crate::code::CodeLine;
use crate::data::Datum;
use crate::forms::fault;
use crate::layout::{Layout, lay_out};
use crate::output::{Output, write_all};
use crate::parts::parts;
use crate::sections::Counters;
use crate::stop::Stop;
use asm_expressions::{Symbol, Wrong};
use asm_tokens::{BadText, Placed, TextPlace, TokensFault, place_at, read_tokens};
use std::alloc::{AllocError, Global};

/// A program: what its text says.
#[derive(Drop)]
pub struct Assembly<'a> {
    /// Its instructions, with their addresses.
    pub code: Vec<CodeLine>,
    /// Its data, with their addresses.
    pub data: Vec<Datum>,
    /// The clock's ticks, in order.
    pub ticks: Vec<u64>,
    /// Its symbols, in the order of the parts that define them.
    pub symbols: Vec<Symbol<'a>>,
    /// Where its sections end: the addresses that `.org` left, and those behind each section.
    pub ends: Vec<u64>,
}

/// What is wrong with a program.
#[derive(Clone, Copy, PartialEq, Eq)]
pub enum ProgramWrong {
    /// Its characters.
    InText(BadText),
    /// A label or a statement.
    InStatement(Wrong),
}

/// The first fault of a program.
#[derive(Clone, Copy, PartialEq, Eq)]
pub struct ProgramFault {
    /// What is wrong.
    pub wrong: ProgramWrong,
    /// Its line and column.
    pub place: TextPlace,
}

/// Why a text wasn't assembled.
#[derive(Clone, Copy, PartialEq, Eq)]
pub enum AssemblyError {
    /// Its first fault.
    Faulty(ProgramFault),
    /// Memory was refused.
    NoMemory,
}

/// The program that a text says.
///
/// # Errors
///
/// Its first fault: of its characters; or of where its parts stand; or of what they write. Or out of memory.
pub fn assemble_text<'a>(alloc: Global, text: &'a [u8]) -> Result<Assembly<'a>, AssemblyError>
    ensures program { IfOk result (λ program. Assembles text.now (image_of program)) }
    ensures fault { IfErr result (IsUnassembled text.now) }
{
    match read_tokens(alloc, text) {
        Ok(tokens) => assembled(alloc, text, tokens.as_slice()),
        Err(fault) => Err(unread(text, fault)),
    }
}

/// The program that a text with these tokens says.
fn assembled<'a>(
    alloc: Global,
    text: &'a [u8],
    tokens: &[Placed<'a>],
) -> Result<Assembly<'a>, AssemblyError>
    requires { AreTokens text.now (spots_of tokens.now) }
    ensures program { IfOk result (λ program. Assembles text.now (image_of program)) }
    ensures fault { IfErr result (IsUnassembled text.now) }
{
    match assemble(alloc, tokens) {
        Ok(program) => Ok(program),
        Err(stop) => Err(stopped(text, stop)),
    }
}

/// Why a text with these characters isn't assembled.
fn unread(text: &[u8], fault: TokensFault) -> AssemblyError
    ensures { result ≡ unread text.now fault }
{
    match fault {
        TokensFault::Wrong(fault) => faulty(text, ProgramWrong::InText(fault.wrong), fault.left),
        TokensFault::NoMemory => AssemblyError::NoMemory,
    }
}

/// Why a text isn't assembled whose pass stopped.
fn stopped(text: &[u8], stop: Stop) -> AssemblyError
    ensures { result ≡ stopped text.now stop }
{
    match stop {
        Stop::At(fault) => faulty(text, ProgramWrong::InStatement(fault.wrong), fault.left),
        Stop::NoMemory => AssemblyError::NoMemory,
    }
}

/// The program that tokens say.
fn assemble<'a>(alloc: Global, tokens: &[Placed<'a>]) -> Result<Assembly<'a>, Stop>
    ensures program { IfOk result (λ program. program_in (parts_of (spots_of tokens.now)) ≡ Ok (image_of program)) }
    ensures fault { IfErr result (StopsAt (program_in (parts_of (spots_of tokens.now)))) }
{
    let parts = parts(alloc, tokens)?;
    let sizes = lay_out(alloc, Counters::zero(), parts.as_slice())?;
    let Some(bases) = sizes.counters.bases() else {
        return Err(Stop::At(fault(Wrong::Backwards, 0)));
    };
    let layout = lay_out(alloc, bases, parts.as_slice())?;
    if !layout.counters.are_settled(&bases, &sizes.counters) {
        return Err(Stop::At(fault(Wrong::Unsettled, 0)));
    }
    written(alloc, layout)
}

/// The program that parts say where they stand.
fn written<'a>(alloc: Global, layout: Layout<'_, 'a>) -> Result<Assembly<'a>, Stop>
    ensures program { IfOk result (λ program. imaged (laid_of layout.entry) (sum_after (laid_of layout.entry)) ≡ Ok (image_of program)) }
    ensures fault { IfErr result (StopsAt (imaged (laid_of layout.entry) (sum_after (laid_of layout.entry)))) }
{
    let Layout {
        section: _,
        counters,
        symbols,
        left,
        entries,
        statements,
    } = layout;
    let Output { code, data, ticks } = write_all(
        alloc,
        symbols.as_slice(),
        entries.as_slice(),
        statements.as_slice(),
    )?;
    let mut ends = left;
    add_counters(&mut ends, &counters)?;
    Ok(Assembly {
        code,
        data,
        ticks,
        symbols,
        ends,
    })
}

/// Adds the address at which each section goes on.
fn add_counters(ends: &mut Vec<u64>, counters: &Counters) -> Result<(), AllocError>
    ensures { OnOk result (ends.new.items ≡ ends.old.items ++ counters_in counters.now) }
{
    ends.extend_from_slice(&[
        counters.absolute,
        counters.text,
        counters.rodata,
        counters.variables,
        counters.bss,
    ])
}

/// A fault at a place.
fn faulty(text: &[u8], wrong: ProgramWrong, left: usize) -> AssemblyError
    ensures { result ≡ Faulty (record { wrong = wrong; place = place_in text.now left }) }
{
    let place = place_at(text, within(left, text.len()));
    AssemblyError::Faulty(ProgramFault { wrong, place })
}

/// A number of bytes, or that of all if it is less.
fn within(left: usize, all: usize) -> usize
    ensures small { result ≤ all }
    ensures same { all - result ≡ all - left }
{
    if left < all { left } else { all }
}
