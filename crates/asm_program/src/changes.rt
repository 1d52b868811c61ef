//! What the parts of a program change.
ghost use Rattle.std.specs.Prelude.{◌≡◌};
ghost use Rattle.asm_expressions.specs.Symbols.{context_of};
ghost use Rattle.asm_program.specs.Inside.Passes.{change_of, named_result};
ghost use Rattle.asm_program.specs.Forms.PartForm.{Directs};
ghost use Rattle.asm_program.specs.Layout.{alignment_of, change_in, part_changes_by, defined, equal_to, is_digits, mapping, reserved, reserved_name, section_named, symbol_of};
ghost use Rattle.asm_program.specs.Parts.{piece_of};
ghost use Rattle.asm_tokens.specs.Readings.{spots_of};
ghost use Rattle.std.specs.Int.{is_in_range};

use crate::directives::Directive;
use crate::forms::{Form, fault, read_form};
use crate::maps::map_text;
use crate::moves::{aligned_to, behind_directive, behind_instruction, behind_org, moved_by};
use crate::parts::Part;
use crate::sections::{Counters, Section, section_of};
use crate::tables::{Mapping, mapping_in};
use asm_expressions::{Fault, Scope, Symbol, Wrong, first_named, value_of};
use asm_instructions::first_operand;
use asm_tokens::{Mark, Placed, Token};
use sv39::Paging;

/// What a part changes.
#[derive(Clone, Copy)]
pub(crate) enum Change<'a> {
    /// Nothing.
    Stays,
    /// Its section goes on at this address.
    Moves(u64),
    /// This section goes on.
    Enters(Section),
    /// `.org` goes on at this address.
    Goes(u64),
    /// It defines a symbol.
    Defines(Symbol<'a>),
    /// It defines a symbol, and `.bss` goes on at this address.
    Reserves(Symbol<'a>, u64),
    /// It maps a page, and this symbol is the address of the page's entry.
    Maps(Mapping, Option<Symbol<'a>>),
}

/// What a part changes.
pub(crate) fn change_by<'a>(
    scope: &Scope<'_, '_>,
    counters: &Counters,
    part: &Part<'_, 'a>,
) -> Result<Change<'a>, Fault>
    ensures { change_of result ≡ change_in (context_of scope.now) counters.now (piece_of part.now) }
{
    let (form, left) = read_form(part)?;
    match form {
        Form::Nothing => Ok(Change::Stays),
        Form::Label(name) => defined(scope, name, left, scope.here),
        Form::Directive(directive, operands) => {
            directed(scope, counters, directive, left, operands)
        }
        Form::Instruction(form, operands) => {
            let next = behind_instruction(scope, form, left, operands)?;
            Ok(Change::Moves(next))
        }
    }
}

/// What a directive changes.
fn directed<'a>(
    scope: &Scope<'_, '_>,
    counters: &Counters,
    directive: Directive,
    left: usize,
    operands: &[Placed<'a>],
) -> Result<Change<'a>, Fault>
    ensures { change_of result ≡ part_changes_by (context_of scope.now) counters.now (Directs directive (spots_of operands.now)) left }
{
    match directive {
        Directive::Equ => equal_to(scope, left, operands),
        Directive::Org => {
            let to = behind_org(scope, counters.absolute, left, operands)?;
            Ok(Change::Goes(to))
        }
        Directive::Enter(section) => Ok(Change::Enters(section)),
        Directive::Named => section_named(left, operands),
        Directive::Common => reserved(scope, counters.bss, left, operands),
        Directive::Map(paging) => mapping(scope, paging, left, operands),
        Directive::Passed => Ok(Change::Stays),
        _ => {
            let next = behind_directive(scope, directive, left, operands)?;
            Ok(Change::Moves(next))
        }
    }
}

/// `.section NAME`, and what linkers ask for.
fn section_named<'a>(left: usize, operands: &[Placed<'a>]) -> Result<Change<'a>, Fault>
    ensures { change_of result ≡ section_named left (spots_of operands.now) }
{
    let Some((first, _)) = operands.split_first() else {
        return Err(fault(Wrong::BadOperands, left));
    };
    let Token::Word(word) = first.token else {
        return Err(fault(Wrong::BadOperands, first.left));
    };
    if word.starts_with(b".note.") {
        return Ok(Change::Stays);
    }
    match section_of(word) {
        Some(section) => Ok(Change::Enters(section)),
        None => Err(fault(Wrong::UnknownSection, first.left)),
    }
}

/// `.comm NAME, SIZE, ALIGNMENT`
fn reserved<'a>(
    scope: &Scope<'_, '_>,
    bss: u64,
    left: usize,
    operands: &[Placed<'a>],
) -> Result<Change<'a>, Fault>
    ensures { change_of result ≡ reserved (context_of scope.now) bss left (spots_of operands.now) }
{
    match operands {
        [first, second, sizes @ ..] => match (first.token, second.token) {
            (Token::Word(name), Token::Mark(Mark::Comma)) => {
                reserved_name(scope, bss, name, first.left, sizes)
            }
            _ => Err(fault(Wrong::BadOperands, left)),
        },
        _ => Err(fault(Wrong::BadOperands, left)),
    }
}

/// A symbol with so many bytes in `.bss`.
fn reserved_name<'a>(
    scope: &Scope<'_, '_>,
    bss: u64,
    name: &'a [u8],
    left: usize,
    sizes: &[Placed<'_>],
) -> Result<Change<'a>, Fault>
    ensures { change_of result ≡ reserved_name (context_of scope.now) bss name.now left (spots_of sizes.now) }
{
    let (front, _) = first_operand(sizes);
    let size = value_of(scope, front)?;
    let alignment = alignment_of(scope, sizes)?;
    let at = aligned_to(bss, alignment, left)?;
    let next = moved_by(at, 1, size, left)?;
    let symbol = symbol_of(scope, name, left, at)?;
    Ok(Change::Reserves(symbol, next))
}

/// The alignment behind a size; 8 bytes if there is none.
fn alignment_of(scope: &Scope<'_, '_>, sizes: &[Placed<'_>]) -> Result<u64, Fault>
    ensures { result ≡ alignment_of (context_of scope.now) (spots_of sizes.now) }
{
    match first_operand(sizes).1 {
        Some(behind) => value_of(scope, behind),
        None => Ok(8),
    }
}

/// `.map ROOT, PAGE, TO, FLAGS, NAME`
fn mapping<'a>(
    scope: &Scope<'_, '_>,
    paging: Paging,
    left: usize,
    operands: &[Placed<'a>],
) -> Result<Change<'a>, Fault>
    ensures { change_of result ≡ mapping (context_of scope.now) paging left (spots_of operands.now) }
{
    let Some(text) = map_text(operands) else {
        return Err(fault(Wrong::BadOperands, left));
    };
    let map = mapping_in(scope, paging, &text)?;
    match text.end.name {
        Some(name) => {
            let symbol = symbol_of(scope, name, text.end.left, 0)?;
            Ok(Change::Maps(map, Some(symbol)))
        }
        None => Ok(Change::Maps(map, None)),
    }
}

/// `.equ NAME, VALUE`
fn equal_to<'a>(
    scope: &Scope<'_, '_>,
    left: usize,
    operands: &[Placed<'a>],
) -> Result<Change<'a>, Fault>
    ensures { change_of result ≡ equal_to (context_of scope.now) left (spots_of operands.now) }
{
    match operands {
        [first, second, value @ ..] => match (first.token, second.token) {
            (Token::Word(name), Token::Mark(Mark::Comma)) => {
                let value = value_of(scope, value)?;
                defined(scope, name, first.left, value)
            }
            _ => Err(fault(Wrong::BadOperands, left)),
        },
        _ => Err(fault(Wrong::BadOperands, left)),
    }
}

/// What a definition of a symbol changes.
fn defined<'a>(
    scope: &Scope<'_, '_>,
    name: &'a [u8],
    left: usize,
    value: u64,
) -> Result<Change<'a>, Fault>
    ensures { change_of result ≡ defined (context_of scope.now) name.now left value }
{
    let symbol = symbol_of(scope, name, left, value)?;
    Ok(Change::Defines(symbol))
}

/// A symbol that no part above defines; a local label can be defined again.
fn symbol_of<'a>(
    scope: &Scope<'_, '_>,
    name: &'a [u8],
    left: usize,
    value: u64,
) -> Result<Symbol<'a>, Fault>
    ensures { named_result result ≡ symbol_of (context_of scope.now) name.now left value }
{
    if !is_digits(name) && first_named(scope.symbols, name).is_some() {
        return Err(fault(Wrong::DefinedTwice, left));
    }
    Ok(Symbol {
        name,
        value,
        statement: scope.statement,
    })
}

/// Whether a name is that of a local label: decimal digits.
fn is_digits(name: &[u8]) -> bool
    ensures { result ≡ is_digits name.now }
{
    for byte in name {
        if !is_digit(*byte) {
            return false;
        }
    }
    true
}

/// Whether a byte is a decimal digit.
fn is_digit(byte: u8) -> bool
    ensures { result ≡ is_in_range 48 57 byte }
{
    matches!(byte, b'0'..=b'9')
}
