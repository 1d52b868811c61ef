//! What the parts of a program say.
ghost use Rattle.std.specs.Prelude.{◌≡◌};
ghost use Rattle.asm_program.specs.Forms.{begins_directive, form_as, part_form, part_form_of, is_colon, named_form};
ghost use Rattle.asm_program.specs.Parts.{piece_of};
ghost use Rattle.asm_tokens.specs.Readings.{spots_of};

use crate::directives::{Directive, directive_of};
use crate::parts::Part;
use asm_expressions::{Fault, Wrong};
use asm_mnemonics::{OperandForm, operands_of};
use asm_tokens::{Mark, Placed, Token};

/// What a part says.
#[derive(Clone, Copy)]
pub(crate) enum Form<'t, 'a> {
    /// Nothing.
    Nothing,
    /// A label.
    Label(&'a [u8]),
    /// A directive, and its operands.
    Directive(Directive, &'t [Placed<'a>]),
    /// An instruction, and its operands.
    Instruction(OperandForm, &'t [Placed<'a>]),
}

/// What a part says, and the place of its first word.
///
/// # Errors
///
/// The part isn't a label, a directive or an instruction.
pub(crate) fn read_form<'t, 'a>(part: &Part<'t, 'a>) -> Result<(Form<'t, 'a>, usize), Fault>
    ensures { part_form_of result ≡ part_form (piece_of part.now) }
{
    let Some((first, behind)) = part.tokens.split_first() else {
        return Ok((Form::Nothing, part.end));
    };
    let Token::Word(word) = first.token else {
        return Err(fault(Wrong::NoStatement, first.left));
    };
    if is_colon(behind) {
        return Ok((Form::Label(word), first.left));
    }
    let form = named_form(word, first.left, behind)?;
    Ok((form, first.left))
}

/// The directive or the instruction of a word.
fn named_form<'t, 'a>(
    word: &[u8],
    left: usize,
    operands: &'t [Placed<'a>],
) -> Result<Form<'t, 'a>, Fault>
    ensures { form_as result ≡ named_form word.now left (spots_of operands.now) }
{
    if begins_directive(word) {
        return match directive_of(word) {
            Some(directive) => Ok(Form::Directive(directive, operands)),
            None => Err(fault(Wrong::UnknownDirective, left)),
        };
    }
    match operands_of(word) {
        Some(form) => Ok(Form::Instruction(form, operands)),
        None => Err(fault(Wrong::UnknownMnemonic, left)),
    }
}

/// Whether a word begins with a dot.
fn begins_directive(word: &[u8]) -> bool
    ensures { result ≡ begins_directive word.now }
{
    match word.split_first() {
        Some((first, _)) => *first == b'.',
        None => false,
    }
}

/// Whether tokens are a colon.
fn is_colon(tokens: &[Placed<'_>]) -> bool
    ensures { result ≡ is_colon (spots_of tokens.now) }
{
    match tokens {
        [only] => matches!(only.token, Token::Mark(Mark::Colon)),
        _ => false,
    }
}

/// A fault.
pub(crate) fn fault(wrong: Wrong, left: usize) -> Fault
    ensures { result ≡ record { wrong = wrong; left = left } }
{
    Fault { wrong, left }
}
